// What a worker does with a chore, and when it rests.
ghost use Rattle.std.specs.Prelude.{◌≡◌};

use io_traits::{ListClock, Nudge, PlainNudge};
use node_workers::{Chore, Did, work};
use std::alloc::Global;
use std::sync::Wait;
use std::sync::atomic::{AtomicU64, Ordering};
use std::test::Fail;

// A chore with so much to do that is done in as many turns, and then there is nothing. It notes the last time.
#[derive(Drop)]
struct Countdown {
    left: u64,
    last: u64,
}

impl Chore for Countdown {
    ghost turns = { λ old now did new. new.last ≡ now };

    fn turn(&mut self, _alloc: Global, now: u64) -> Did {
        self.last = now;
        match self.left {
            0 => Did::Idle,
            3 => {
                self.left -= 1;
                Did::Refused
            }
            6 => {
                self.left -= 1;
                Did::Memory
            }
            _ => {
                self.left -= 1;
                Did::Worked
            }
        }
    }
}

// Tells a worker to end once it has rested so often. It notes which worker asks.
#[derive(Drop)]
struct Restful {
    rests: AtomicU64,
    asked: AtomicU64,
    who: AtomicU64,
}

impl Nudge for Restful {
    ghost tells = { λ nudge who idle goes_on. Unit {0} };

    fn pause<R: Wait + std::rt::Clock>(&self, _rt: &R, who: u8, idle: bool) -> bool {
        self.asked.fetch_add(1, Ordering::SeqCst);
        self.who.store(u64::from(who), Ordering::SeqCst);
        if idle {
            self.rests.fetch_add(1, Ordering::SeqCst);
        }
        self.rests.load(Ordering::SeqCst) < 4
    }

    fn stop(&self) {}
}

// 7 units of work in 7 turns, of which one finds no memory and one is refused. Then there is nothing, and the fourth rest ends it.
#[test]
fn a_worker_takes_turns_and_rests_after_each_without_work(rt: HostRuntime) -> Result<(), Fail> {
    let alloc = rt.alloc();
    let mut clock = ListClock::new([10, 20, 30].to_vec(alloc)?);
    let mut chore = Countdown { left: 7, last: 0 };
    let nudge = Restful {
        rests: AtomicU64::new(0),
        asked: AtomicU64::new(0),
        who: AtomicU64::new(0),
    };
    assert_eq!(rt; work(&rt, alloc, &mut chore, &mut clock, &nudge, 3), 9);
    assert_eq!(rt; (chore.left, chore.last), (0, 30));
    assert_eq!(rt; nudge.asked.load(Ordering::SeqCst), 9);
    assert_eq!(rt; nudge.who.load(Ordering::SeqCst), 3);
    Ok(())
}

#[test]
fn a_late_clock_counts_as_the_latest_time(rt: HostRuntime) -> Result<(), Fail> {
    let alloc = rt.alloc();
    let mut clock = ListClock::new([u64::MAX].to_vec(alloc)?);
    let mut chore = Countdown { left: 7, last: 0 };
    let nudge = PlainNudge::new();
    nudge.stop();
    assert_eq!(rt; work(&rt, alloc, &mut chore, &mut clock, &nudge, 0), 1);
    assert_eq!(rt; chore.last, 1 << 61);
    Ok(())
}
