// A flusher that works by itself until there is nothing to flush.
ghost use Rattle.std.specs.Prelude.{◌≡◌, ◌≤◌, ◌^◌, true, false, IfOk, vec_len};
ghost use Rattle.live_chores.specs.Flushes.{flusher};
ghost use Rattle.test_chores.specs.Trials.{IsHired};

use crate::tests::devices::{RISING, counts, ended, opened, put, rejoined, share};
use crate::tests::flushes::{given, hired, long};
use disk_model::MemDisk;
use io_traits::{ListClock, Nudge, PlainNudge};
use live_chores::FlushChore;
use live_node::Live;
use node_workers::work;
use std::alloc::Global;
use std::rt::Clock;
use std::sync::Wait;
use std::test::Fail;

// A plain nudge, which is stopped when a worker comes to rest.
#[derive(Drop)]
struct StopsAtRest {
    plain: PlainNudge,
}

impl Nudge for StopsAtRest {
    ghost tells = { λ nudge who idle goes_on. Unit {0} };

    fn pause<R: Wait + Clock>(&self, rt: &R, who: u8, idle: bool) -> bool {
        if idle {
            self.plain.stop();
        }
        self.plain.pause(rt, who, idle)
    }

    fn stop(&self) {
        self.plain.stop();
    }
}

// How many turns a flusher took until it came to rest.
fn work_off<'a, R: Wait + Clock>(
    rt: &R,
    alloc: Global,
    live: &Live<MemDisk>,
    chore: &mut FlushChore<'a, R, MemDisk>,
    clock: &mut ListClock,
) -> u64
    requires hired { IsHired live.now (flusher chore.old) }
    ensures hired { IsHired live.now (flusher chore.new) }
{
    let nudge = StopsAtRest {
        plain: PlainNudge::new(),
    };
    work(rt, alloc, chore, clock, &nudge, 0)
}

// Two buffers wait, as in a flusher's own test. Each is flushed in a turn, the third finds none, and the nudge tells the worker to end.
#[test]
fn a_flusher_works_until_nothing_is_left_and_is_told_to_end(rt: HostRuntime) -> Result<(), Fail> {
    let alloc = rt.alloc();
    let payload = long(alloc)?;
    let mut clock = ListClock::new(Vec::from_array(alloc, [2000])?);
    let (live, mut pass) = opened(alloc)?;
    let mut chore = hired(&rt, &live, share(&live, &mut pass));
    let one = put(alloc, &rt, &live, &mut pass, &RISING, 0, payload.as_slice());
    let two = put(alloc, &rt, &live, &mut pass, &RISING, 0, payload.as_slice());
    let turns = work_off(&rt, alloc, &live, &mut chore, &mut clock);
    let counts = counts(&rt, &live, &mut pass);
    rejoined(&live, &mut pass, given(&live, chore));
    ended(live, pass);
    assert!(rt; one && two);
    assert_eq!(rt; turns, 3);
    assert!(rt; counts.pending == 0 && counts.free == 7);
    Ok(())
}
