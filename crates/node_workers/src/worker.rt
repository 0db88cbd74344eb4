// The loop of a worker.
ghost use Rattle.std.specs.Prelude.{◌≡◌};
ghost use Rattle.node_workers.specs.Turns.{TakesTurn, Works, is_idle};

use crate::chore::{Chore, Did};
use io_traits::{Clock, Nudge};
use std::alloc::Global;
use std::sync::Wait;

// The latest time, in milliseconds. A later one counts as this.
const LATEST: u64 = 1 << 61;

// One turn at the clock's time.
fn take_turn<T: Chore, C: Clock>(alloc: Global, chore: &mut T, clock: &mut C) -> Did
    ensures { TakesTurn T.turns chore.old (C.times clock.old) result chore.new (C.times clock.new) }
{
    let now = clock.now_ms().min(LATEST);
    chore.turn(alloc, now)
}

// Whether a worker is idle behind such a turn.
fn is_idle(did: Did) -> bool
    ensures { result ≡ is_idle did }
{
    match did {
        Did::Worked => false,
        Did::Idle | Did::Refused | Did::Memory => true,
    }
}

/// How many turns of the chore were taken. The first is taken at once; behind each the nudge is asked, and another is taken where it tells
/// this worker to go on, whatever came of the last. The worker ends only where it is told to. Behind a turn in which nothing was done, for
/// want of work or of memory or since it was refused, it is idle, and the nudge may let it rest.
pub fn work<R: Wait + std::rt::Clock, T: Chore, C: Clock, N: Nudge>(
    rt: &R,
    alloc: Global,
    chore: &mut T,
    clock: &mut C,
    nudge: &N,
    who: u8,
) -> u64
    ensures { Works T.turns (N.tells nudge.now who) result chore.old (C.times clock.old) chore.new (C.times clock.new) }
{
    let mut count = 0u64;
    for _ in rt.forever() {
        let did = take_turn(alloc, chore, clock);
        count = count.saturating_add(1);
        let goes_on = nudge.pause(rt, who, is_idle(did));
        if !goes_on {
            return count;
        }
    }
    unreachable!()
}
