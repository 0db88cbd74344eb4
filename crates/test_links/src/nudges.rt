// Workers that rest, in one thread, until another thread tells them to end.
use io_traits::{Nudge, ParkNudge, PlainNudge};
use std::rt::Clock;
use std::sync::Wait;
use std::test::Fail;
use std::thread::{Threads, join, sleep};
use std::time::{Duration, Instant};

// Rests until it is told to end, and counts the rests.
fn rests<R: Wait + Clock, N: Nudge>(rt: &R, nudge: &N, who: u8) -> u64 {
    let mut count = 0u64;
    for _ in rt.forever() {
        if !nudge.pause(rt, who, true) {
            break;
        }
        count = count.saturating_add(1);
    }
    count
}

// A worker rests, and is told to end a tenth of a second later.
fn rest_and_stop<R: Threads + Wait + Clock + Sync, N: Nudge + Sync>(
    rt: &R,
    nudge: &N,
    who: u8,
) -> u64 {
    let (count, ()) = join(
        rt,
        || rests(rt, nudge, who),
        || {
            sleep(rt, Duration::from_millis(100));
            nudge.stop();
        },
    );
    count
}

#[test]
fn idle_workers_park_until_they_are_told_to_end(rt: HostRuntime) -> Result<(), Fail> {
    let nudge = ParkNudge::new(rt.alloc(), 2)?;
    assert!(rt; nudge.pause(&rt, 0, false));
    let start = Instant::now(&rt)?;
    let count = rest_and_stop(&rt, &nudge, 1);
    assert!(rt; start.elapsed(&rt)? >= Duration::from_millis(100));
    assert!(rt; count < 50, "{count} rests");
    assert!(rt; !nudge.pause(&rt, 0, true));
    Ok(())
}

#[test]
fn plain_workers_are_told_to_end(rt: HostRuntime) -> Result<(), Fail> {
    let nudge = PlainNudge::new();
    assert!(rt; nudge.pause(&rt, 0, true));
    let _count = rest_and_stop(&rt, &nudge, 0);
    assert!(rt; !nudge.pause(&rt, 7, false));
    Ok(())
}
