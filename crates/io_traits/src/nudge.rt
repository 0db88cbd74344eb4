// How workers rest between their turns, and are told to end. No clause tells when a rest ends, or that a worker is told to end: another
// thread may tell it at any time.
ghost use Rattle.std.specs.Prelude.{ℕ, Bool};

use crate::NoMemory;
use std::alloc::Global;
use std::rt::Clock;
use std::sync::Wait;
use std::sync::atomic::{AtomicBool, Ordering};
use std::thread::{Parker, yield_now};
use std::time::Duration;

// How long an idle worker rests at most, in milliseconds.
const REST: u64 = 20;

/// Where workers rest between their turns, and are told whether they go on.
pub trait Nudge: Drop {
    /// What a worker of this number was told, who was idle or not: true where it goes on.
    ghost tells: { Self → ℕ → Bool → Bool → Type 0 };

    /// Whether the worker goes on: at false it is to end. Before the answer it may rest, where it is idle.
    fn pause<R: Wait + Clock>(&self, rt: &R, who: u8, idle: bool) -> bool
        ensures { tells self.now who idle result };

    /// From now on each worker is told to end. One that rests is woken.
    fn stop(&self);
}

/// A nudge of one flag. An idle worker lets another thread run, and doesn't rest.
#[derive(Drop)]
pub struct PlainNudge {
    stopped: AtomicBool,
}

impl PlainNudge {
    /// A nudge that wasn't stopped.
    pub fn new() -> PlainNudge {
        PlainNudge {
            stopped: AtomicBool::new(false),
        }
    }
}

impl Nudge for PlainNudge {
    ghost tells = { λ nudge who idle goes_on. Unit {0} };

    fn pause<R: Wait + Clock>(&self, _rt: &R, _who: u8, idle: bool) -> bool {
        if idle {
            yield_now();
        }
        !self.stopped.load(Ordering::SeqCst)
    }

    fn stop(&self) {
        self.stopped.store(true, Ordering::SeqCst);
    }
}

/// A nudge of one flag and a place to park for each worker. An idle worker parks there for at most 20 milliseconds.
#[derive(Drop)]
pub struct ParkNudge {
    places: Vec<Parker>,
    stopped: AtomicBool,
}

impl ParkNudge {
    /// At `Ok` a nudge that wasn't stopped, for workers of the numbers below this one; one of another number doesn't park. An `Err` is want
    /// of memory.
    pub fn new(alloc: Global, workers: u8) -> Result<ParkNudge, NoMemory> {
        let mut places = Vec::with_capacity(alloc, usize::from(workers))?;
        for _ in 0..workers {
            places.push(Parker::new())?;
        }
        Ok(ParkNudge {
            places,
            stopped: AtomicBool::new(false),
        })
    }
}

impl Nudge for ParkNudge {
    ghost tells = { λ nudge who idle goes_on. Unit {0} };

    fn pause<R: Wait + Clock>(&self, rt: &R, who: u8, idle: bool) -> bool {
        if idle && !self.stopped.load(Ordering::SeqCst) {
            if let Some(place) = self.places.get(usize::from(who)) {
                place.park_timeout(rt, Duration::from_millis(REST));
            }
        }
        !self.stopped.load(Ordering::SeqCst)
    }

    fn stop(&self) {
        self.stopped.store(true, Ordering::SeqCst);
        for place in &self.places {
            place.unpark();
        }
    }
}
