// A nudge that notes who asks it.
use io_traits::Nudge;
use std::rt::Clock;
use std::sync::Wait;
use std::sync::atomic::{AtomicU64, Ordering};

/// A nudge that notes which workers asked it, and how often it was stopped.
#[derive(Drop)]
pub struct Noting<N> {
    nudge: N,
    asked: [AtomicU64; 5],
    stops: AtomicU64,
}

impl<N> Noting<N> {
    pub fn new(nudge: N) -> Noting<N> {
        Noting {
            nudge,
            asked: [
                AtomicU64::new(0),
                AtomicU64::new(0),
                AtomicU64::new(0),
                AtomicU64::new(0),
                AtomicU64::new(0),
            ],
            stops: AtomicU64::new(0),
        }
    }

    /// Whether the worker of this number asked it. All from number 4 on count as one.
    pub fn was_asked_by(&self, who: usize) -> bool {
        self.asked[who.min(4)].load(Ordering::SeqCst) > 0
    }

    pub fn stops(&self) -> u64 {
        self.stops.load(Ordering::SeqCst)
    }
}

impl<N: Nudge> Nudge for Noting<N> {
    ghost tells = { λ nudge who idle goes_on. Unit {0} };

    fn pause<R: Wait + Clock>(&self, rt: &R, who: u8, idle: bool) -> bool {
        self.asked[usize::from(who).min(4)].fetch_add(1, Ordering::SeqCst);
        self.nudge.pause(rt, who, idle)
    }

    fn stop(&self) {
        self.stops.fetch_add(1, Ordering::SeqCst);
        self.nudge.stop();
    }
}
