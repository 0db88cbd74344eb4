// The machine's clock, in milliseconds since 1970.
ghost use Rattle.std.specs.Prelude.{None};

use crate::{Clock, NoMemory};
use std::alloc::Global;

/// The machine's clock: milliseconds since 1970. Where it can't be read it gives the time that it gave last, 0 at first.
#[derive(Drop)]
pub struct SystemClock<'a, R: std::rt::Clock> {
    rt: &'a R,
    last: u64,
}

impl<'a, R: std::rt::Clock> SystemClock<'a, R> {
    /// A clock that hasn't been read yet.
    pub fn new(rt: &'a R) -> SystemClock<'a, R> {
        SystemClock { rt, last: 0 }
    }
}

impl<'a, R: std::rt::Clock> Clock for SystemClock<'a, R> {
    ghost times = { λ _. None };

    fn now_ms(&mut self) -> u64 {
        if let Ok(time) = self.rt.since_1970() {
            self.last = u64::try_from(time.as_millis()).unwrap_or(u64::MAX);
        }
        self.last
    }

    fn fork(&self, _alloc: Global) -> Result<Self, NoMemory> {
        Ok(SystemClock {
            rt: self.rt,
            last: self.last,
        })
    }
}
