// A clock that gives the times of a list, and then the last of them for ever.
ghost use Rattle.std.specs.Prelude.{◌≡◌, ◌<◌, length, drop, Some, IfOk};

use crate::{Clock, NoMemory};
use std::alloc::Global;
use std::marker::Model;

/// A clock that gives the times of a list, in milliseconds, in order. The last is repeated.
#[derive(Drop)]
pub struct ListClock {
    times: Vec<u64>,
    at: usize,
}

impl Model for ListClock {
    ghost use Rattle.std.specs.Prelude.{◌<◌, List, ℕ, length, drop};

    ghost Value = { List ℕ };

    ghost view = { λ c. drop c.at c.times.items };

    ghost invariant = { λ c. c.at < length c.times.items };
}

impl ListClock {
    /// A clock that gives these times, of which there must be at least one.
    pub fn new(times: Vec<u64>) -> Self
        requires { 0 < length times.items }
        ensures { result ≡ times.items }
    {
        ListClock { times, at: 0 }
    }
}

impl Clock for ListClock {
    ghost times = { λ c. Some c };

    fn now_ms(&mut self) -> u64 {
        let time = self.times[self.at];
        if self.at + 1 < self.times.len() {
            self.at += 1;
        }
        time
    }

    fn fork(&self, alloc: Global) -> Result<Self, NoMemory> {
        let times = self.times[self.at..].to_vec(alloc)?;
        Ok(ListClock { times, at: 0 })
    }
}
