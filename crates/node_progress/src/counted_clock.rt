// A clock whose readings are counted.
ghost use Rattle.std.specs.Prelude.{◌≡◌};

use crate::Progress;
use io_traits::{Clock, NoMemory};
use std::alloc::Global;
use std::io::IsTerminal;
use std::marker::Model;

/// A clock that is read once for each line that is served. In clauses it is the clock below.
#[derive(Drop)]
pub struct CountedClock<'a, C: Clock, E: Eprint + IsTerminal + Drop> {
    clock: C,
    // It is none in a fork, which tells nothing.
    progress: Option<&'a Progress<E>>,
    lines: Option<u64>,
    served: u64,
}

impl<'a, C: Clock, E: Eprint + IsTerminal + Drop> Model for CountedClock<'a, C, E> {
    ghost Value = { C };

    ghost view = { λ c. c.clock };
}

impl<'a, C: Clock, E: Eprint + IsTerminal + Drop> CountedClock<'a, C, E> {
    /// The clock, whose first reading tells that serving has begun. Where it is known how many lines there are, each reading tells
    /// one more as served.
    pub fn new(clock: C, progress: &'a Progress<E>, lines: Option<u64>) -> CountedClock<'a, C, E>
        ensures { result ≡ clock }
    {
        CountedClock {
            clock,
            progress: Some(progress),
            lines,
            served: 0,
        }
    }

    // Counts a reading.
    fn count(&mut self)
        ensures { self.new ≡ self.old }
    {
        let Some(progress) = self.progress else {
            return;
        };
        progress.begin();
        self.served = self.served.saturating_add(1);
        if let Some(lines) = self.lines {
            progress.tell("serving", self.served, lines);
        }
    }
}

impl<'a, C: Clock, E: Eprint + IsTerminal + Drop> Clock for CountedClock<'a, C, E> {
    ghost times = { λ c. C.times c };

    fn now_ms(&mut self) -> u64 {
        self.count();
        self.clock.now_ms()
    }

    fn fork(&self, alloc: Global) -> Result<Self, NoMemory> {
        Ok(CountedClock {
            clock: self.clock.fork(alloc)?,
            progress: None,
            lines: None,
            served: 0,
        })
    }
}
