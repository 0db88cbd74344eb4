// The calls of one kind, and which of them are to fail.
ghost use Rattle.std.specs.Prelude.{◌≡◌, ◌++◌, [], ◌∷◌, OnOk, OnErr};

use crate::NoMemory;
use std::alloc::{AllocError, Global};

/// The calls of one kind, counted from 0 on, and which of them are to fail.
#[derive(Drop)]
pub struct Tally {
    pub done: u64,
    /// The numbers of the calls that are to fail, the first call being 0.
    pub failing: Vec<u64>,
}

impl Tally {
    ghost use Rattle.disk_model.specs.Faults.{is_asked, IsCounted, IsAskedAfter, IsSame, IsNew};

    /// No call yet, and none that is to fail.
    pub fn new(alloc: Global) -> Self
        ensures { IsNew result }
    {
        Tally {
            done: 0,
            failing: Vec::new(alloc),
        }
    }

    /// Counts a call, and answers whether it is to fail.
    pub fn count(&mut self) -> bool
        ensures fails { result ≡ is_asked self.old }
        ensures counted { IsCounted self.old self.new }
    {
        let fails = self.failing.contains(&self.done);
        self.done = self.done.saturating_add(1);
        fails
    }

    /// At `Ok` the call which comes after `skip` others is to fail. A number that no count reaches is left off. An `Err` is want of
    /// memory, and changes nothing.
    pub fn fail_after(&mut self, skip: u64) -> Result<(), NoMemory>
        ensures ok { OnOk result (IsAskedAfter skip self.old self.new) }
        ensures err { OnErr result (IsSame self.old self.new) }
    {
        if skip < u64::MAX - self.done && self.failing.push(self.done + skip).is_err() {
            return Err(AllocError);
        }
        Ok(())
    }
}
