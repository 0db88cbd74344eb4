// What a worker does.
ghost use Rattle.std.specs.Prelude.{ℕ, ◌≤◌, ◌^◌};
ghost use Rattle.node_workers.specs.declared.chore.Did.{Did};

use std::alloc::Global;

/// What came of a turn.
#[derive(Clone, Copy, Debug, PartialEq, Eq)]
pub enum Did {
    /// Something was done.
    Worked,
    /// There was nothing to do.
    Idle,
    /// What was to be done was refused, and not for want of memory.
    Refused,
    /// There was no memory for it.
    Memory,
}

/// Work that is done in turns.
pub trait Chore: Drop {
    /// The chore before a turn, the turn's time in milliseconds, what came of it, and the chore after it.
    ghost turns: { Self → ℕ → Did → Self → Type 0 };

    /// What came of one turn, taken at this time in milliseconds.
    fn turn(&mut self, alloc: Global, now: u64) -> Did
        requires { now ≤ 2 ^ 61 }
        ensures { turns self.old now result self.new };
}
