// How far a write buffer has come.
ghost use Rattle.std.specs.Prelude.{◌≡◌};
ghost use Rattle.write_buffer.specs.Phases.{phase_rank, later_phase};

/// How far a write buffer has come, from being filled to the write of its gate.
#[derive(Clone, Copy, PartialEq, Eq)]
pub enum Phase {
    /// It takes records.
    Filling,
    /// It takes no more records, and waits to be flushed.
    Sealed,
    /// Its body was written and synced.
    BodyDone,
    /// The write of its open gate has begun.
    GateBegun,
}

impl Phase {
    /// The place of the phase in the order in which a buffer passes through them.
    fn rank(self) -> u8
        ensures { result ≡ phase_rank self }
    {
        match self {
            Phase::Filling => 0,
            Phase::Sealed => 1,
            Phase::BodyDone => 2,
            Phase::GateBegun => 3,
        }
    }

    /// The later one of two phases.
    pub(crate) fn or_later(self, other: Phase) -> Phase
        ensures { result ≡ later_phase self other }
    {
        if self.rank() < other.rank() {
            other
        } else {
            self
        }
    }
}
