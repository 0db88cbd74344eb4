// A source that a halt ends.
ghost use Rattle.std.specs.Prelude.{◌≡◌, ◌<◌, length, None, Ok, OnOk, IsTrue, IsFalse, false};
ghost use Rattle.model_faults.specs.Counts.{IsCaused};
ghost use Rattle.io_traits.specs.Source.{ReadGives};

use crate::Halt;
use io_traits::{Ends, Source, SourceFault};
use std::marker::Model;
use std::os::fd::RawFd;

/// A source that is at its end where the one below is, or once its halt has come. Before each read it waits until the halt comes or
/// something is to be had from the descriptor of the source below. It doesn't tell what is left.
#[derive(Drop)]
pub struct HaltingSource<S: Source> {
    source: S,
    descriptor: RawFd,
    halt: Halt,
    is_halted: bool,
}

impl<S: Source> Model for HaltingSource<S> {
    ghost use Rattle.io_halt.specs.View.{HaltingState};

    ghost Value = { HaltingState S };

    ghost view = { λ h. record { source = h.source; descriptor = h.descriptor; halt = h.halt; is_halted = h.is_halted } };
}

impl<S: Source> HaltingSource<S> {
    /// The source, whose bytes come through this descriptor, until the halt comes.
    pub fn new(source: S, descriptor: RawFd, halt: Halt) -> HaltingSource<S>
        ensures { result ≡ record { source = source; descriptor = descriptor; halt = halt; is_halted = false } }
    {
        HaltingSource {
            source,
            descriptor,
            halt,
            is_halted: false,
        }
    }
}

impl<S: Source> Ends for HaltingSource<S> {
    ghost left = { λ _. None };

    ghost taken = { λ h. S.taken h.source };

    ghost source_faults = { λ h. S.source_faults h.source };

    ghost written = { λ h. S.written h.source };

    ghost handed = { λ h. S.handed h.source };

    ghost sink_faults = { λ h. S.sink_faults h.source };
}

impl<S: Source> Source for HaltingSource<S> {
    fn read_some(&mut self, out: &mut [u8]) -> Result<usize, SourceFault>
        requires { 0 < length out.old }

        // Once halted it is at its end for good, and the source below is left as it was.
        ensures halted { IsTrue self.new.is_halted → (result ≡ Ok 0) × (self.new.source ≡ self.old.source) }
        ensures ended { IsTrue self.old.is_halted → IsTrue self.new.is_halted }

        // Else what the source below gives, so no end but its own.
        ensures bytes { IsFalse self.new.is_halted → ReadGives (S.taken self.old.source) (S.taken self.new.source) (S.left self.old.source) (S.left self.new.source) out.new result }
        ensures cause { IsCaused (S.source_faults self.old.source) (S.source_faults self.new.source) result }
        ensures quiet { OnOk result (S.source_faults self.new.source ≡ S.source_faults self.old.source) }
        ensures sink { S.written self.new.source ≡ S.written self.old.source }
        ensures handed { S.handed self.new.source ≡ S.handed self.old.source }
        ensures sink_faults { S.sink_faults self.new.source ≡ S.sink_faults self.old.source }

        // It is halted only by a halt that may come.
        ensures never { self.old.halt ≡ None → self.new.is_halted ≡ self.old.is_halted }
        ensures same { (self.new.descriptor ≡ self.old.descriptor) × (self.new.halt ≡ self.old.halt) }
    {
        self.is_halted = self.is_halted || self.halt.comes_first(self.descriptor);
        if self.is_halted {
            return Ok(0);
        }
        self.source.read_some(out)
    }
}
