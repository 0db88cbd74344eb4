ghost use Rattle.std.specs.Prelude.{◌≡◌, ◌<◌, ◌≤◌, List, ℕ, length, Option, OnOk, IfOk};
ghost use Rattle.model_faults.specs.Counts.{IsCaused};
ghost use Rattle.io_traits.specs.Source.{ReadGives};
ghost use Rattle.io_traits.specs.Sink.{WriteGives, MayHandOn, FlushGives};
ghost use Rattle.io_traits.specs.Clock.{Ticks};

use crate::NoMemory;
use std::alloc::Global;

/// A read failed.
#[derive(Clone, Copy, Debug, PartialEq, Eq)]
pub struct SourceFault;

/// A write failed.
#[derive(Clone, Copy, Debug, PartialEq, Eq)]
pub struct SinkFault;

/// What an object at the end of a link means. A source alone leaves the sink's half as it is here, and a sink the source's.
pub trait Ends: Drop {
    /// The bytes that a source has left, where it tells them.
    ghost left: { Self → Option (List ℕ) };

    /// The bytes that were taken from a source.
    ghost taken: { Self → List ℕ };

    /// How often a source failed.
    ghost source_faults: { Self → ℕ };

    /// The bytes that a sink took, where it tells them.
    ghost written: { Self → Option (List ℕ) };

    /// Of the bytes that a sink took those that it handed on, where it tells them.
    ghost handed: { Self → Option (List ℕ) };

    /// How often a sink failed.
    ghost sink_faults: { Self → ℕ };
}

/// What bytes are taken from, in order.
pub trait Source: Ends {
    /// At `Ok` how many bytes were taken into the front of `out`; 0 is the end of the input. An `Err` took none, and
    /// comes only where the count of faults rose.
    fn read_some(&mut self, out: &mut [u8]) -> Result<usize, SourceFault>
        requires { 0 < length out.old }
        ensures bytes { ReadGives (Self.taken self.old) (Self.taken self.new) (Self.left self.old) (Self.left self.new) out.new result }
        ensures cause { IsCaused (Self.source_faults self.old) (Self.source_faults self.new) result }
        ensures quiet { OnOk result (Self.source_faults self.new ≡ Self.source_faults self.old) }
        ensures sink { Self.written self.new ≡ Self.written self.old }
        ensures handed { Self.handed self.new ≡ Self.handed self.old }
        ensures sink_faults { Self.sink_faults self.new ≡ Self.sink_faults self.old };
}

/// What bytes are written to, in order.
pub trait Sink: Ends {
    /// At `Ok` how many of the bytes were written, from the front on. A sink that keeps nothing back hands them on at once.
    fn write_some(&mut self, bytes: &[u8]) -> Result<usize, SinkFault>
        ensures bytes { WriteGives (Self.written self.old) (Self.written self.new) (Self.sink_faults self.old) (Self.sink_faults self.new) bytes.now result }
        ensures handed { MayHandOn (Self.written self.new) (Self.handed self.old) (Self.handed self.new) }
        ensures cause { IsCaused (Self.sink_faults self.old) (Self.sink_faults self.new) result }
        ensures left { Self.left self.new ≡ Self.left self.old }
        ensures taken { Self.taken self.new ≡ Self.taken self.old }
        ensures source_faults { Self.source_faults self.new ≡ Self.source_faults self.old };

    /// At `Ok` all that was written is handed on. An `Err` hands nothing on, and comes only where the count of faults rose.
    fn flush(&mut self) -> Result<(), SinkFault>
        ensures written { Self.written self.new ≡ Self.written self.old }
        ensures handed { FlushGives (Self.written self.new) (Self.handed self.old) (Self.handed self.new) result }
        ensures cause { IsCaused (Self.sink_faults self.old) (Self.sink_faults self.new) result }
        ensures left { Self.left self.new ≡ Self.left self.old }
        ensures taken { Self.taken self.new ≡ Self.taken self.old }
        ensures source_faults { Self.source_faults self.new ≡ Self.source_faults self.old };
}

/// What tells the time.
pub trait Clock: Drop {
    /// The times that it gives next, where it tells them. The last is repeated.
    ghost times: { Self → Option (List ℕ) };

    /// The time now, in milliseconds.
    fn now_ms(&mut self) -> u64
        ensures { Ticks (times self.old) result (times self.new) };

    /// At `Ok` a clock that gives the same times. An `Err` is want of memory.
    fn fork(&self, alloc: Global) -> Result<Self, NoMemory>
    where
        Self: Sized,
        ensures { IfOk result (λ clock. times clock ≡ times self.now) };
}
