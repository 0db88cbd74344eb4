// The standard streams as a source and a sink. What their reads and writes came to is kept for clauses alone. No clause tells what the
// system's input holds, or what becomes of its output.
ghost use Rattle.std.specs.Prelude.{◌≡◌, ◌<◌, [], ◌++◌, ◌∷◌, length, None, Some, IsOk, is_ok, if◌then◌else◌};
ghost use Rattle.model_faults.specs.Counts.{one_more};
ghost use Rattle.io_traits.specs.Source.{ReadGives};
ghost use Rattle.io_traits.specs.Sink.{WriteGives};
ghost use Rattle.io_traits.specs.Streams.{bytes_given, bytes_taken, reading_of, IsOneWrite};

use crate::{Ends, InputStream, OutputStream, Sink, SinkFault, Source, SourceFault};
use std::marker::Model;

/// A stream of input as a source: the bytes taken are those that its reads gave. It doesn't tell what is left.
#[derive(Drop)]
pub struct StandardInput<S: InputStream> {
    stream: S,
    faults: u64,
}

impl<S: InputStream> Model for StandardInput<S> {
    ghost use Rattle.io_traits.specs.Memory.{InputState};

    ghost Value = { InputState };

    ghost view = { λ s. record { reads = S.reads s.stream; faults = s.faults } };
}

impl<S: InputStream> StandardInput<S> {
    /// The source over a stream of input.
    pub fn new(stream: S) -> Self
        ensures { result ≡ record { reads = S.reads stream; faults = 0 } }
    {
        StandardInput { stream, faults: 0 }
    }
}

impl<S: InputStream> Ends for StandardInput<S> {
    ghost left = { λ _. None };

    ghost taken = { λ s. bytes_given s.reads };

    ghost source_faults = { λ s. s.faults };

    ghost written = { λ _. None };

    ghost handed = { λ _. None };

    ghost sink_faults = { λ _. 0 };
}

impl<S: InputStream> Source for StandardInput<S> {
    fn read_some(&mut self, out: &mut [u8]) -> Result<usize, SourceFault>
        requires { 0 < length out.old }

        // It makes one read of the stream, and tells what came of it: an end where it gave no byte, and a fault where it failed.
        ensures one { self.new.reads ≡ self.old.reads ++ reading_of (length out.old) result out.new ∷ [] }
        ensures faults { self.new.faults ≡ (if is_ok result then self.old.faults else one_more self.old.faults) }
        ensures bytes { ReadGives (bytes_given self.old.reads) (bytes_given self.new.reads) None None out.new result }
    {
        let Ok(count) = self.stream.read_once(out) else {
            self.faults = self.faults.saturating_add(1);
            return Err(SourceFault);
        };
        Ok(count)
    }
}

/// A stream of output as a sink: the bytes written are those that its writes took. It keeps nothing back, so these are handed on.
#[derive(Drop)]
pub struct StandardOutput<S: OutputStream> {
    stream: S,
    faults: u64,
}

impl<S: OutputStream> Model for StandardOutput<S> {
    ghost use Rattle.io_traits.specs.Memory.{OutputState};

    ghost Value = { OutputState };

    ghost view = { λ s. record { writes = S.writes s.stream; faults = s.faults } };
}

impl<S: OutputStream> StandardOutput<S> {
    /// The sink over a stream of output.
    pub fn new(stream: S) -> Self
        ensures { result ≡ record { writes = S.writes stream; faults = 0 } }
    {
        StandardOutput { stream, faults: 0 }
    }
}

impl<S: OutputStream> Ends for StandardOutput<S> {
    ghost left = { λ _. None };

    ghost taken = { λ _. [] };

    ghost source_faults = { λ _. 0 };

    ghost written = { λ s. Some (bytes_taken s.writes) };

    ghost handed = { λ s. Some (bytes_taken s.writes) };

    ghost sink_faults = { λ s. s.faults };
}

impl<S: OutputStream> Sink for StandardOutput<S> {
    fn write_some(&mut self, bytes: &[u8]) -> Result<usize, SinkFault>
        // It makes one write of the stream, and tells what came of it; one that takes none of some bytes is a fault too.
        ensures one { IsOneWrite bytes.now result self.old.writes self.new.writes }
        ensures faults { self.new.faults ≡ (if is_ok result then self.old.faults else one_more self.old.faults) }
        ensures bytes { WriteGives (Some (bytes_taken self.old.writes)) (Some (bytes_taken self.new.writes)) self.old.faults self.new.faults bytes.now result }
    {
        match self.stream.write_once(bytes) {
            Ok(count) if count > 0 || bytes.is_empty() => Ok(count),
            _ => {
                self.faults = self.faults.saturating_add(1);
                Err(SinkFault)
            }
        }
    }

    fn flush(&mut self) -> Result<(), SinkFault>
        // There is nothing to be handed on, so no call is made.
        ensures ok { IsOk result }
        ensures same { self.new ≡ self.old }
    {
        Ok(())
    }
}
