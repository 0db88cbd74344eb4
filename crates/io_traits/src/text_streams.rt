// Streams in memory.
ghost use Rattle.std.specs.Prelude.{◌≡◌, ◌≤◌, ◌<◌, ◌↔◌, [], ◌∷◌, ◌++◌, min, length, take, Contains, IfOk, IsErr, OnErr};
ghost use Rattle.io_traits.specs.Streams.{reading_of, writing_of};

use crate::{InputStream, OutputStream, Sink, Source, TextSink, TextSource};
use call_history::History;
use std::io;
use std::io::ErrorKind;
use std::marker::Model;

/// A stream of input in memory, which gives what a source in memory has.
#[derive(Drop)]
pub struct TextInput {
    source: TextSource,
    history: History,
}

impl Model for TextInput {
    ghost use Rattle.io_traits.specs.Streams.{kept_readings};
    ghost use Rattle.io_traits.specs.Memory.{TextInputState};

    ghost Value = { TextInputState };

    ghost view = { λ s. record { source = s.source; reads = kept_readings s.history.notes } };
}

impl TextInput {
    /// The stream of what this source has, of which nothing was read.
    pub fn new(source: TextSource) -> TextInput
        ensures { result ≡ record { source = source; reads = [] } }
    {
        TextInput {
            source,
            history: History::new(),
        }
    }
}

impl InputStream for TextInput {
    ghost reads = { λ s. s.reads };

    fn read_once(&mut self, out: &mut [u8]) -> io::Result<usize>
        requires { 0 < length out.old }
        ensures bound { IfOk result (λ n. n ≤ length out.old) }
        ensures reads { self.new.reads ≡ self.old.reads ++ reading_of (length out.old) result out.new ∷ [] }
        // It fails exactly where the source does, and else gives as many bytes as there are and fit.
        ensures fails { IsErr result ↔ Contains self.old.source.fails self.old.source.calls }
        ensures count { IfOk result (λ n. n ≡ min (length out.old) (length self.old.source.left)) }
        ensures piece { IfOk result (λ n. take n out.new ≡ take n self.old.source.left) }
    {
        let answer = self.source.read_some(out);
        let count = answer.unwrap_or(0);
        self.history.note(
            &[out.len() as u64, u64::from(answer.is_ok())],
            &out[..count],
        );
        answer.map_err(|_| ErrorKind::Other.into())
    }
}

/// A stream of output in memory, which takes what a sink in memory takes.
#[derive(Drop)]
pub struct TextOutput {
    sink: TextSink,
    history: History,
}

impl Model for TextOutput {
    ghost use Rattle.io_traits.specs.Streams.{kept_writings};
    ghost use Rattle.io_traits.specs.Memory.{TextOutputState};

    ghost Value = { TextOutputState };

    ghost view = { λ s. record { sink = s.sink; writes = kept_writings s.history.notes } };
}

impl TextOutput {
    /// The stream to this sink, to which nothing was written.
    pub fn new(sink: TextSink) -> TextOutput
        ensures { result ≡ record { sink = sink; writes = [] } }
    {
        TextOutput {
            sink,
            history: History::new(),
        }
    }
}

impl OutputStream for TextOutput {
    ghost writes = { λ s. s.writes };

    fn write_once(&mut self, bytes: &[u8]) -> io::Result<usize>
        ensures bound { IfOk result (λ n. n ≤ length bytes.now) }
        ensures writes { self.new.writes ≡ self.old.writes ++ writing_of bytes.now result ∷ [] }
        // It fails where the sink does, and else takes all.
        ensures fails { Contains self.old.sink.fails self.old.sink.calls → IsErr result }
        ensures all { IfOk result (λ n. n ≡ length bytes.now) }
    {
        let answer = self.sink.write_some(bytes);
        let count = answer.unwrap_or(0);
        self.history
            .note(&[count as u64, u64::from(answer.is_ok())], bytes);
        answer.map_err(|_| ErrorKind::Other.into())
    }
}
