// A sink that counts replies.
ghost use Rattle.std.specs.Prelude.{◌≡◌, ◌++◌, ◌∷◌, [], length, Some, None, IsOk, IfOk};
ghost use Rattle.node_gen.specs.Replies.{first_word, counts_of, CountsLines};

use crate::counts::ReplyCounts;
use arrayvec::ArrayVec;
use http_server::Log;
use io_traits::{Ends, Sink, SinkFault};
use std::marker::Model;

// The bytes that are kept of the open line: one more than the longest word that is counted.
const KEPT: usize = 5;

// What stands in front of the first space.
fn first_word_of(line: &[u8]) -> &[u8]
    ensures { result.now ≡ first_word line.now }
{
    for (at, byte) in line.iter().enumerate() {
        if *byte == b' ' {
            return &line[..at];
        }
    }
    line
}

/// Counts the lines that are written to it by their first words, and keeps no text but the first bytes of the open line.
#[derive(Drop)]
pub struct ReplyCounter {
    written: Log<u8, ()>,
    head: ArrayVec<u8, KEPT>,
    counts: ReplyCounts,
}

impl Model for ReplyCounter {
    ghost use Rattle.io_traits.specs.Memory.{logged_bytes};
    ghost use Rattle.node_gen.specs.Replies.{CounterState};

    ghost Value = { CounterState };

    ghost use Rattle.node_gen.specs.Falling.{IsCounted};

    ghost view = { λ s. record { written = logged_bytes s.written.items; counts = s.counts } };

    ghost invariant = { λ s. IsCounted (logged_bytes s.written.items) s.head.items s.counts };
}

impl ReplyCounter {
    /// A counter to which no line was written. It takes no memory.
    pub fn new() -> Self
        ensures { result ≡ record { written = []; counts = counts_of [] } }
    {
        ReplyCounter {
            written: Log::new(),
            head: ArrayVec::new(),
            counts: ReplyCounts::none_yet(),
        }
    }

    /// The numbers of the lines that were written so far. What stands behind the last LF isn't counted.
    pub fn counts(&self) -> ReplyCounts
        ensures counts { result ≡ self.now.counts }
        ensures lines { CountsLines self.now.written result }
    {
        self.counts
    }

    fn take(&mut self, byte: u8)
        ensures { self.new.written ≡ self.old.written ++ byte ∷ [] }
    {
        self.written = self.written.and(&byte, &());
        if byte == b'\n' {
            self.counts = self.counts.and(first_word_of(self.head.as_slice()));
            self.head.clear();
        } else if !self.head.is_full() {
            self.head.push(byte);
        }
    }
}

impl Ends for ReplyCounter {
    ghost left = { λ _. None };

    ghost taken = { λ _. [] };

    ghost source_faults = { λ _. 0 };

    ghost written = { λ s. Some s.written };

    ghost handed = { λ s. Some s.written };

    ghost sink_faults = { λ _. 0 };
}

impl Sink for ReplyCounter {
    fn write_some(&mut self, bytes: &[u8]) -> Result<usize, SinkFault>
        // It never fails, and takes all of the bytes.
        ensures all { result ≡ Ok (length bytes.now) }
        ensures written { self.new.written ≡ self.old.written ++ bytes.now }
    {
        for byte in bytes {
            self.take(*byte);
        }
        Ok(bytes.len())
    }

    fn flush(&mut self) -> Result<(), SinkFault>
        ensures fine { IsOk result }
        ensures same { self.new ≡ self.old }
    {
        Ok(())
    }
}
