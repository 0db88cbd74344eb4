// A sink over bytes in memory.
ghost use Rattle.std.specs.Prelude.{◌≡◌, ◌↔◌, ◌⊎◌, [], ◌++◌, length, Some, None, IfOk, OnOk, OnErr, IsErr, Contains, is_ok, if◌then◌else◌};
ghost use Rattle.model_faults.specs.Counts.{one_more};

use crate::{Ends, Sink, SinkFault};
use std::alloc::Global;
use std::marker::Model;

/// A sink in memory: the bytes written, how many of them were handed on by a flush, and the numbers of the calls that are to fail, counted from 0 over all calls.
#[derive(Drop)]
pub struct TextSink {
    bytes: Vec<u8>,
    flushed: usize,
    fails: Vec<u64>,
    calls: u64,
    faults: u64,
    starved: u64,
}

impl Model for TextSink {
    ghost use Rattle.std.specs.Prelude.{◌≤◌, length, take};
    ghost use Rattle.io_traits.specs.Memory.{SinkState};

    ghost Value = { SinkState };

    ghost view = { λ s. record { written = s.bytes.items; handed = take s.flushed s.bytes.items; fails = s.fails.items; calls = s.calls; faults = s.faults; starved = s.starved } };

    ghost invariant = { λ s. s.flushed ≤ length s.bytes.items };
}

impl TextSink {
    /// A sink to which nothing was written, whose calls of these numbers are to fail.
    pub fn new(alloc: Global, fails: Vec<u64>) -> Self
        ensures { result ≡ record { written = []; handed = []; fails = fails.items; calls = 0; faults = 0; starved = 0 } }
    {
        TextSink {
            bytes: Vec::new(alloc),
            flushed: 0,
            fails,
            calls: 0,
            faults: 0,
            starved: 0,
        }
    }

    /// The bytes that were written, in order.
    pub fn written(&self) -> &[u8]
        ensures { result.now ≡ self.now.written }
    {
        &self.bytes
    }

    /// Those of them that were handed on: what was written when a flush went well last.
    pub fn handed(&self) -> &[u8]
        ensures { result.now ≡ self.now.handed }
    {
        &self.bytes[..self.flushed]
    }

    /// How many of its failures were for want of memory.
    pub fn starved(&self) -> u64
        ensures { result ≡ self.now.starved }
    {
        self.starved
    }

    // Counts the call, and fails it where the list names it.
    fn begin(&mut self) -> Result<(), SinkFault>
        ensures fails { IsErr result ↔ Contains self.old.fails self.old.calls }
        ensures faults { self.new.faults ≡ (if is_ok result then self.old.faults else one_more self.old.faults) }
        ensures rest { self.new ≡ record self.old { calls = one_more self.old.calls; faults = self.new.faults } }
    {
        let refused = self.fails.contains(&self.calls);
        self.calls = self.calls.saturating_add(1);
        if refused {
            self.faults = self.faults.saturating_add(1);
            return Err(SinkFault);
        }
        Ok(())
    }
}

impl Ends for TextSink {
    ghost left = { λ _. None };

    ghost taken = { λ _. [] };

    ghost source_faults = { λ _. 0 };

    ghost written = { λ s. Some s.written };

    ghost handed = { λ s. Some s.handed };

    ghost sink_faults = { λ s. s.faults };
}

impl Sink for TextSink {
    fn write_some(&mut self, bytes: &[u8]) -> Result<usize, SinkFault>
        // It fails exactly where its list says so, or where memory was wanting.
        ensures fails { Contains self.old.fails self.old.calls → IsErr result × (self.new.starved ≡ self.old.starved) }
        ensures failed { OnErr result (Contains self.old.fails self.old.calls ⊎ (self.new.starved ≡ one_more self.old.starved)) }
        ensures same { OnErr result (self.new.written ≡ self.old.written) }
        ensures faults { self.new.faults ≡ (if is_ok result then self.old.faults else one_more self.old.faults) }

        // Else it takes all of the bytes.
        ensures all { IfOk result (λ n. n ≡ length bytes.now) }
        ensures written { OnOk result (self.new.written ≡ self.old.written ++ bytes.now) }
        ensures handed { self.new.handed ≡ self.old.handed }
        ensures starved { OnOk result (self.new.starved ≡ self.old.starved) }
        ensures calls { self.new.calls ≡ one_more self.old.calls }
        ensures list { self.new.fails ≡ self.old.fails }
    {
        self.begin()?;
        if self.bytes.extend_from_slice(bytes).is_err() {
            self.faults = self.faults.saturating_add(1);
            self.starved = self.starved.saturating_add(1);
            return Err(SinkFault);
        }
        Ok(bytes.len())
    }

    fn flush(&mut self) -> Result<(), SinkFault>
        ensures fails { IsErr result ↔ Contains self.old.fails self.old.calls }
        ensures faults { self.new.faults ≡ (if is_ok result then self.old.faults else one_more self.old.faults) }
        ensures handed { self.new.handed ≡ (if is_ok result then self.old.written else self.old.handed) }
        ensures rest { self.new ≡ record self.old { handed = self.new.handed; calls = one_more self.old.calls; faults = self.new.faults } }
    {
        self.begin()?;
        self.flushed = self.bytes.len();
        Ok(())
    }
}
