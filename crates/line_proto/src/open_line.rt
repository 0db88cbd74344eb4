// The line that no LF has ended yet.
ghost use Rattle.std.specs.Prelude.{◌≡◌, ◌+◌, ◌≤◌, ◌++◌, ◌↔◌, [], List, ℕ, length, option_map, IsTrue, OnErr, OnOk};
ghost use Rattle.line_proto.specs.Lines.{line_limit};
ghost use Rattle.line_proto.specs.Stream.{kept_of, joined, lent, line_end, as_end};

use crate::NoMemory;
use crate::read::LINE_LIMIT;
use std::alloc::Global;
use std::marker::Model;

// How much room is kept for later lines.
const KEPT_ROOM: usize = 262_144;

/// The bytes of a line whose end is still to come, and of one that is too long no more of them than show that.
#[derive(Drop)]
pub struct OpenLine {
    bytes: Vec<u8>,
}

impl Model for OpenLine {
    ghost use Rattle.std.specs.Prelude.{List, ℕ};

    ghost Value = { List ℕ };

    ghost view = { λ l. l.bytes.items };
}

impl OpenLine {
    /// A line of no bytes. It takes no memory.
    pub fn new(alloc: Global) -> Self
        ensures { result ≡ [] }
    {
        OpenLine {
            bytes: Vec::new(alloc),
        }
    }

    /// Whether no bytes have come.
    pub fn is_empty(&self) -> bool
        ensures { IsTrue result ↔ (self.now ≡ []) }
    {
        self.bytes.is_empty()
    }

    /// At `Ok` the line has gone on with these bytes, which have no LF. An `Err` is want of memory, and changes
    /// nothing.
    pub fn go_on(&mut self, bytes: &[u8]) -> Result<(), NoMemory>
        requires { length self.old ≤ line_limit + 1 }
        ensures ok { OnOk result (self.new ≡ kept_of (self.old ++ bytes.now)) }
        ensures stream { OnOk result ((line : List ℕ) → self.old ≡ kept_of line → self.new ≡ kept_of (line ++ bytes.now)) }
        ensures err { OnErr result (self.new ≡ self.old) }
    {
        let room = LINE_LIMIT + 1 - self.bytes.len();
        self.bytes
            .extend_from_slice(&bytes[..room.min(bytes.len())])
    }

    /// At `Ok` the line has gone on with its last bytes, if it had begun: one that is these bytes alone isn't copied. An
    /// `Err` is want of memory, and changes nothing.
    pub fn join(&mut self, last: &[u8]) -> Result<(), NoMemory>
        requires { length self.old ≤ line_limit + 1 }
        ensures ok { OnOk result (self.new ≡ joined self.old last.now) }
        ensures err { OnErr result (self.new ≡ self.old) }
    {
        if self.bytes.is_empty() {
            return Ok(());
        }
        self.go_on(last)
    }

    // What has come of the line, which is its last bytes where nothing is kept.
    fn so_far<'a>(&'a self, last: &'a [u8]) -> &'a [u8]
        ensures { result.now ≡ lent self.now last.now }
    {
        if self.bytes.is_empty() {
            last
        } else {
            self.bytes.as_slice()
        }
    }

    /// Lends the line whose last bytes these are, once they are joined to it. None is a line that is too long.
    pub fn lend<'a>(&'a self, last: &'a [u8]) -> Option<&'a [u8]>
        ensures end { as_end (option_map (λ line. line.now) result) ≡ line_end (lent self.now last.now) }
        ensures stream { (line : List ℕ) → self.now ≡ joined (kept_of line) last.now → as_end (option_map (λ line. line.now) result) ≡ line_end (line ++ last.now) }
    {
        let line = self.so_far(last);
        if line.len() > LINE_LIMIT {
            return None;
        }
        Some(line)
    }

    /// The next line has no bytes yet. The room stays, where it isn't more than is kept.
    pub fn clear(&mut self)
        ensures { self.new ≡ [] }
    {
        self.bytes.clear();
        if self.bytes.capacity() > KEPT_ROOM {
            self.bytes.shrink_to_fit();
        }
    }
}
