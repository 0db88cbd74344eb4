// The bytes after the last LF.
ghost use Rattle.std.specs.Prelude.{◌≡◌, [], OnErr, OnOk};
ghost use Rattle.line_proto.specs.Stream.{nothing_kept, with_bytes, open_end};

use crate::NoMemory;
use crate::line_end::LineEnd;
use crate::read::LINE_LIMIT;
use rec_format::Bytes;
use std::alloc::Global;
use std::marker::Model;
use std::mem;

/// How many they are, and which, unless they are too many for a line.
#[derive(Drop)]
pub struct Tail {
    alloc: Global,
    bytes: Vec<u8>,
    size: u64,
}

impl Model for Tail {
    ghost use Rattle.std.specs.Prelude.{[]};
    ghost use Rattle.line_proto.specs.Stream.{Kept};

    ghost Value = { Kept };

    ghost view = { λ l. record { ready = []; partial = l.bytes.items; size = l.size } };
}

impl Tail {
    /// An open line of no bytes.
    pub fn new(alloc: Global) -> Self
        ensures { result ≡ nothing_kept }
    {
        Tail {
            alloc,
            bytes: Vec::new(alloc),
            size: 0,
        }
    }

    /// How many bytes have come, also where they are too many for a line.
    pub fn size(&self) -> u64
        ensures { result ≡ self.now.size }
    {
        self.size
    }

    /// At `Ok` the line has gone on with these bytes, which have no LF. An `Err` is want of memory, and changes
    /// nothing.
    pub fn go_on(&mut self, bytes: &[u8]) -> Result<(), NoMemory>
        ensures ok { OnOk result (self.new ≡ with_bytes self.old bytes.now) }
        ensures err { OnErr result (self.new ≡ self.old) }
    {
        let size = self.size.saturating_add(bytes.len() as u64);
        if size <= LINE_LIMIT as u64 {
            self.bytes.extend_from_slice(bytes)?;
        }
        self.size = size;
        Ok(())
    }

    /// Hands on the line, which an LF ends, or tells that it was too long. The next line has no bytes then.
    pub fn end(&mut self) -> LineEnd
        ensures end { result ≡ open_end self.old }
        ensures rest { self.new ≡ nothing_kept }
    {
        let bytes = mem::replace(&mut self.bytes, Vec::new(self.alloc));
        let size = mem::replace(&mut self.size, 0);
        if size <= LINE_LIMIT as u64 {
            LineEnd::Whole(Bytes::from_vec(bytes))
        } else {
            LineEnd::TooLong
        }
    }
}
