// What was written since the last sync, and what a failed sync may have lost.
ghost use Rattle.std.specs.Prelude.{◌≡◌, ◌↔◌, ◌++◌, ◌∷◌, [], IsTrue};
ghost use Rattle.disk_file.specs.Spans.{whole, kept_in, is_covered, left_by, after_write, after_sync};
ghost use Rattle.disk_file.specs.Bytes.{Bytes, Minds, bytes_after_write, bytes_after_sync};

use arrayvec::ArrayVec;
use std::marker::Model;

/// How many spans are told apart.
const ROOM: usize = 16;

/// The bytes of a disk from `start` up to `end`.
#[derive(Clone, Copy, Default)]
pub struct Span {
    pub start: u64,
    pub end: u64,
}

impl Span {
    /// Whether all bytes of another span lie in this one.
    fn covers(self, other: Span) -> bool
        ensures { result ≡ is_covered self other }
    {
        self.start <= other.start && other.end <= self.end
    }
}

/// At most so many spans as are told apart.
#[derive(Drop)]
struct Spans {
    items: ArrayVec<Span, ROOM>,
}

impl Model for Spans {
    ghost use Rattle.std.specs.Prelude.{List};
    ghost use Rattle.disk_file.specs.declared.unsynced.Span.{Span};

    ghost Value = { List Span };

    ghost view = { λ s. s.items.items };
}

impl Spans {
    /// No span.
    fn new() -> Spans
        ensures { result ≡ [] }
    {
        Spans {
            items: ArrayVec::new(),
        }
    }

    // The whole disk of `len` bytes is the one span.
    fn become_whole(&mut self, len: u64)
        ensures { self.new ≡ whole len ∷ [] }
    {
        self.items.clear();
        self.items.push(Span { start: 0, end: len });
    }

    /// Adds a span. Where there is no room for it, the whole disk of `len` bytes is the one span.
    fn add(&mut self, len: u64, span: Span)
        ensures { self.new ≡ kept_in len (self.old ++ span ∷ []) }
    {
        if self.items.is_full() {
            self.become_whole(len);
            return;
        }
        self.items.push(span);
    }

    /// Adds the spans of another list, which is empty then. Where there is no room for all, the whole disk of `len` bytes is the one span.
    fn take_in(&mut self, len: u64, other: &mut Spans)
        ensures all { self.new ≡ kept_in len (self.old ++ other.old) }
        ensures none { other.new ≡ [] }
    {
        let fits = self.items.try_extend_from_slice(other.items.as_slice());
        if fits.is_err() {
            self.become_whole(len);
        }
        other.items.clear();
    }

    /// Takes those spans out that this one covers whole.
    fn drop_covered(&mut self, by: Span)
        ensures { self.new ≡ left_by by self.old }
    {
        self.items.retain(|span| !by.covers(*span));
    }
}

/// The spans of a disk of `len` bytes that were written since the last sync, and those that are lost: a sync failed behind their
/// write, and nothing was written over the whole of them since.
#[derive(Drop)]
pub struct Unsynced {
    len: u64,
    written: Spans,
    lost: Spans,
}

impl Model for Unsynced {
    ghost use Rattle.disk_file.specs.Spans.{Waiting};

    ghost Value = { Waiting };

    ghost view = { λ u. record { len = u.len; written = u.written; lost = u.lost } };
}

impl Unsynced {
    /// A disk of `len` bytes of which nothing waits for a sync.
    pub fn new(len: u64) -> Unsynced
        ensures { result ≡ record { len = len; written = []; lost = [] } }
    {
        Unsynced {
            len,
            written: Spans::new(),
            lost: Spans::new(),
        }
    }

    /// The length of the disk in bytes.
    pub fn len(&self) -> u64
        ensures { result ≡ self.now.len }
    {
        self.len
    }

    /// Whether nothing is lost.
    pub fn is_sound(&self) -> bool
        ensures { IsTrue result ↔ (self.now.lost ≡ []) }
    {
        self.lost.items.is_empty()
    }

    /// Keeps in mind a write over a span, and whether it went well.
    pub fn note_write(&mut self, span: Span, landed: bool)
        ensures exact { self.new ≡ after_write span landed self.old }
        ensures bytes { (a : Bytes) → Minds a self.old → Minds (bytes_after_write span landed a) self.new }
    {
        self.written.add(self.len, span);
        if landed {
            self.lost.drop_covered(span);
        }
    }

    /// Keeps in mind a sync, and whether it went well.
    pub fn note_sync(&mut self, went_well: bool)
        ensures exact { self.new ≡ after_sync went_well self.old }
        ensures bytes { (a : Bytes) → Minds a self.old → Minds (bytes_after_sync went_well a) self.new }
    {
        if went_well {
            self.written = Spans::new();
            return;
        }
        self.lost.take_in(self.len, &mut self.written);
    }
}
