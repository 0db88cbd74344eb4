// How a buffer is sealed where few blocks are free, so that its flush frees those that it holds.
ghost use Rattle.std.specs.Prelude.{◌≡◌, ◌*◌, Contains, MatchBool, nat_lt};
ghost use Rattle.model_device.specs.Book.{Setup};
ghost use Rattle.model_device.specs.Device.{State};
ghost use Rattle.model_device.specs.Legal.{seal_low};
ghost use Rattle.model_device.specs.Vacating.{can_gain};
ghost use Rattle.write_buffer.specs.Buffers.{BufferState};
ghost use Rattle.block_shelf.specs.View.{IsShelf, SameShape, IsSetupOf};
ghost use Rattle.block_shelf.specs.Standing.{StandsFor, BooksStand};
ghost use Rattle.block_shelf.specs.Calls.{Goes};
ghost use Rattle.block_shelf.specs.Changes.{sealed_buffer};
ghost use Rattle.block_shelf.specs.Low.{HoldsDead, FillsOverDead, IsShort, HasGathered, IsLow, SealsLow, gains};

use crate::Shelf;
use block_format::capacity;
use disk_model::Disk;
use write_buffer::Stream;

// At most so many free blocks are few.
const FEW_FREE: usize = 6;

// Where more are free, a lone block is vacated too: what its records take leaves more than few.
const FREE_FOR_ONE: usize = FEW_FREE + 1;

impl<D: Disk> Shelf<D> {
    /// Where at most 6 blocks are free, the buffer of each stream is sealed that is being filled and holds a block in which nothing is
    /// live; no disk is called. Each block that it holds counts, also one that a buffer has. The buffer of moved records is sealed only
    /// when nothing more can come to it: nothing is queued, or no block is free and it has less room than the low-water mark's share of a
    /// block.
    pub fn seal_low(&mut self)
        ensures sealed { (setup : Setup) (s : State) → IsSetupOf setup self.old → StandsFor setup self.old s → BooksStand setup self.old s → Goes D.view setup (seal_low setup s.book) self.old s self.new }
        ensures low { (b : BufferState) → Contains self.old.buffers b → IsLow b.stream self.old → Contains self.new.buffers (sealed_buffer b) }
        ensures enough { (b : BufferState) → Contains self.old.buffers b → (IsLow b.stream self.old → ⊥) → Contains self.new.buffers b }
        ensures rest { self.new ≡ record self.old { buffers = self.new.buffers } }
        ensures whole { IsShelf D.view self.old }
        ensures disk { self.new.disk ≡ self.old.disk }
        ensures shape { SameShape self.old self.new }
    {
        self.seal_where_low(Stream::Client);
        self.seal_where_low(Stream::Defrag);
    }

    /// Whether a block is to be vacated, if one is queued: more than 7 are free, or a buffer of moved records is being filled, or more than
    /// one is queued. Else what it frees its records take again.
    pub fn can_gain(&self) -> bool
        ensures seen { result ≡ gains self.now }
        ensures state { (setup : Setup) (s : State) → StandsFor setup self.now s → BooksStand setup self.now s → result ≡ can_gain s.book }
    {
        match self.filling_at(Stream::Defrag) {
            Some(_) => true,
            None => self.free.len() > FREE_FOR_ONE || self.queue.len() > 1,
        }
    }
}

impl<D: Disk> Shelf<D> {
    // The same of one stream.
    fn seal_where_low(&mut self, stream: Stream)
        ensures sealed { SealsLow stream self.old self.new }
        ensures whole { IsShelf D.view self.old }
    {
        if self.is_low(stream) {
            self.seal_stream(stream);
        }
    }

    // Whether at most 6 blocks are free, and the buffer that takes the records of a stream holds a block in which nothing is live and has
    // gathered what can come.
    fn is_low(&self, stream: Stream) -> bool
        ensures is { MatchBool result (IsLow stream self.now) (IsLow stream self.now → ⊥) }
        ensures whole { IsShelf D.view self.now }
    {
        self.free.len() <= FEW_FREE && self.fills_over_dead(stream) && self.has_gathered(stream)
    }

    // Whether nothing more can come to the buffer of a stream; one of clients doesn't wait for more.
    fn has_gathered(&self, stream: Stream) -> bool
        ensures { MatchBool result (HasGathered stream self.now) (HasGathered stream self.now → ⊥) }
    {
        match stream {
            Stream::Client => true,
            Stream::Defrag => self.queue.len() == 0 || (self.free.is_empty() && self.is_short()),
        }
    }

    // Whether a block below the low-water mark may not fit into the buffer that takes moved records.
    fn is_short(&self) -> bool
        ensures { MatchBool result (IsShort self.now) (IsShort self.now → ⊥) }
    {
        match self.filling_at(Stream::Defrag) {
            Some(at) => {
                let room = self.buffers[at].room();
                is_below_share(room, self.limits.lwm, capacity(self.geometry.block_size))
            }
            None => false,
        }
    }

    // Whether the buffer that takes the records of a stream, if there is one, holds such a block.
    fn fills_over_dead(&self, stream: Stream) -> bool
        ensures { MatchBool result (FillsOverDead stream self.now) (FillsOverDead stream self.now → ⊥) }
    {
        match self.filling_at(stream) {
            Some(at) => self.holds_dead(self.buffers[at].number()),
            None => false,
        }
    }

    // Whether the buffer of this number does.
    fn holds_dead(&self, number: u64) -> bool
        ensures { MatchBool result (HoldsDead self.now number) (HoldsDead self.now number → ⊥) }
    {
        let mut from = 0;
        while let Some(block) = self.holds.first_from(number, from) {
            if self.ledger.used(block) == 0 {
                return true;
            }
            from = block + 1;
        }
        false
    }
}

// Whether so many units are less than this percentage of a block.
fn is_below_share(units: u32, percent: u32, capacity: u32) -> bool
    ensures { result ≡ nat_lt (units * 100) (percent * capacity) }
{
    (units as u64 * 100) < percent as u64 * capacity as u64
}
