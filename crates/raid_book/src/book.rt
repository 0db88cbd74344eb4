// The book of a raid.
ghost use Rattle.std.specs.Prelude.{◌≡◌, ◌≢◌, ◌<◌, ◌+◌, ◌↔◌, ◌++◌, ◌==◌, [], ℕ, length, Ok, Some, None, IsTrue, IsNone, OnOk, OnErr, OnSome, if◌then◌else◌};
ghost use Rattle.std.specs.Option.{option_to_list};
ghost use Rattle.std.specs.List.{All};
ghost use Rattle.model_device.specs.Book.{Setup};
ghost use Rattle.model_device.specs.Device.{State, RaidState, no_raid};
ghost use Rattle.model_device.specs.Passes.{turn_part};
ghost use Rattle.model_device.specs.Steps.{part_total, after_step, raid_begun, raid_given_up, scanned_block, marked_part, compared_part, done_part};
ghost use Rattle.rec_format.specs.Versions.{top_number};
ghost use Rattle.raid_book.specs.Found.{copies_for, with_parts};
ghost use Rattle.raid_book.specs.Turns.{turn_of};
ghost use Rattle.raid_book.specs.Books.{empty_book, begun, given_up, with_scan, after_turn, FitsTurn, IsBook};
ghost use Rattle.raid_book.specs.Raids.{RaidStands, RaidStandsBut, found_copies, found_parts};

use crate::NoMemory;
use crate::found::{FoundCopy, by_part, drop_first, first_of, take_copy};
use crate::turn::{RaidNext, after_drop, after_mark, turn_with};
use block_format::Found;
use rec_format::{Digest, Stamp};
use std::alloc::Global;
use std::marker::Model;

// The greatest number of a raid.
const TOP_NUMBER: u64 = 1 << 62;

/// The raid of a device, but for the marks, which stand in the entries.
#[derive(Drop)]
pub struct RaidBook {
    number: u64,
    next: RaidNext,
    scanned: u32,
    // A row whose parts fall.
    found: Vec<FoundCopy>,
    parts: u32,
    blocks: u32,
}

impl Model for RaidBook {
    ghost use Rattle.raid_book.specs.Books.{BookState};

    ghost Value = { BookState };

    ghost use Rattle.raid_book.specs.Fields.{book_of, HasBook};

    ghost view = { book_of };

    ghost invariant = { HasBook };
}

impl RaidBook {
    /// The book of a device of so many parts and blocks, without a raid. It takes no memory.
    pub fn new(alloc: Global, parts: u32, blocks: u32) -> Result<RaidBook, NoMemory>
        ensures value { result ≡ Ok (empty_book parts blocks) }
        ensures raid { (setup : Setup) → part_total setup ≡ parts → setup.blocks ≡ blocks → RaidStands setup (empty_book parts blocks) no_raid }
    {
        Ok(RaidBook {
            number: 0,
            next: RaidNext::Finished,
            scanned: 0,
            found: Vec::new(alloc),
            parts,
            blocks,
        })
    }

    /// Answers the number of a raid that begins, also over a running one: one more than the last.
    /// Where that was 2^62 it answers none and changes nothing. A constant time.
    #[tactic(auto, unfolding(model_device::specs::Steps::after_step))]
    pub fn begin(&mut self) -> Option<u64>
        ensures answer { result ≡ (if self.old.number == top_number then None else Some (self.old.number + 1)) }
        ensures book { self.new ≡ (if self.old.number == top_number then self.old else begun self.old) }
        ensures raid { (setup : Setup) (s : State) → RaidStands setup self.old s.raid → OnSome result (RaidStands setup self.new (after_step setup raid_begun s).raid) }
    {
        if self.number == TOP_NUMBER {
            return None;
        }
        self.number += 1;
        self.next = RaidNext::Mark(0);
        self.scanned = 0;
        self.found.clear();
        Some(self.number)
    }

    /// No raid runs then. The number rises by one, up to 2^62, also where none ran. A constant time.
    #[tactic(auto, unfolding(model_device::specs::Steps::after_step))]
    pub fn give_up(&mut self)
        ensures book { self.new ≡ given_up self.old }
        ensures raid { (setup : Setup) (s : State) → RaidStands setup self.old s.raid → RaidStands setup self.new (after_step setup raid_given_up s).raid }
    {
        if self.number < TOP_NUMBER {
            self.number += 1;
        }
        self.next = RaidNext::Finished;
        self.scanned = 0;
        self.found.clear();
    }

    /// The next turn. A constant time.
    pub fn next(&self) -> RaidNext
        ensures value { result ≡ self.now.next }
        ensures fits { FitsTurn result self.now }
    {
        self.next
    }

    /// The number of the raid. A constant time.
    pub fn number(&self) -> u64
        ensures value { result ≡ self.now.number }
        ensures book { IsBook self.now }
    {
        self.number
    }

    /// At `Ok` what was read in a block is in the book, each record with the part of its digest, and
    /// the next turn is that of the first part that has some of it, or else the one behind the scan.
    /// An `Err` is want of memory, and leaves everything as it was. A time of `n * log(n)` for `n`
    /// records, whatever the number of parts.
    pub fn scanned(
        &mut self,
        alloc: Global,
        block: u32,
        found: &[Found],
        parts: &[u32],
    ) -> Result<(), NoMemory>
        requires turn { self.old.next ≡ RaidNext.Scan block }
        requires each { length parts.now ≡ length found.now }
        requires below { All (λ p. p < self.old.parts) parts.now }
        ensures book { OnOk result (self.new ≡ with_scan self.new.found self.old) }
        ensures found { OnOk result ((part : ℕ) → copies_for part self.new.found ≡ copies_for part (with_parts found.now parts.now)) }
        ensures err { OnErr result (self.new ≡ self.old) }
        ensures raid { (setup : Setup) (s : State) → RaidStands setup self.old s.raid → parts.now ≡ found_parts setup found.now
            → OnOk result (RaidStands setup self.new (after_step setup (scanned_block (found_copies found.now)) s).raid) }
    {
        self.found = by_part(alloc, found, parts)?;
        self.scanned = block + 1;
        self.next = turn_with(first_of(&self.found), self.scanned, self.blocks);
        Ok(())
    }

    /// Takes out a found copy of a part, the last one first; none exactly where the part has none.
    /// A time of `log(n)` for `n` found copies, whatever the number of parts; outside the turn of the
    /// part it also moves the copies of lesser parts.
    pub fn found_for(&mut self, part: u32) -> Option<(Digest, Stamp)>
        ensures none { IsNone result ↔ (copies_for part self.old.found ≡ []) }
        ensures taken { copies_for part self.old.found ≡ copies_for part self.new.found ++ option_to_list result }
        ensures others { (other : ℕ) → other ≢ part → copies_for other self.new.found ≡ copies_for other self.old.found }
        ensures rest { self.new ≡ record self.old { found = self.new.found } }
        ensures unchanged { IsNone result → self.new ≡ self.old }
        ensures raid { (setup : Setup) (raid : RaidState) → RaidStandsBut part setup self.old raid → RaidStandsBut part setup self.new raid }
    {
        let copy = take_copy(&mut self.found, part)?;
        Some((copy.digest, copy.stamp))
    }

    /// The turn of this part is done then, and the next one is the next. After a comparison the part
    /// has no found copies. A time of `log(n)` for `n` found copies, whatever the number of parts.
    pub fn done_part(&mut self, part: u32)
        requires { turn_part (turn_of self.old.next) ≡ Some part }
        ensures book { self.new ≡ after_turn self.old.next part self.old }
        ensures marked { (setup : Setup) (s : State) (now : ℕ) → self.old.next ≡ RaidNext.Mark part → RaidStands setup self.old s.raid
            → RaidStands setup self.new (after_step setup (marked_part part now) s).raid }
        ensures compared { (setup : Setup) (s : State) → self.old.next ≡ RaidNext.Apply part → RaidStandsBut part setup self.old s.raid
            → RaidStands setup self.new (after_step setup (compared_part part) s).raid }
        ensures ended { (setup : Setup) (s : State) → self.old.next ≡ RaidNext.Drop part → RaidStands setup self.old s.raid
            → RaidStands setup self.new (after_step setup (done_part part) s).raid }
    {
        match self.next {
            RaidNext::Mark(_) => self.next = after_mark(part, self.parts),
            RaidNext::Drop(_) => self.next = after_drop(part, self.parts),
            RaidNext::Apply(_) => {
                drop_first(&mut self.found, part);
                self.next = turn_with(first_of(&self.found), self.scanned, self.blocks);
            }
            RaidNext::Scan(_) | RaidNext::Finished => unreachable!(),
        }
    }

    /// Whether no raid runs: the next turn is Finished. A constant time.
    pub fn finished(&self) -> bool
        ensures { IsTrue result ↔ (self.now.next ≡ RaidNext.Finished) }
    {
        self.next == RaidNext::Finished
    }
}
