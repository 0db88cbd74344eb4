// How a raid begins.
ghost use Rattle.std.specs.Prelude.{◌≡◌, ◌+◌, ◌==◌, None, Some, IfSome, MatchBool, if◌then◌else◌};
ghost use Rattle.rec_format.specs.Versions.{top_number};
ghost use Rattle.model_device.specs.Book.{Setup};
ghost use Rattle.model_device.specs.Device.{State};
ghost use Rattle.model_device.specs.Events.{begin_call, raid_numbered};
ghost use Rattle.model_device.specs.Passes.{turn_part};
ghost use Rattle.raid_book.specs.Books.{FitsTurn, begun};
ghost use Rattle.raid_book.specs.Turns.{turn_of};
ghost use Rattle.block_shelf.specs.View.{IsSetupOf};
ghost use Rattle.law_steps.specs.Standing.{ShelfStands};
ghost use Rattle.law_steps.specs.Events.{MakesEvent};
ghost use Rattle.shard_raid.specs.Raids.{RaidView, IsNext, begun_raid, number_of, StandOn};

use block_shelf::Shelf;
use disk_model::Disk;
use raid_book::{RaidBook, RaidNext};
use std::marker::Model;

/// A raid that was begun: its number, and its next turn. It can't be copied.
#[derive(Drop)]
pub struct Raid {
    number: u64,
    next: RaidNext,
}

impl Model for Raid {
    ghost use Rattle.shard_raid.specs.Raids.{RaidView};

    ghost Value = { RaidView };

    ghost view = { λ r. record { number = r.number; next = r.next } };
}

impl Raid {
    /// Its number.
    pub fn number(&self) -> u64
        ensures { result ≡ self.now.number }
    {
        self.number
    }

    /// Its next turn.
    pub fn next(&self) -> RaidNext
        ensures { result ≡ self.now.next }
    {
        self.next
    }

    /// The part at which its next turn is, if it is one at a part.
    pub fn part(&self) -> Option<u32>
        ensures { result ≡ turn_part (turn_of self.now.next) }
    {
        match self.next {
            RaidNext::Mark(part) => Some(part),
            RaidNext::Apply(part) => Some(part),
            RaidNext::Drop(part) => Some(part),
            RaidNext::Scan(_) | RaidNext::Finished => None,
        }
    }

    /// Whether it is the raid that runs, and its next turn is the next one.
    pub fn is_next(&self, book: &RaidBook) -> bool
        ensures told { MatchBool result (IsNext self.now book.now) (IsNext self.now book.now → ⊥) }
        ensures fits { FitsTurn book.now.next book.now }
    {
        let next = book.next();
        self.number == book.number() && self.next == next
    }

    /// Goes on to the next turn of the raid that runs.
    pub fn go_on(&mut self, book: &RaidBook)
        ensures next { self.new ≡ record self.old { next = book.now.next } }
        ensures fits { FitsTurn book.now.next book.now }
    {
        self.next = book.next();
    }
}

/// At `Some` a raid has begun, also over a running one, whose marks are void then, and its first turn is that of the first part. Its
/// number is one more than the last; where that was 2^62 none begins, and nothing changes. It stands in memory alone, and no disk is
/// called.
pub fn raid_begin<D: Disk>(shelf: &mut Shelf<D>) -> Option<Raid>
    ensures makes { (setup : Setup) (s : State) → IsSetupOf setup shelf.old → ShelfStands setup shelf.old s
        → MakesEvent D.view setup begin_call (raid_numbered (number_of result)) shelf.old s shelf.new (StandOn setup shelf.new s) }
    ensures raid { result ≡ (if shelf.old.raid.number == top_number then None else Some (begun_raid (shelf.old.raid.number + 1))) }
    ensures next { IfSome result (λ raid. IsNext raid shelf.new.raid) }
    ensures book { shelf.new ≡ (if shelf.old.raid.number == top_number then shelf.old else record shelf.old { raid = begun shelf.old.raid }) }
{
    // No raid's number is above 2^62.
    let _last = shelf.raid().number();
    let number = shelf.begin_raid()?;
    let next = shelf.raid().next();
    Some(Raid { number, next })
}
