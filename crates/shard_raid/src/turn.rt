// How a raid takes its turns: those at a part over its sprig and the shelf, and the others over the shelf alone.
ghost use Rattle.std.specs.Prelude.{◌≡◌, ℕ, Ok, Err, None, Some, IfErr, IfOk, OnOk, OnErr};
ghost use Rattle.disk_model.specs.Disk.{IsHonest};
ghost use Rattle.model_device.specs.Book.{Setup};
ghost use Rattle.model_device.specs.Device.{State};
ghost use Rattle.model_device.specs.Passes.{turn_part};
ghost use Rattle.raid_book.specs.Books.{FitsTurn};
ghost use Rattle.raid_book.specs.Turns.{turn_of};
ghost use Rattle.block_shelf.specs.Disks.{IsLater};
ghost use Rattle.block_shelf.specs.Scans.{possible_copies};
ghost use Rattle.block_shelf.specs.Standing.{ImagesHold};
ghost use Rattle.block_shelf.specs.Sure.{StaysSure};
ghost use Rattle.block_shelf.specs.View.{IsSetupOf};
ghost use Rattle.law_steps.specs.Standing.{ShelfStands, StandTogether};
ghost use Rattle.shard_raid.specs.Ends.{SparesOlder};
ghost use Rattle.shard_raid.specs.Raids.{IsNext, StandOn};
ghost use Rattle.shard_raid.specs.Turns.{CountsEnds, TakesTurn, TurnLeaves, TurnMakes};

use crate::{Raid, RaidRefusal, raid_apply, raid_end, raid_mark, raid_scan};
use arena_sprig::Sprig;
use block_shelf::Shelf;
use disk_model::Disk;
use raid_book::{RaidBook, RaidNext};
use std::alloc::Global;

/// What a turn of a raid did.
#[derive(Clone, Copy, PartialEq, Eq)]
pub enum RaidDid {
    /// So many entries of a part are marked.
    Marked { marks: u64 },
    /// This block was scanned for copies that are older than marked entries.
    Scanned { block: u32 },
    /// Of so many marked entries of a part an older copy was found, so they have to stay.
    Applied { unmarked: u64 },
    /// So many tombstones of a part were removed, and so many puts lost their cover flags.
    Dropped { removed: u64, cleared: u64 },
    /// Nothing: the raid is over.
    Done,
}

/// The raid's next turn, which is one at the part of this sprig, is taken, and it answers by its kind. It is refused as stale exactly
/// where another raid has begun since, or it was given up, or somebody else took its turn: then nothing changes. `age` is in seconds, and
/// `now` in milliseconds. It takes no memory, and calls no disk.
pub fn part_turn<D: Disk>(
    sprig: &mut Sprig,
    shelf: &mut Shelf<D>,
    raid: &mut Raid,
    age: u64,
    now: u64,
) -> Result<RaidDid, RaidRefusal>
    requires stand { (setup : Setup) × (s : State) × (part : ℕ) × (turn_part (turn_of raid.old.next) ≡ Some part) × IsSetupOf setup shelf.old × StandTogether setup part sprig.old shelf.old s }
    ensures makes { (setup : Setup) (s : State) (part : ℕ) → turn_part (turn_of raid.old.next) ≡ Some part → IsSetupOf setup shelf.old → setup.raid_age ≡ age → StandTogether setup part sprig.old shelf.old s
        → TurnMakes D.view setup raid.old now result shelf.old s shelf.new (StandTogether setup part sprig.new shelf.new) }
    ensures taken { IsNext raid.old shelf.old.raid → TakesTurn D.view raid.old.next result shelf.old shelf.new }
    ensures stale { (IsNext raid.old shelf.old.raid → ⊥) → (result ≡ Err (RaidRefusal.Stale shelf.old.raid.number shelf.old.raid.next)) × (sprig.new ≡ sprig.old) × (shelf.new ≡ shelf.old) }
    ensures counts { IfOk result (CountsEnds shelf.old.raid.number sprig.old.entries) }

    // An entry is removed, or loses its cover, only where no copy of its digest that is older than it waits in a pending buffer, or is in an
    // image that the disk may leave.
    ensures spares { (setup : Setup) (s : State) (part : ℕ) → raid.old.next ≡ RaidNext.Drop part → IsSetupOf setup shelf.old → StandTogether setup part sprig.old shelf.old s
        → IsHonest (D.view shelf.old.disk) → ImagesHold setup D.view shelf.old s → SparesOlder s (possible_copies D.view shelf.old s) sprig.old.entries sprig.new.entries }
    ensures follows { OnOk result (IsNext raid.new shelf.new.raid × (raid.new.number ≡ raid.old.number)) }
    ensures kept { OnErr result (raid.new ≡ raid.old) }
    ensures left { IfErr result (λ refusal. (sprig.new ≡ sprig.old) × TurnLeaves shelf.old shelf.new refusal) }
    ensures sure { StaysSure D.view shelf.old shelf.new }
    ensures disk { shelf.new.disk ≡ shelf.old.disk }
    ensures geometry { shelf.new.geometry ≡ shelf.old.geometry }
    ensures limits { shelf.new.limits ≡ shelf.old.limits }
{
    if !raid.is_next(shelf.raid()) {
        return Err(stale(shelf.raid()));
    }
    let did = take_part(sprig, shelf, raid.next(), age, now);
    raid.go_on(shelf.raid());
    Ok(did)
}

/// The raid's next turn, which is none at a part, is taken: a block is scanned, or `Done` is answered where no turn is left. What a scan
/// finds, and how it is refused, is as with `raid_scan`: the raid is given up then. It is refused as stale exactly where another raid has
/// begun since, or it was given up, or somebody else took its turn, whatever that is: then nothing changes.
pub fn shelf_turn<D: Disk>(
    alloc: Global,
    shelf: &mut Shelf<D>,
    raid: &mut Raid,
) -> Result<RaidDid, RaidRefusal>
    requires { IsNext raid.old shelf.old.raid → turn_part (turn_of raid.old.next) ≡ None }
    ensures makes { (setup : Setup) (s : State) (now : ℕ) → IsSetupOf setup shelf.old → ShelfStands setup shelf.old s
        → TurnMakes D.view setup raid.old now result shelf.old s shelf.new (StandOn setup shelf.new s) }
    ensures taken { IsNext raid.old shelf.old.raid → TakesTurn D.view raid.old.next result shelf.old shelf.new }
    ensures stale { (IsNext raid.old shelf.old.raid → ⊥) → (result ≡ Err (RaidRefusal.Stale shelf.old.raid.number shelf.old.raid.next)) × (shelf.new ≡ shelf.old) }
    ensures follows { OnOk result (IsNext raid.new shelf.new.raid × (raid.new.number ≡ raid.old.number)) }
    ensures kept { OnErr result (raid.new ≡ raid.old) }
    ensures left { IfErr result (TurnLeaves shelf.old shelf.new) }
    ensures sure { StaysSure D.view shelf.old shelf.new }
    ensures later { IsLater (D.view shelf.old.disk) (D.view shelf.new.disk) }
    ensures honest { IsHonest (D.view shelf.old.disk) → IsHonest (D.view shelf.new.disk) }
    ensures geometry { shelf.new.geometry ≡ shelf.old.geometry }
    ensures limits { shelf.new.limits ≡ shelf.old.limits }
{
    if !raid.is_next(shelf.raid()) {
        return Err(stale(shelf.raid()));
    }
    match take_scan(alloc, shelf) {
        Ok(did) => {
            raid.go_on(shelf.raid());
            Ok(did)
        }
        Err(refusal) => Err(refusal),
    }
}

// That another turn is the next.
fn stale(book: &RaidBook) -> RaidRefusal
    ensures { result ≡ RaidRefusal.Stale book.now.number book.now.next }
{
    RaidRefusal::Stale {
        number: book.number(),
        next: book.next(),
    }
}

// Takes this turn of the raid that runs, which is its next one, at a part.
fn take_part<D: Disk>(
    sprig: &mut Sprig,
    shelf: &mut Shelf<D>,
    next: RaidNext,
    age: u64,
    now: u64,
) -> RaidDid
    requires next { shelf.old.raid.next ≡ next }
    requires fits { FitsTurn next shelf.old.raid }
    requires stand { (setup : Setup) × (s : State) × (part : ℕ) × (turn_part (turn_of next) ≡ Some part) × IsSetupOf setup shelf.old × StandTogether setup part sprig.old shelf.old s }
    ensures makes { (setup : Setup) (s : State) (part : ℕ) → turn_part (turn_of next) ≡ Some part → IsSetupOf setup shelf.old → setup.raid_age ≡ age → StandTogether setup part sprig.old shelf.old s
        → TurnMakes D.view setup (record { number = shelf.old.raid.number; next = next }) now (Ok result) shelf.old s shelf.new (StandTogether setup part sprig.new shelf.new) }
    ensures taken { TakesTurn D.view next (Ok result) shelf.old shelf.new }
    ensures counts { CountsEnds shelf.old.raid.number sprig.old.entries result }
    ensures spares { (setup : Setup) (s : State) (part : ℕ) → next ≡ RaidNext.Drop part → IsSetupOf setup shelf.old → StandTogether setup part sprig.old shelf.old s
        → IsHonest (D.view shelf.old.disk) → ImagesHold setup D.view shelf.old s → SparesOlder s (possible_copies D.view shelf.old s) sprig.old.entries sprig.new.entries }
    ensures disk { shelf.new.disk ≡ shelf.old.disk }
{
    match next {
        RaidNext::Mark(part) => RaidDid::Marked {
            marks: raid_mark(sprig, shelf, part, age, now),
        },
        RaidNext::Apply(part) => RaidDid::Applied {
            unmarked: raid_apply(sprig, shelf, part),
        },
        RaidNext::Drop(part) => {
            let (removed, cleared) = raid_end(sprig, shelf, part);
            RaidDid::Dropped { removed, cleared }
        }
        RaidNext::Scan(_) | RaidNext::Finished => RaidDid::Done,
    }
}

// Takes the next turn of the raid that runs, which is none at a part.
fn take_scan<D: Disk>(alloc: Global, shelf: &mut Shelf<D>) -> Result<RaidDid, RaidRefusal>
    requires none { turn_part (turn_of shelf.old.raid.next) ≡ None }
    requires fits { FitsTurn shelf.old.raid.next shelf.old.raid }
    ensures makes { (setup : Setup) (s : State) (now : ℕ) → IsSetupOf setup shelf.old → ShelfStands setup shelf.old s
        → TurnMakes D.view setup (record { number = shelf.old.raid.number; next = shelf.old.raid.next }) now result shelf.old s shelf.new (StandOn setup shelf.new s) }
    ensures taken { TakesTurn D.view shelf.old.raid.next result shelf.old shelf.new }
{
    match shelf.raid().next() {
        RaidNext::Scan(_) => scan_block(alloc, shelf),
        RaidNext::Mark(_) | RaidNext::Apply(_) | RaidNext::Drop(_) | RaidNext::Finished => {
            Ok(RaidDid::Done)
        }
    }
}

// Scans the block whose turn it is: `raid_scan`.
fn scan_block<D: Disk>(alloc: Global, shelf: &mut Shelf<D>) -> Result<RaidDid, RaidRefusal>
    requires turn { (block : ℕ) × (shelf.old.raid.next ≡ RaidNext.Scan block) }
    requires fits { FitsTurn shelf.old.raid.next shelf.old.raid }
    ensures makes { (setup : Setup) (s : State) (now : ℕ) → IsSetupOf setup shelf.old → ShelfStands setup shelf.old s
        → TurnMakes D.view setup (record { number = shelf.old.raid.number; next = shelf.old.raid.next }) now result shelf.old s shelf.new (StandOn setup shelf.new s) }
    ensures taken { TakesTurn D.view shelf.old.raid.next result shelf.old shelf.new }
{
    match raid_scan(alloc, shelf) {
        Ok(block) => Ok(RaidDid::Scanned { block }),
        Err(refusal) => Err(refusal),
    }
}
