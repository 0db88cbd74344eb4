// How a raid scans a block.
ghost use Rattle.std.specs.Prelude.{◌≡◌, ℕ, Err, IfOk, IfErr, OnOk, OnErr, MatchResult};
ghost use Rattle.model_faults.specs.Counts.{Rose};
ghost use Rattle.disk_model.specs.Disk.{IsHonest};
ghost use Rattle.model_device.specs.Book.{Setup};
ghost use Rattle.model_device.specs.Device.{State};
ghost use Rattle.block_format.specs.Layout.{body_bytes};
ghost use Rattle.law_facts.specs.Facts.{SamePossible};
ghost use Rattle.raid_book.specs.Books.{given_up, with_scan};
ghost use Rattle.block_shelf.specs.Disks.{IsLater};
ghost use Rattle.block_shelf.specs.View.{AreSure, IsSetupOf};
ghost use Rattle.block_shelf.specs.Standing.{ImagesHold};
ghost use Rattle.block_shelf.specs.Scans.{ClosesAtMost, FindsBody, NeedsRead, possible_copies};
ghost use Rattle.law_steps.specs.Standing.{ShelfStands};
ghost use Rattle.shard_raid.specs.Scans.{ScanMakes, IsOfTurn, IsDamageOf, IsRefusalOf, IsToldOf, refusal_to_scan};

use block_shelf::{Shelf, VacateRefusal};
use disk_model::Disk;
use raid_book::RaidNext;
use std::alloc::Global;

/// Why a turn of a raid is refused.
#[derive(Clone, Copy, PartialEq, Eq)]
pub enum RaidRefusal {
    /// It isn't the next turn of the raid that runs: that has this number, and this is its next turn.
    Stale { number: u64, next: RaidNext },
    /// What is in the block from this place on isn't in the format.
    Damaged { block: u32, place: u32 },
    /// There was no memory for it.
    Memory,
    /// The disk failed.
    Fault,
}

/// At `Ok` the block whose turn it is was scanned, and is answered; over an honest disk whose image was sound each copy in it that is
/// older than a marked entry was found, in a pending buffer or in an image that a crash may leave, and nothing but copies that a start
/// may find. The raid goes on to its next turn. After a refusal it is given up, and its marks are void.
pub fn raid_scan<D: Disk>(alloc: Global, shelf: &mut Shelf<D>) -> Result<u32, RaidRefusal>
    requires turn { (block : ℕ) × (shelf.old.raid.next ≡ RaidNext.Scan block) }
    ensures makes { (setup : Setup) (s : State) (now block : ℕ) → shelf.old.raid.next ≡ RaidNext.Scan block → IsSetupOf setup shelf.old → ShelfStands setup shelf.old s
        → ScanMakes D.view setup block now result shelf.old s shelf.new }
    ensures block { IfOk result (λ block. shelf.old.raid.next ≡ RaidNext.Scan block) }
    ensures of_turn { IfErr result IsOfTurn }
    ensures turned { OnOk result (shelf.new.raid ≡ with_scan shelf.new.raid.found shelf.old.raid) }
    ensures given_up { OnErr result (shelf.new.raid ≡ given_up shelf.old.raid) }

    // At most the gate of the block is closed, where it was unsure. Where no gate is unsure the gates stay as they are, and over an honest
    // disk whose image was sound what is possible stays so.
    ensures gates { (block : ℕ) → shelf.old.raid.next ≡ RaidNext.Scan block → ClosesAtMost block shelf.old shelf.new }
    ensures sure { AreSure shelf.old.gates → shelf.new.gates ≡ shelf.old.gates }
    ensures alike { (setup : Setup) (s : State) → AreSure shelf.old.gates → IsHonest (D.view shelf.old.disk) → ShelfStands setup shelf.old s → ImagesHold setup D.view shelf.old s
        → SamePossible (possible_copies D.view shelf.old s) (possible_copies D.view shelf.new s) }

    // Where the disk is read, a disk that tells its bytes has a body of the block, whose records are found, or the damage that is told:
    // memory is wanting only where a body of the block stands there. Over every disk damage is told of no other block.
    ensures there { (D.view shelf.old.disk).tells → (block : ℕ) → shelf.old.raid.next ≡ RaidNext.Scan block → NeedsRead shelf.old block
        → MatchResult result (λ scanned. FindsBody shelf.old.geometry shelf.old.limits.sprigs (body_bytes shelf.old.geometry block (D.view shelf.old.disk).seen) block shelf.new.raid)
        (IsRefusalOf shelf.old.geometry (body_bytes shelf.old.geometry block (D.view shelf.old.disk).seen) block) }
    ensures told { (block : ℕ) → shelf.old.raid.next ≡ RaidNext.Scan block → IfErr result (IsToldOf shelf.old block) }
    ensures damaged { (D.view shelf.old.disk).tells → (block : ℕ) → shelf.old.raid.next ≡ RaidNext.Scan block
        → IfErr result (IsDamageOf shelf.old.geometry (body_bytes shelf.old.geometry block (D.view shelf.old.disk).seen) block) }
    ensures rest { shelf.new ≡ record shelf.old { disk = shelf.new.disk; gates = shelf.new.gates; raid = shelf.new.raid } }
    ensures cause { result ≡ Err RaidRefusal.Fault → Rose (D.view shelf.old.disk).faults (D.view shelf.new.disk).faults }
    ensures later { IsLater (D.view shelf.old.disk) (D.view shelf.new.disk) }
    ensures honest { IsHonest (D.view shelf.old.disk) → IsHonest (D.view shelf.new.disk) }
{
    match shelf.scan_step(alloc) {
        Ok(block) => Ok(block),
        Err(refusal) => Err(scan_refusal(refusal)),
    }
}

// What a refusal of the shelf to scan a block is to the raid.
fn scan_refusal(refusal: VacateRefusal) -> RaidRefusal
    ensures { result ≡ refusal_to_scan refusal }
{
    match refusal {
        VacateRefusal::Damaged { block, place } => RaidRefusal::Damaged { block, place },
        VacateRefusal::Memory => RaidRefusal::Memory,
        VacateRefusal::Fault => RaidRefusal::Fault,
    }
}
