// Which block is vacated next.
ghost use Rattle.std.specs.Prelude.{◌≡◌, ◌<◌, ◌≤◌, ℕ, None, Some, Ok, Contains, Err, IfErr, IfOk, IfSome, MatchResult, length, vec_capacity};
ghost use Rattle.model_faults.specs.Counts.{Rose};
ghost use Rattle.disk_model.specs.Disk.{IsHonest};
ghost use Rattle.rec_format.specs.Versions.{block_capacity};
ghost use Rattle.model_device.specs.Book.{Setup};
ghost use Rattle.model_device.specs.Device.{State};
ghost use Rattle.model_device.specs.Events.{choose_call};
ghost use Rattle.model_device.specs.Legal.{queue_front};
ghost use Rattle.block_format.specs.Layout.{body_bytes, most_records};
ghost use Rattle.write_buffer.specs.Buffers.{BufferState};
ghost use Rattle.block_shelf.specs.Disks.{OnlyRead};
ghost use Rattle.block_shelf.specs.Scans.{IsDamageOf, IsSound};
ghost use Rattle.block_shelf.specs.Standing.{ImagesHold};
ghost use Rattle.block_shelf.specs.Vacating.{IsReadNext, IsToldOfNext, ListsBody, ListsLive, ListsNone, digests_in};
ghost use Rattle.block_shelf.specs.View.{IsSetupOf, in_memory};
ghost use Rattle.law_steps.specs.Standing.{ShelfStands};
ghost use Rattle.law_steps.specs.Events.{MakesEvent};
ghost use Rattle.defrag_pass.specs.Choosing.{HasFew, choose_answer};

use block_shelf::{Shelf, VacateRefusal};
use disk_model::Disk;
use rec_format::Digest;

/// At `Ok` the block that has waited longest to be vacated, and the list has the digests of all records of its body, in their order; none,
/// and an empty list, where no block waits. Fewer than 2^16 units are live in it, and no buffer has it. The disk is read only where the
/// block's flushed buffer isn't kept. The block waits on, at the front, until nothing is live in it. After a refusal the list is empty,
/// and nothing but the disk has changed, which was only read. It takes no memory: the list has room for the most records that a block can
/// have.
pub fn choose_step<D: Disk>(
    shelf: &mut Shelf<D>,
    digests: &mut Vec<Digest>,
) -> Result<Option<u32>, VacateRefusal>
    requires room { most_records (block_capacity shelf.old.geometry.block_size) ≤ vec_capacity digests.old }
    ensures makes { (setup : Setup) (s : State) → IsSetupOf setup shelf.old → ShelfStands setup shelf.old s
        → MakesEvent D.view setup choose_call (choose_answer result) shelf.old s shelf.new (ShelfStands setup shelf.new) }

    // Over every shelf, whatever it stands for, the front of the queue; so it is that of the state for which it stands.
    ensures first { IfOk result (λ chosen. chosen ≡ queue_front shelf.old.queue.queue) }
    ensures below { IfOk result (λ chosen. IfSome chosen (λ block. block < shelf.old.geometry.blocks)) }
    ensures low { (setup : Setup) (s : State) → IsSetupOf setup shelf.old → ShelfStands setup shelf.old s → IfOk result (λ chosen. IfSome chosen (λ block. HasFew block s.book)) }
    ensures idle { queue_front shelf.old.queue.queue ≡ None → (result ≡ Ok None) × (shelf.new ≡ shelf.old) }

    // From a buffer in memory.
    ensures kept { (block : ℕ) (b : BufferState) → queue_front shelf.old.queue.queue ≡ Some block → Contains (in_memory shelf.old) b → b.block ≡ block
        → (result ≡ Ok (Some block)) × (digests.new.items ≡ digests_in b.records) × (shelf.new ≡ shelf.old) }

    // From a disk that tells its bytes: exactly where a body of the block stands there; else the damage that is there is told, or a fault.
    // Over every disk damage is told of no other block, and of none that is in memory; over an honest disk whose image was sound there
    // is none, and each record whose live copy lies in the block is listed.
    ensures read { (D.view shelf.old.disk).tells → (block : ℕ) → IsReadNext shelf.old block
        → MatchResult result (λ chosen. ListsBody shelf.old.geometry (body_bytes shelf.old.geometry block (D.view shelf.old.disk).seen) block digests.new.items)
        (IsDamageOf shelf.old.geometry (body_bytes shelf.old.geometry block (D.view shelf.old.disk).seen) block) }
    ensures told { IfErr result (IsToldOfNext shelf.old) }
    ensures sound { (setup : Setup) (s : State) → IsHonest (D.view shelf.old.disk) → ShelfStands setup shelf.old s → ImagesHold setup D.view shelf.old s → IfErr result IsSound }
    ensures all { (setup : Setup) (s : State) → IsHonest (D.view shelf.old.disk) → ShelfStands setup shelf.old s → ImagesHold setup D.view shelf.old s
        → IfOk result (λ chosen. IfSome chosen (λ block. ListsLive s.book block digests.new.items)) }
    ensures none { ListsNone result digests.new.items }
    ensures few { length digests.new.items ≤ most_records (block_capacity shelf.old.geometry.block_size) }
    ensures room { vec_capacity digests.new ≡ vec_capacity digests.old }
    ensures cause { result ≡ Err VacateRefusal.Fault → Rose (D.view shelf.old.disk).faults (D.view shelf.new.disk).faults }
    ensures disk { OnlyRead (D.view shelf.old.disk) (D.view shelf.new.disk) }
    ensures rest { shelf.new ≡ record shelf.old { disk = shelf.new.disk } }
{
    // By its shape the device has no block with 2^16 records.
    let _shape = shelf.geometry();
    shelf.vacate_next(digests)
}
