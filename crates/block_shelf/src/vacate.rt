// Which block is vacated next, and what stands in it.
ghost use Rattle.std.specs.Prelude.{◌≡◌, ◌<◌, ◌≤◌, ◌-◌, ℕ, [], None, Some, Contains, Ok, length, IfOk, IfErr, IfSome, OnErr, MatchResult, vec_capacity};
ghost use Rattle.model_faults.specs.Counts.{Rose};
ghost use Rattle.disk_model.specs.Disk.{IsHonest};
ghost use Rattle.rec_format.specs.Versions.{block_capacity};
ghost use Rattle.model_device.specs.Book.{Setup};
ghost use Rattle.model_device.specs.Device.{State};
ghost use Rattle.model_device.specs.Legal.{queue_front};
ghost use Rattle.block_format.specs.declared.geometry.Geometry.{Geometry};
ghost use Rattle.block_format.specs.Layout.{body_bytes, most_records};
ghost use Rattle.block_format.specs.Readings.{body_capacity};
ghost use Rattle.write_buffer.specs.Buffers.{BufferState};
ghost use Rattle.block_shelf.specs.Disks.{OnlyRead};
ghost use Rattle.block_shelf.specs.View.{in_memory};
ghost use Rattle.block_shelf.specs.Standing.{StandsFor, BooksStand, ImagesHold};
ghost use Rattle.block_shelf.specs.Scans.{IsDamageOf, IsSound};
ghost use Rattle.block_shelf.specs.Vacating.{IsDamageAt, IsReadNext, IsToldOfNext, ListsBody, ListsIn, ListsLive, ListsNone, digests_in};

use crate::load::load_body;
use crate::{Shelf, VacateRefusal};
use block_format::digests_of;
use disk_model::Disk;
use rec_format::Digest;

impl<D: Disk> Shelf<D> {
    /// At `Ok` the block that has waited longest to be vacated, and the list has the digests of all records of its body, in their order;
    /// none, and an empty list, where no block waits. The body is that of the block's flushed buffer, where that is kept, and the disk
    /// isn't called then; else one read gives it. The block waits on, at the front, until nothing is live in it. After a refusal the list
    /// is empty, and nothing but the disk has changed, which was only read. It takes no memory: the list has room for the most records
    /// that a block can have.
    pub fn vacate_next(&mut self, digests: &mut Vec<Digest>) -> Result<Option<u32>, VacateRefusal>
        requires room { most_records (block_capacity self.old.geometry.block_size) ≤ vec_capacity digests.old }

        // Over every shelf, whatever it stands for, the front of the queue; so it is that of the state for which it stands.
        ensures first { IfOk result (λ chosen. chosen ≡ queue_front self.old.queue.queue) }
        ensures chosen { (setup : Setup) (s : State) → BooksStand setup self.old s → IfOk result (λ chosen. chosen ≡ queue_front s.book.queue) }
        ensures below { IfOk result (λ chosen. IfSome chosen (λ block. block < self.old.geometry.blocks)) }
        ensures idle { queue_front self.old.queue.queue ≡ None → (result ≡ Ok None) × (self.new ≡ self.old) }

        // From a buffer in memory.
        ensures kept { (block : ℕ) (b : BufferState) → queue_front self.old.queue.queue ≡ Some block → Contains (in_memory self.old) b → b.block ≡ block
            → (result ≡ Ok (Some block)) × (digests.new.items ≡ digests_in b.records) × (self.new ≡ self.old) }

        // From a disk that tells its bytes: exactly where a body of the block stands there; else the damage that is there is told, or a
        // fault. Over every disk damage is told of no other block, and of none that is in memory; over an honest disk whose image was
        // sound there is none, and each record whose live copy lies in the block is listed.
        ensures read { (D.view self.old.disk).tells → (block : ℕ) → IsReadNext self.old block
            → MatchResult result (λ chosen. ListsBody self.old.geometry (body_bytes self.old.geometry block (D.view self.old.disk).seen) block digests.new.items)
            (IsDamageOf self.old.geometry (body_bytes self.old.geometry block (D.view self.old.disk).seen) block) }
        ensures told { IfErr result (IsToldOfNext self.old) }
        ensures sound { (setup : Setup) (s : State) → IsHonest (D.view self.old.disk) → StandsFor setup self.old s → BooksStand setup self.old s → ImagesHold setup D.view self.old s
            → IfErr result IsSound }
        ensures all { (setup : Setup) (s : State) → IsHonest (D.view self.old.disk) → StandsFor setup self.old s → BooksStand setup self.old s → ImagesHold setup D.view self.old s
            → IfOk result (λ chosen. IfSome chosen (λ block. ListsLive s.book block digests.new.items)) }
        ensures none { ListsNone result digests.new.items }
        ensures few { length digests.new.items ≤ most_records (block_capacity self.old.geometry.block_size) }
        ensures room { vec_capacity digests.new ≡ vec_capacity digests.old }
        ensures cause { result ≡ Err VacateRefusal.Fault → Rose (D.view self.old.disk).faults (D.view self.new.disk).faults }
        ensures disk { OnlyRead (D.view self.old.disk) (D.view self.new.disk) }
        ensures rest { self.new ≡ record self.old { disk = self.new.disk } }
    {
        digests.clear();
        let Some(block) = self.queue.front() else {
            return Ok(None);
        };
        self.list_records(block, digests)?;
        Ok(Some(block))
    }
}

impl<D: Disk> Shelf<D> {
    // The digests of the records of a block's body are listed: of its buffer in memory, or as the disk has them.
    fn list_records(&mut self, block: u32, digests: &mut Vec<Digest>) -> Result<(), VacateRefusal>
        requires block { block < self.old.geometry.blocks }
        requires room { most_records (block_capacity self.old.geometry.block_size) ≤ vec_capacity digests.old }
        requires empty { digests.old.items ≡ [] }
        ensures listed { ListsIn D.view block self.old self.new digests.new.items result }
        ensures room { vec_capacity digests.new ≡ vec_capacity digests.old }
    {
        if let Some(buffer) = self.in_memory(block) {
            return listed_in(buffer.body(), block, digests);
        }
        let Ok(()) = load_body(&mut self.disk, &self.geometry, block, &mut self.body) else {
            return Err(VacateRefusal::Fault);
        };
        listed_in(&self.body, block, digests)
    }
}

// The digests of the records of a body are listed.
fn listed_in(body: &[u8], block: u32, digests: &mut Vec<Digest>) -> Result<(), VacateRefusal>
    requires head { 32 ≤ length body.now }
    requires size { length body.now ≤ 1044480 }
    requires room { most_records (body_capacity body.now) ≤ vec_capacity digests.old }
    ensures listed { (g : Geometry) → length body.now ≡ g.block_size - 4096 → MatchResult result (λ done. ListsBody g body.now block digests.new.items) (IsDamageOf g body.now block) }
    ensures told { IfErr result (IsDamageAt block) }
    ensures none { OnErr result (digests.new.items ≡ []) }
    ensures few { length digests.new.items ≤ most_records (body_capacity body.now) }
    ensures room { vec_capacity digests.new ≡ vec_capacity digests.old }
{
    match digests_of(body, block, digests) {
        Ok(()) => Ok(()),
        Err(place) => Err(VacateRefusal::Damaged { block, place }),
    }
}
