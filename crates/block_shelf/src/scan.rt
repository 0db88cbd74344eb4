// What a raid comes upon in a block.
ghost use Rattle.std.specs.Prelude.{◌≡◌, ◌≢◌, ◌<◌, ◌≤◌, ◌-◌, ◌==◌, ℕ, List, [], ◌∷◌, Contains, length, map, filter, Ok, IfOk, IfErr, OnOk, OnErr, MatchResult};
ghost use Rattle.model_faults.specs.Counts.{Rose};
ghost use Rattle.disk_model.specs.Disk.{IsHonest};
ghost use Rattle.rec_format.specs.Places.{device_number, part_number_of, part_count};
ghost use Rattle.model_device.specs.Book.{Setup};
ghost use Rattle.model_device.specs.Device.{State};
ghost use Rattle.model_device.specs.Steps.{raid_given_up};
ghost use Rattle.block_format.specs.Layout.{IsGeometry, body_bytes};
ghost use Rattle.block_format.specs.Readings.{AtMostOneBody};
ghost use Rattle.block_format.specs.declared.geometry.Geometry.{Geometry};
ghost use Rattle.write_buffer.specs.Buffers.{BufferState};
ghost use Rattle.law_facts.specs.Facts.{SamePossible};
ghost use Rattle.raid_book.specs.declared.turn.RaidNext.TheVariants as turn;
ghost use Rattle.raid_book.specs.Books.{given_up, with_scan};
ghost use Rattle.block_shelf.specs.Disks.{IsLater};
ghost use Rattle.block_shelf.specs.View.{IsShelf, IsSetupOf, AreSure};
ghost use Rattle.block_shelf.specs.Standing.{StandsFor, BooksStand, ImagesHold};
ghost use Rattle.block_shelf.specs.Calls.{Goes};
ghost use Rattle.block_shelf.specs.Scans.{ClosesAtMost, Scans, ScansIn, ReadsIn, ReadsBlock, ReadsBody, FindsBody, NeedsRead, IsDamageOf, IsOfBlock, IsRefusalOf, IsToldOf, IsSound, own_found, possible_copies};

use crate::load::load_body;
use crate::{NoMemory, Shelf, VacateRefusal};
use block_format::{BodyRefusal, Found, Gate, Geometry, check_body, read_body};
use disk_model::Disk;
use partition_map::{device_of, part_number};
use raid_book::RaidNext;
use std::alloc::Global;

impl<D: Disk> Shelf<D> {
    /// At `Ok` the block whose turn it is was scanned, and is answered: over an honest disk whose image was sound each copy in it that is
    /// older than a marked entry is in the raid's book, and nothing but copies that a start may find. What is in a pending buffer is
    /// taken from memory, also where the write of its gate has begun. Of the other blocks, free ones too, one with an unsure gate is
    /// closed and synced first, a closed one has no records, and any other is read from the disk, also where its flushed buffer is kept.
    /// After a refusal the raid is given up, and nothing else has changed but the gate of the block, if it was unsure and is closed now.
    pub fn scan_step(&mut self, alloc: Global) -> Result<u32, VacateRefusal>
        requires turn { (block : ℕ) × (self.old.raid.next ≡ turn.Scan block) }
        ensures scanned { (setup : Setup) (s : State) → IsSetupOf setup self.old → StandsFor setup self.old s → BooksStand setup self.old s
            → MatchResult result (λ block. Scans D.view setup block self.old s self.new) (λ refusal. Goes D.view setup (raid_given_up ∷ []) self.old s self.new) }
        ensures block { IfOk result (λ block. self.old.raid.next ≡ turn.Scan block) }
        ensures turned { OnOk result (self.new.raid ≡ with_scan self.new.raid.found self.old.raid) }
        ensures given_up { OnErr result (self.new.raid ≡ given_up self.old.raid) }

        // A pending block makes no call of the disk.
        ensures waiting { (block : ℕ) (b : BufferState) → self.old.raid.next ≡ turn.Scan block → Contains self.old.buffers b → b.block ≡ block → self.new.disk ≡ self.old.disk }

        // At most the gate of the block is closed, where it was unsure. Where no gate is unsure the gates stay as they are, and over an honest
        // disk whose image was sound what is possible stays so.
        ensures gates { (block : ℕ) → self.old.raid.next ≡ turn.Scan block → ClosesAtMost block self.old self.new }
        ensures sure { AreSure self.old.gates → self.new.gates ≡ self.old.gates }
        ensures alike { (setup : Setup) (s : State) → AreSure self.old.gates → IsHonest (D.view self.old.disk) → StandsFor setup self.old s → ImagesHold setup D.view self.old s
            → SamePossible (possible_copies D.view self.old s) (possible_copies D.view self.new s) }

        // Where the disk is read, a disk that tells its bytes has a body of the block, whose records are found, or the damage that is told:
        // memory is wanting only where a body of the block stands there. Over every disk damage is told of no other block, and over an
        // honest disk whose image was sound there is none.
        ensures there { (D.view self.old.disk).tells → (block : ℕ) → self.old.raid.next ≡ turn.Scan block → NeedsRead self.old block
            → MatchResult result (λ scanned. FindsBody self.old.geometry self.old.limits.sprigs (body_bytes self.old.geometry block (D.view self.old.disk).seen) block self.new.raid)
            (IsRefusalOf self.old.geometry (body_bytes self.old.geometry block (D.view self.old.disk).seen) block) }
        ensures told { (block : ℕ) → self.old.raid.next ≡ turn.Scan block → IfErr result (IsToldOf self.old block) }
        ensures damaged { (D.view self.old.disk).tells → (block : ℕ) → self.old.raid.next ≡ turn.Scan block → IfErr result (IsDamageOf self.old.geometry (body_bytes self.old.geometry block (D.view self.old.disk).seen) block) }
        ensures sound { (setup : Setup) (s : State) → IsHonest (D.view self.old.disk) → StandsFor setup self.old s → ImagesHold setup D.view self.old s → IfErr result IsSound }
        ensures rest { self.new ≡ record self.old { disk = self.new.disk; gates = self.new.gates; raid = self.new.raid } }
        ensures cause { result ≡ Err VacateRefusal.Fault → Rose (D.view self.old.disk).faults (D.view self.new.disk).faults }
        ensures later { IsLater (D.view self.old.disk) (D.view self.new.disk) }
        ensures honest { IsHonest (D.view self.old.disk) → IsHonest (D.view self.new.disk) }
    {
        let RaidNext::Scan(block) = self.raid.next() else {
            unreachable!();
        };
        match self.scan_block(alloc, block) {
            Ok(()) => Ok(block),
            Err(refusal) => {
                self.give_up();
                Err(refusal)
            }
        }
    }
}

impl<D: Disk> Shelf<D> {
    // What may be in the block whose turn it is goes to the raid's book.
    fn scan_block(&mut self, alloc: Global, block: u32) -> Result<(), VacateRefusal>
        requires block { block < self.old.geometry.blocks }
        requires turn { self.old.raid.next ≡ turn.Scan block }
        ensures { ScansIn D.view block self.old self.new result }
    {
        let found = self.records_in(alloc, block)?;
        let Ok(own) = own_of(alloc, &self.geometry, &found) else {
            return Err(VacateRefusal::Memory);
        };
        let Ok(parts) = parts_in(alloc, &self.geometry, self.limits.sprigs, &own) else {
            return Err(VacateRefusal::Memory);
        };
        let Ok(()) = self.raid.scanned(alloc, block, &own, &parts) else {
            return Err(VacateRefusal::Memory);
        };
        Ok(())
    }

    // The heads of the records that may be in a block.
    fn records_in(&mut self, alloc: Global, block: u32) -> Result<Vec<Found>, VacateRefusal>
        requires block { block < self.old.geometry.blocks }
        ensures { ReadsIn D.view block self.old self.new (λ found. found.items) result }
    {
        if let Some(buffer) = self.buffer_of(block) {
            return found_in(alloc, buffer.body(), block);
        }
        let Ok(_) = self.close_unsure(block) else {
            return Err(VacateRefusal::Fault);
        };
        if self.gate(block) == Gate::Shut {
            return Ok(Vec::new(alloc));
        }
        self.read_block(alloc, block)
    }

    // The heads of the records of a block, as the disk has it.
    fn read_block(&mut self, alloc: Global, block: u32) -> Result<Vec<Found>, VacateRefusal>
        requires block { block < self.old.geometry.blocks }
        ensures { ReadsBlock D.view block self.old self.new (λ found. found.items) result }
    {
        let Ok(()) = load_body(&mut self.disk, &self.geometry, block, &mut self.body) else {
            return Err(VacateRefusal::Fault);
        };
        found_in(alloc, &self.body, block)
    }
}

// The heads of the records of a body. It is looked at as a whole before memory is taken for what it has.
fn found_in(alloc: Global, body: &[u8], block: u32) -> Result<Vec<Found>, VacateRefusal>
    requires head { 32 ≤ length body.now }
    requires size { length body.now ≤ 1044480 }
    ensures read { (g : Geometry) → length body.now ≡ g.block_size - 4096 → MatchResult result (λ found. ReadsBody g body.now block found.items) (IsRefusalOf g body.now block) }
    ensures of_block { IfErr result (IsOfBlock block) }
    ensures quiet { result ≢ Err VacateRefusal.Fault }
    ensures one_body { AtMostOneBody }
{
    if let Err(place) = check_body(body, block) {
        return Err(VacateRefusal::Damaged { block, place });
    }
    match read_body(alloc, body, block) {
        Ok((_, found)) => Ok(found),
        Err(BodyRefusal::Bad { place }) => Err(VacateRefusal::Damaged { block, place }),
        Err(BodyRefusal::Memory) => Err(VacateRefusal::Memory),
    }
}

// Those of digests of the device.
fn own_of(alloc: Global, geometry: &Geometry, found: &[Found]) -> Result<Vec<Found>, NoMemory>
    requires { IsGeometry geometry.now }
    ensures { IfOk result (λ own. own.items ≡ own_found geometry.now found.now) }
{
    let mut own = Vec::new(alloc);
    for record in found {
        if device_of(&record.head.digest, geometry.devices) == geometry.device {
            own.push(*record)?;
        }
    }
    Ok(own)
}

// The part of each.
fn parts_in(
    alloc: Global,
    geometry: &Geometry,
    sprigs: u32,
    found: &[Found],
) -> Result<Vec<u32>, NoMemory>
    requires geometry { IsGeometry geometry.now }
    requires sprigs { (1 ≤ sprigs) × (sprigs ≤ 256) }
    ensures parts { IfOk result (λ parts. parts.items ≡ map (λ f. part_number_of geometry.now.devices sprigs f.head.digest) found.now) }
{
    let mut parts = Vec::with_capacity(alloc, found.len())?;
    for record in found {
        parts.push(part_number(&record.head.digest, sprigs, geometry.devices))?;
    }
    Ok(parts)
}
