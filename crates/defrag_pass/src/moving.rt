// How the record of one entry is moved.
ghost use Rattle.std.specs.Prelude.{◌≡◌, ◌≢◌, ◌+◌, ◌<◌, ◌≤◌, true, false, None, Some, Ok, Err, Contains, IfOk, IfErr, MatchOption, MatchResult};
ghost use Rattle.std.specs.List.{AllByRecursion};
ghost use Rattle.model_faults.specs.Counts.{Rose};
ghost use Rattle.disk_model.specs.Disk.{IsHonest, TellsTorn};
ghost use Rattle.rec_format.specs.Entries.{Names};
ghost use Rattle.rec_format.specs.Places.{device_number};
ghost use Rattle.rec_format.specs.Versions.{IsVersion, block_capacity};
ghost use Rattle.rec_format.specs.declared.version.Version.{Version};
ghost use Rattle.rec_format.specs.declared.entry.Entry.{Entry};
ghost use Rattle.model_device.specs.Book.{Setup, defrag, first_block, live_of};
ghost use Rattle.model_device.specs.Device as device;
ghost use Rattle.model_device.specs.Device.{State, part_of};
ghost use Rattle.model_device.specs.Events.{Answer, move_call};
ghost use Rattle.model_device.specs.Legal.{move_reserve, no_place};
ghost use Rattle.block_format.specs.declared.geometry.Gate.TheVariants.{Shut};
ghost use Rattle.block_format.specs.Layout.{block_place};
ghost use Rattle.write_buffer.specs.Buffers.{BufferState};
ghost use Rattle.sprig_tree.specs.Entries.{entry_of};
ghost use Rattle.law_sprig.specs.Becoming.{moved_to};
ghost use Rattle.block_shelf.specs.Calls.{copy_live};
ghost use Rattle.block_shelf.specs.Disks.{IsLater, OnlyRead};
ghost use Rattle.block_shelf.specs.Sure.{StaysSure};
ghost use Rattle.block_shelf.specs.Reads.{IsRead, copy_bytes};
ghost use Rattle.block_shelf.specs.Keeping.{KeepsAll};
ghost use Rattle.block_shelf.specs.Standing.{StandsFor, IsPlaced, HasRecord};
ghost use Rattle.block_shelf.specs.View.{IsSetupOf, SameShape, gate_at, in_memory};
ghost use Rattle.law_steps.specs.Standing.{StandTogether};
ghost use Rattle.law_steps.specs.Sprigs.{SameSprig, place_of};
ghost use Rattle.law_steps.specs.Events.{StepMakes};
ghost use Rattle.defrag_pass.specs.Moves.{Answers, CopiesRecord, IsDamageOf, IsShelfLeft, IsUnread, IsUnreadOf, IsUndamaged, KeepsMoved};

use crate::MoveRefusal;
use crate::refusal::{append_refusal, read_refusal};
use arena_sprig::Sprig;
use block_shelf::{Class, Place, Shelf};
use disk_model::Disk;
use rec_format::{Digest, Entry, Version};
use std::alloc::Global;

/// At `Ok(true)` the entry of the digest is no longer in the block: its record's copy, byte for byte as it was read, waits in the buffer
/// of moved records, and until that is flushed the block is held, so that no crash loses the record by it, over an honest disk whose
/// image was sound. The entry keeps its mark and its cover flag. `Ok(false)` comes exactly where the entry wasn't in the block, and
/// nothing changed. Whether there is room is asked before the record is read, which takes no call of the disk where it is in memory.
/// After a refusal the entry is as before, and so is the shelf, but for memory that was taken, and for a first free block whose gate
/// couldn't be closed.
pub fn move_one<D: Disk>(
    alloc: Global,
    sprig: &mut Sprig,
    shelf: &mut Shelf<D>,
    digest: &Digest,
    block: u32,
) -> Result<bool, MoveRefusal>
    requires named { device_number shelf.old.geometry.devices digest.now ≡ shelf.old.geometry.device }
    requires stand { (setup : Setup) × (s : State) × IsSetupOf setup shelf.old × StandTogether setup (part_of setup digest.now) sprig.old shelf.old s }
    ensures makes { (setup : Setup) (s : State) → IsSetupOf setup shelf.old → StandTogether setup (part_of setup digest.now) sprig.old shelf.old s
        → (answer : Answer) × Answers result answer × StepMakes D.view setup (part_of setup digest.now) (move_call digest.now block) answer shelf.old s sprig.new shelf.new }
    ensures elsewhere { result ≡ Ok false → (sprig.new ≡ sprig.old) × (shelf.new ≡ shelf.old) }

    // What is in memory is moved without a call of the disk, but where a buffer begins behind a gate that isn't known to be shut.
    ensures in_memory { (e : Entry) (b : BufferState) → entry_of digest.now sprig.old.entries ≡ Some e → Contains (in_memory shelf.old) b → b.block ≡ e.block
        → gate_at shelf.old.gates (first_block shelf.old.free) ≡ Shut → shelf.new.disk ≡ shelf.old.disk }
    ensures found { result ≡ Ok true → (e : Entry) × (entry_of digest.now sprig.old.entries ≡ Some e) }
    ensures refused { IfErr result (λ refusal. SameSprig sprig.old sprig.new) }
    ensures left { IfErr result (IsShelfLeft D.view shelf.old shelf.new) }
    ensures kept { MatchOption (entry_of digest.now sprig.old.entries) (KeepsAll shelf.old shelf.new) (λ e. KeepsMoved e.units shelf.old shelf.new result) }

    // Damage is told of the entry's record in the block, and of what was read of it.
    ensures damaged { IfErr result (IsDamageOf (D.view shelf.old.disk).tells D.view block (entry_of digest.now sprig.old.entries) shelf.new) }

    // What is moved is what stands at the record's place.
    ensures copied { result ≡ Ok true → (e : Entry) → entry_of digest.now sprig.old.entries ≡ Some e
        → (to : Entry) × (entry_of digest.now sprig.new.entries ≡ Some to) × CopiesRecord D.view digest.now e to shelf.old shelf.new }

    // The disk changes only at the gate of the first free block, which is closed where a buffer begins.
    ensures bytes { TellsTorn (block_place shelf.old.geometry (first_block shelf.old.free)) 4096 (D.view shelf.old.disk) (D.view shelf.new.disk) }
    ensures cause { result ≡ Err MoveRefusal.Fault → Rose (D.view shelf.old.disk).faults (D.view shelf.new.disk).faults }
    ensures sure { StaysSure D.view shelf.old shelf.new }
    ensures later { IsLater (D.view shelf.old.disk) (D.view shelf.new.disk) }
    ensures honest { IsHonest (D.view shelf.old.disk) → IsHonest (D.view shelf.new.disk) }
    ensures shape { SameShape shelf.old shelf.new }
{
    let Some(entry) = sprig.find(digest) else {
        return Ok(false);
    };
    if entry.block != block {
        return Ok(false);
    }
    let place = place_of_entry(&entry);
    prove!(place.block < shelf.geometry().blocks);
    let version = read_for(alloc, shelf, place, &entry)?;
    match shelf.append(alloc, digest, &version.lent(), Some(place), Class::Move) {
        Ok(new) => {
            sprig.replace(entry_at(&entry, new));
            Ok(true)
        }
        Err(refusal) => Err(append_refusal(refusal)),
    }
}

// Reads the record of an entry, if there is room to append it.
fn read_for<D: Disk>(
    alloc: Global,
    shelf: &mut Shelf<D>,
    place: Place,
    entry: &Entry,
) -> Result<Version, MoveRefusal>
    requires block { place.block < shelf.old.geometry.blocks }
    requires within { place.unit + place.units ≤ block_capacity shelf.old.geometry.block_size }
    requires units { (entry.now.units ≡ place.units) × (3 ≤ place.units) }
    ensures names { IfOk result (Names entry.now) }
    ensures version { IfOk result IsVersion }
    ensures asked { (setup : Setup) (s : State) → IsSetupOf setup shelf.old → StandsFor setup shelf.old s → let cause = no_place setup defrag move_reserve entry.now.units s.book in
        MatchResult result (λ version. cause ≡ None) (IsUnread cause) }
    ensures written { IsHonest (D.view shelf.old.disk) → (setup : Setup) (s : State) (v : Version) → StandsFor setup shelf.old s → IsPlaced D.view shelf.old s
        → live_of entry.now.digest s.book.live ≡ Some (copy_live entry.now.digest place) → device.entry s entry.now.digest ≡ Some v → Names entry.now v
        → MatchResult result (λ version. version ≡ v) IsUndamaged }
    ensures read { (D.view shelf.old.disk).tells → AllByRecursion (λ b. b.block ≢ place.block) shelf.old.buffers
        → IfOk result (IsRead entry.now (copy_bytes shelf.old.geometry place (D.view shelf.old.disk).seen)) }
    ensures copied { (b : BufferState) (v : Version) → Contains (in_memory shelf.old) b → b.block ≡ place.block → HasRecord b place.unit entry.now.digest v → Names entry.now v
        → IfOk result (λ version. version ≡ v) }
    ensures told { IfErr result (IsUnreadOf D.view entry.now place shelf.old) }
    ensures sound { (setup : Setup) (s : State) (v : Version) (b : BufferState) → StandsFor setup shelf.old s → live_of entry.now.digest s.book.live ≡ Some (copy_live entry.now.digest place)
        → device.entry s entry.now.digest ≡ Some v → Names entry.now v → Contains (in_memory shelf.old) b → b.block ≡ place.block → IfErr result IsUndamaged }
    ensures left { IfErr result (IsShelfLeft D.view shelf.old shelf.new) }
    ensures cause { result ≡ Err MoveRefusal.Fault → Rose (D.view shelf.old.disk).faults (D.view shelf.new.disk).faults }
    ensures kept { (setup : Setup) (s : State) (v : Version) (b : BufferState) → StandsFor setup shelf.old s → live_of entry.now.digest s.book.live ≡ Some (copy_live entry.now.digest place)
        → device.entry s entry.now.digest ≡ Some v → Names entry.now v → Contains (in_memory shelf.old) b → b.block ≡ place.block → shelf.new ≡ shelf.old }
    ensures disk { OnlyRead (D.view shelf.old.disk) (D.view shelf.new.disk) }
    ensures same { shelf.new ≡ record shelf.old { disk = shelf.new.disk } }
{
    match shelf.may_append(entry.units, Class::Move) {
        Ok(()) => {}
        Err(refusal) => return Err(append_refusal(refusal)),
    }
    let read = shelf.read(alloc, &mut Vec::new(alloc), place, entry);
    match read {
        Ok(version) => Ok(version),
        Err(refusal) => Err(read_refusal(refusal)),
    }
}

// The entry with its copy at another place.
fn entry_at(entry: &Entry, place: Place) -> Entry
    ensures { result ≡ moved_to place.block place.unit entry.now }
{
    Entry {
        block: place.block,
        unit: place.unit,
        ..*entry
    }
}

// Where the copy of an entry lies.
fn place_of_entry(entry: &Entry) -> Place
    ensures { result ≡ place_of entry.now }
{
    Place {
        block: entry.block,
        unit: entry.unit,
        units: entry.units,
    }
}
