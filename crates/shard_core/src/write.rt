// How a version is written: its copy is appended, its entry goes into the sprig, and with commit on its buffer is flushed.
ghost use Rattle.std.specs.Prelude.{◌≡◌, ◌⊎◌, ◌<◌, ◌≤◌, ◌^◌, ◌∷◌, true, false, Some, None, Err, List, length, option_map, is_some, IfOk, IfErr, IfSome, MatchResult, OnOk, OnErr};
ghost use Rattle.model_faults.specs.Counts.{Rose};
ghost use Rattle.disk_model.specs.Disk.{IsHonest};
ghost use Rattle.rec_format.specs.Places.{device_number};
ghost use Rattle.rec_format.specs.Versions.{IsVersion, new_stamp, version_units};
ghost use Rattle.law_sprig.specs.Tests.{stamp_found};
ghost use Rattle.rec_format.specs.Entries.{entry_at as entry_of_copy};
ghost use Rattle.model_device.specs.Book.{Setup, Buffer, client, filling_buffer, first_block};
ghost use Rattle.model_device.specs.Device.{State, part_of};
ghost use Rattle.model_device.specs.Steps.{Step, sealed_stream, after_step};
ghost use Rattle.model_device.specs.Events.{Call, Answer};
ghost use Rattle.model_device.specs.Legal.{flush_between};
ghost use Rattle.write_buffer.specs.declared.stream.Stream.TheVariants.{Client};
ghost use Rattle.block_format.specs.declared.geometry.Gate.TheVariants.{Shut};
ghost use Rattle.sprig_tree.specs.Entries.{entry_of};
ghost use Rattle.law_sprig.specs.Becoming.{TakesEntry};
ghost use Rattle.block_shelf.specs.Disks.{IsLater};
ghost use Rattle.block_shelf.specs.Sure.{StaysSure};
ghost use Rattle.block_shelf.specs.Standing.{StandsFor};
ghost use Rattle.block_shelf.specs.View.{IsShelf, IsSetupOf, SameShape, gate_at};
ghost use Rattle.block_shelf.specs.Appends.{BeginsInFirst, stream_of};
ghost use Rattle.block_shelf.specs.Changes.{HasRoom};
ghost use Rattle.block_shelf.specs.Calls.{Goes};
ghost use Rattle.law_steps.specs.Sprigs.{place_of, HasTimes};
ghost use Rattle.shard_core.specs.View.{IsSettings, IsSetupBy};
ghost use Rattle.law_steps.specs.Standing.{StandTogether};
ghost use Rattle.shard_core.specs.Calls.{IsRefusedStep, IsShelfLeft};
ghost use Rattle.law_steps.specs.Events.{StepMakes};
ghost use Rattle.shard_core.specs.Writing.{IsWriteOf, Wrote, IsUnwritten, Commits, written_answer};
ghost use Rattle.shard_core.specs.Keeping.{SealsAndFlushes, KeepsBy};
ghost use Rattle.shard_core.specs.Failing.{FailsBy};

use crate::flush::flush_up_to;
use crate::refusals::write_refusal;
use crate::sprigs::place_of_entry;
use crate::{Settings, WriteRefusal};
use arena_sprig::Sprig;
use block_shelf::{Class, Place, Shelf};
use disk_model::Disk;
use rec_format::{Digest, Entry, Stamp, VersionRef, next_stamp};
use std::alloc::Global;

/// Writes a version of a digest, whose entry so far is `found`, and answers its stamp. It goes to a write buffer; with commit on it is
/// flushed before the answer, with all that was sealed before it. After a fault of that flush it stands all the same, pending. After any
/// other refusal sprig and shelf are as before, but for memory that was taken, and for a first free block whose gate couldn't be closed.
pub(crate) fn write_step<D: Disk>(
    alloc: Global,
    sprig: &mut Sprig,
    shelf: &mut Shelf<D>,
    set: &Settings,
    digest: &Digest,
    version: &VersionRef<'_>,
    found: Option<Entry>,
    class: Class,
) -> Result<Stamp, WriteRefusal>
    requires named { device_number shelf.old.geometry.devices digest.now ≡ shelf.old.geometry.device }
    requires version { IsVersion version.now }
    requires size { length version.now.payload ≤ 2 ^ 31 }
    requires client { stream_of class ≡ Client }
    requires found { found ≡ entry_of digest.now sprig.old.entries }
    requires settings { IsSettings set.now }
    requires stand { (setup : Setup) × (s : State) × IsSetupBy set.now setup shelf.old × StandTogether setup (part_of setup digest.now) sprig.old shelf.old s }
    ensures makes { (setup : Setup) (s : State) (call : Call) (ok : Answer) → IsSetupBy set.now setup shelf.old
        → StandTogether setup (part_of setup digest.now) sprig.old shelf.old s → IsWriteOf setup s call class digest.now version.now ok
        → StepMakes D.view setup (part_of setup digest.now) call (written_answer ok result) shelf.old s sprig.new shelf.new }
    ensures stamp { IfOk result (λ stamp. stamp ≡ version.now.stamp) }

    // With commit off the disk is called only where a buffer begins behind a gate that isn't known to be shut.
    ensures in_room { set.now.commit ≡ false → HasRoom Client (version_units version.now) shelf.old.buffers → shelf.new.disk ≡ shelf.old.disk }
    ensures quiet { set.now.commit ≡ false → gate_at shelf.old.gates (first_block shelf.old.free) ≡ Shut → shelf.new.disk ≡ shelf.old.disk }
    ensures refused { IfErr result (λ refusal. ((refusal ≡ WriteRefusal.Fault) × (set.now.commit ≡ true)) ⊎ IsRefusedStep sprig.old sprig.new shelf.old shelf.new refusal) }
    ensures sure { StaysSure D.view shelf.old shelf.new }
    ensures fails { FailsBy result shelf.old shelf.new }
    ensures kept { KeepsBy set.now.commit (version_units version.now) shelf.old shelf.new result }
    ensures later { IsLater (D.view shelf.old.disk) (D.view shelf.new.disk) }
    ensures honest { IsHonest (D.view shelf.old.disk) → IsHonest (D.view shelf.new.disk) }
    ensures shape { SameShape shelf.old shelf.new }
    ensures whole { IsShelf D.view shelf.old }
{
    let block = append_entry(alloc, sprig, shelf, digest, version, found, class)?;
    if !set.commit {
        return Ok(version.stamp);
    }
    commit(shelf, block)?;
    Ok(version.stamp)
}

/// The stamp of a digest's next version, by its entry and the high time of its sprig.
pub(crate) fn stamp_after(found: Option<Entry>, high: u64, now: u64) -> Result<Stamp, WriteRefusal>
    ensures { MatchResult result (λ stamp. new_stamp (stamp_found found) high now ≡ Some stamp) (λ refusal. (refusal ≡ WriteRefusal.Spent) × (new_stamp (stamp_found found) high now ≡ None)) }
{
    let prior = match found {
        Some(entry) => Some(entry.stamp),
        None => None,
    };
    match next_stamp(prior, high, now) {
        Ok(stamp) => Ok(stamp),
        Err(_) => Err(WriteRefusal::Spent),
    }
}

// Appends a copy of the version, and enters it into the sprig; answers its block.
fn append_entry<D: Disk>(
    alloc: Global,
    sprig: &mut Sprig,
    shelf: &mut Shelf<D>,
    digest: &Digest,
    version: &VersionRef<'_>,
    found: Option<Entry>,
    class: Class,
) -> Result<u32, WriteRefusal>
    requires named { device_number shelf.old.geometry.devices digest.now ≡ shelf.old.geometry.device }
    requires version { IsVersion version.now }
    requires size { length version.now.payload ≤ 2 ^ 31 }
    requires client { stream_of class ≡ Client }
    requires found { found ≡ entry_of digest.now sprig.old.entries }
    requires stand { (setup : Setup) × (s : State) × IsSetupOf setup shelf.old × StandTogether setup (part_of setup digest.now) sprig.old shelf.old s }
    ensures wrote { (setup : Setup) (s : State) → IsSetupOf setup shelf.old → StandTogether setup (part_of setup digest.now) sprig.old shelf.old s
        → MatchResult result (λ block. Wrote D.view setup s class digest.now version.now block shelf.old sprig.new shelf.new) (λ refusal. IsUnwritten D.view setup s class digest.now version.now refusal shelf.old sprig.new shelf.new) }
    ensures refused { IfErr result (IsRefusedStep sprig.old sprig.new shelf.old shelf.new) }
    ensures kept { OnOk result (BeginsInFirst Client (version_units version.now) shelf.old shelf.new) }
    ensures in_room { HasRoom Client (version_units version.now) shelf.old.buffers → shelf.new.disk ≡ shelf.old.disk }
    ensures quiet { gate_at shelf.old.gates (first_block shelf.old.free) ≡ Shut → shelf.new.disk ≡ shelf.old.disk }
    ensures cause { result ≡ Err WriteRefusal.Fault → Rose (D.view shelf.old.disk).faults (D.view shelf.new.disk).faults }
    ensures sure { StaysSure D.view shelf.old shelf.new }
    ensures fails { FailsBy result shelf.old shelf.new }
    ensures later { IsLater (D.view shelf.old.disk) (D.view shelf.new.disk) }
    ensures honest { IsHonest (D.view shelf.old.disk) → IsHonest (D.view shelf.new.disk) }
    ensures shape { SameShape shelf.old shelf.new }
    ensures whole { IsShelf D.view shelf.old }
{
    let prior = prior_place(shelf, found);
    let Ok(()) = sprig.reserve(1) else {
        return Err(WriteRefusal::Memory);
    };
    match shelf.append(alloc, digest, version, prior, class) {
        Ok(place) => {
            enter(sprig, found.is_some(), entry_at(digest, version, place));
            Ok(place.block)
        }
        Err(refusal) => Err(write_refusal(refusal)),
    }
}

// Where the digest's copy lies, if it has an entry.
fn prior_place<D: Disk>(shelf: &Shelf<D>, found: Option<Entry>) -> Option<Place>
    requires within { IfSome found (λ e. e.block < shelf.now.geometry.blocks) }
    ensures place { result ≡ option_map place_of found }
    ensures whole { IsShelf D.view shelf.now }
{
    let blocks = shelf.geometry().blocks;
    let entry = found?;
    let place = place_of_entry(&entry);
    prove!(place.block < blocks);
    Some(place)
}

// The entry takes the place of the digest's entry, if it is known to have one, or comes in, in room that was reserved.
fn enter(sprig: &mut Sprig, known: bool, entry: Entry)
    requires room { 1 ≤ sprig.old.spare }
    requires known { known ≡ is_some (entry_of entry.digest sprig.old.entries) }
    ensures { TakesEntry entry sprig.old sprig.new }
{
    if known {
        sprig.replace(entry);
    } else {
        sprig.insert(entry);
    }
}

// The entry of a version whose copy lies there. It isn't marked.
fn entry_at(digest: &Digest, version: &VersionRef<'_>, place: Place) -> Entry
    requires units { place.units ≡ version_units version.now }
    ensures { result ≡ entry_of_copy digest.now version.now place.block place.unit }
{
    Entry {
        digest: *digest,
        stamp: version.stamp,
        void: version.void,
        kind: version.kind,
        cover: version.cover,
        mark: 0,
        block: place.block,
        unit: place.unit,
        units: place.units,
    }
}

// Seals the buffer of a block that was just written to, and flushes what is sealed, up to that buffer.
fn commit<D: Disk>(shelf: &mut Shelf<D>, block: u32) -> Result<(), WriteRefusal>
    ensures committed { (setup : Setup) (s : State) (b : Buffer) → IsSetupOf setup shelf.old → StandsFor setup shelf.old s → filling_buffer client s.book.buffers ≡ Some b → b.block ≡ block
        → (steps : List Step) × Commits result (flush_between 0 b.number (after_step setup (sealed_stream client) s).book) steps × Goes D.view setup (sealed_stream client ∷ steps) shelf.old s shelf.new }
    ensures fault { IfErr result (λ refusal. refusal ≡ WriteRefusal.Fault) }
    ensures kept { (setup : Setup) (s : State) (b : Buffer) → IsSetupOf setup shelf.old → StandsFor setup shelf.old s → filling_buffer client s.book.buffers ≡ Some b → b.block ≡ block
        → SealsAndFlushes shelf.old shelf.new }
    ensures cause { OnErr result (Rose (D.view shelf.old.disk).faults (D.view shelf.new.disk).faults) }
    ensures sure { StaysSure D.view shelf.old shelf.new }
    ensures fails { FailsBy result shelf.old shelf.new }
    ensures later { IsLater (D.view shelf.old.disk) (D.view shelf.new.disk) }
    ensures honest { IsHonest (D.view shelf.old.disk) → IsHonest (D.view shelf.new.disk) }
    ensures shape { SameShape shelf.old shelf.new }
{
    let Some(number) = shelf.number_at(block) else {
        return Ok(());
    };
    shelf.seal_for(block);
    match flush_up_to(shelf, number) {
        Ok(_) => Ok(()),
        Err(_) => Err(WriteRefusal::Fault),
    }
}
