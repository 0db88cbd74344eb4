// Reads over the sprig of a digest: its record, from the shelf, and what is known of it without one.
ghost use Rattle.std.specs.Prelude.{◌≡◌, ◌≤◌, ◌^◌, ◌≢◌, None, Some, Ok, Contains, IfErr, IfSome};
ghost use Rattle.disk_model.specs.Disk.{IsHonest};
ghost use Rattle.rec_format.specs.declared.entry.Entry.{Entry};
ghost use Rattle.rec_format.specs.Places.{device_number};
ghost use Rattle.model_device.specs.Book.{Setup};
ghost use Rattle.model_device.specs.Device.{State, part_of, seen as seen_version};
ghost use Rattle.model_device.specs.Events.{get_call};
ghost use Rattle.write_buffer.specs.Buffers.{BufferState};
ghost use Rattle.expiry_rule.specs.Seen.{seen_entry};
ghost use Rattle.sprig_tree.specs.Entries.{entry_of};
ghost use Rattle.block_shelf.specs.Disks.{OnlyRead};
ghost use Rattle.block_shelf.specs.View.{in_memory};
ghost use Rattle.block_shelf.specs.Standing.{IsPlaced};
ghost use Rattle.block_shelf.specs.Reads.{IsUndamaged};
ghost use Rattle.shard_core.specs.View.{IsSettings, IsSetupBy};
ghost use Rattle.law_steps.specs.Standing.{SprigStands, StandTogether};
ghost use Rattle.shard_core.specs.Calls.{ReadsStored, read_answer, meta_of};
ghost use Rattle.law_steps.specs.Events.{StepMakes};

use crate::sprigs::place_of_entry;
use crate::{ReadRefusal, Settings};
use arena_sprig::Sprig;
use block_shelf::Shelf;
use disk_model::Disk;
use expiry_rule::seen;
use rec_format::{Digest, Stamp, Version, VersionRef};
use std::alloc::Global;

/// What is known of a record without reading it: its stamp (last update time and generation), its void time, the second from which it is
/// expired, 0 for never, and its units of 16 bytes.
#[derive(Clone, Copy, PartialEq, Eq)]
pub struct Meta {
    pub stamp: Stamp,
    pub void: u64,
    pub units: u32,
}

/// At `Ok` the version that is seen of the digest, none where there is no put or it is expired at `now`, in milliseconds; nothing is
/// written, and a crash leaves what it left before. It is read from its write buffer, or from its flushed buffer while the post-write
/// queue keeps that, without a call of the disk, or else from its block with one. From a flushed buffer too it is what stands on a disk
/// that tells its bytes. What is read from such a disk is `Damaged` exactly where it hasn't the head of the entry's record; on a sound
/// device nothing is damaged, and a version is as it was put. A refusal too leaves all as it was, but the disk, which was only read.
pub fn get_step<D: Disk>(
    alloc: Global,
    sprig: &mut Sprig,
    shelf: &mut Shelf<D>,
    set: &Settings,
    digest: &Digest,
    now: u64,
) -> Result<Option<Version>, ReadRefusal>
    requires named { device_number shelf.old.geometry.devices digest.now ≡ shelf.old.geometry.device }
    requires now { now ≤ 2 ^ 61 }
    requires settings { IsSettings set.now }
    requires stand { (setup : Setup) × (s : State) × IsSetupBy set.now setup shelf.old × StandTogether setup (part_of setup digest.now) sprig.old shelf.old s }
    ensures makes { (setup : Setup) (s : State) → IsSetupBy set.now setup shelf.old → StandTogether setup (part_of setup digest.now) sprig.old shelf.old s
        → StepMakes D.view setup (part_of setup digest.now) (get_call digest.now now) (read_answer result) shelf.old s sprig.new shelf.new }

    // A record whose block has a write buffer, or whose flushed buffer is kept, is read without a call of the disk.
    ensures in_memory { (e : Entry) (b : BufferState) → entry_of digest.now sprig.old.entries ≡ Some e → Contains (in_memory shelf.old) b → b.block ≡ e.block
        → (shelf.new ≡ shelf.old) × IfErr result (λ refusal. refusal ≡ ReadRefusal.Memory) }

    // From a buffer of the clients' stream it is what was put. Where no buffer that isn't flushed has the block, it is what stands at its
    // place, on a disk that tells its bytes.
    ensures stored { (setup : Setup) → IsSetupBy set.now setup shelf.old
        → ReadsStored D.view (StandTogether setup (part_of setup digest.now) sprig.old shelf.old) (entry_of digest.now sprig.old.entries) shelf.old digest.now now result }

    // Over an honest disk nothing is damaged.
    ensures undamaged { IsHonest (D.view shelf.old.disk) → (setup : Setup) (s : State) → IsSetupBy set.now setup shelf.old
        → StandTogether setup (part_of setup digest.now) sprig.old shelf.old s → IsPlaced D.view shelf.old s → IfErr result IsUndamaged }
    ensures disk { OnlyRead (D.view shelf.old.disk) (D.view shelf.new.disk) }
    ensures sprig { sprig.new ≡ sprig.old }
    ensures shelf { shelf.new ≡ record shelf.old { disk = shelf.new.disk } }
{
    get_step_in(alloc, &mut Vec::new(alloc), sprig, shelf, set, digest, now)
}

/// At `Ok` the version that is seen of the digest, none where there is no put or it is expired at `now`, as `get_step` answers it. Its payload
/// takes the room that is lent, so memory is asked for only where that is less.
pub fn get_step_in<D: Disk>(
    alloc: Global,
    room: &mut Vec<u8>,
    sprig: &mut Sprig,
    shelf: &mut Shelf<D>,
    set: &Settings,
    digest: &Digest,
    now: u64,
) -> Result<Option<Version>, ReadRefusal>
    requires named { device_number shelf.old.geometry.devices digest.now ≡ shelf.old.geometry.device }
    requires now { now ≤ 2 ^ 61 }
    requires settings { IsSettings set.now }
    requires stand { (setup : Setup) × (s : State) × IsSetupBy set.now setup shelf.old × StandTogether setup (part_of setup digest.now) sprig.old shelf.old s }
    ensures makes { (setup : Setup) (s : State) → IsSetupBy set.now setup shelf.old → StandTogether setup (part_of setup digest.now) sprig.old shelf.old s
        → StepMakes D.view setup (part_of setup digest.now) (get_call digest.now now) (read_answer result) shelf.old s sprig.new shelf.new }

    // A record whose block has a write buffer, or whose flushed buffer is kept, is read without a call of the disk.
    ensures in_memory { (e : Entry) (b : BufferState) → entry_of digest.now sprig.old.entries ≡ Some e → Contains (in_memory shelf.old) b → b.block ≡ e.block
        → (shelf.new ≡ shelf.old) × IfErr result (λ refusal. refusal ≡ ReadRefusal.Memory) }

    // From a buffer of the clients' stream it is what was put. Where no buffer that isn't flushed has the block, it is what stands at its
    // place, on a disk that tells its bytes.
    ensures stored { (setup : Setup) → IsSetupBy set.now setup shelf.old
        → ReadsStored D.view (StandTogether setup (part_of setup digest.now) sprig.old shelf.old) (entry_of digest.now sprig.old.entries) shelf.old digest.now now result }

    // Over an honest disk nothing is damaged.
    ensures undamaged { IsHonest (D.view shelf.old.disk) → (setup : Setup) (s : State) → IsSetupBy set.now setup shelf.old
        → StandTogether setup (part_of setup digest.now) sprig.old shelf.old s → IsPlaced D.view shelf.old s → IfErr result IsUndamaged }
    ensures disk { OnlyRead (D.view shelf.old.disk) (D.view shelf.new.disk) }
    ensures sprig { sprig.new ≡ sprig.old }
    ensures shelf { shelf.new ≡ record shelf.old { disk = shelf.new.disk } }
{
    let found = sprig.find(digest);
    let Some(entry) = seen(found.as_ref(), now) else {
        return Ok(None);
    };
    match shelf.read(alloc, room, place_of_entry(entry), entry) {
        Ok(version) => Ok(Some(version)),
        Err(refusal) => Err(refusal),
    }
}

/// The version that is seen of the digest, as `get_step` answers it, with its payload lent by the buffer in memory that has it: a write buffer, or a
/// flushed one that is kept. None where none is seen, and where no such buffer has its record. It takes no memory, calls no disk, and changes
/// nothing.
pub(crate) fn look_step<'a, D: Disk>(
    sprig: &Sprig,
    shelf: &'a Shelf<D>,
    digest: &Digest,
    now: u64,
) -> Option<VersionRef<'a>>
    requires stand { (setup : Setup) × (s : State) × StandTogether setup (part_of setup digest.now) sprig.now shelf.now s }
    ensures makes { (setup : Setup) (s : State) → StandTogether setup (part_of setup digest.now) sprig.now shelf.now s
        → IfSome result (λ v. StepMakes D.view setup (part_of setup digest.now) (get_call digest.now now) (read_answer (Ok (Some v))) shelf.now s sprig.now shelf.now) }
    ensures stored { (setup : Setup) → IfSome result (λ v. ReadsStored D.view (StandTogether setup (part_of setup digest.now) sprig.now shelf.now)
        (entry_of digest.now sprig.now.entries) shelf.now digest.now now (Ok (Some v))) }

    // What is seen isn't missed where a buffer in memory has its block.
    ensures missed { (setup : Setup) (s : State) (e : Entry) (b : BufferState) → StandTogether setup (part_of setup digest.now) sprig.now shelf.now s → seen_entry now (entry_of digest.now sprig.now.entries) ≡ Some e
        → Contains (in_memory shelf.now) b → b.block ≡ e.block → result ≢ None }
{
    let found = sprig.find(digest);
    let shown = seen(found.as_ref(), now)?;
    shelf.look(place_of_entry(shown), shown)
}

/// The stamp, the void time and the units of the record that is seen at `now`, in milliseconds, by its sprig alone; none where none is
/// seen. It takes no memory, calls no disk, and isn't refused.
pub fn meta_step(sprig: &Sprig, digest: &Digest, now: u64) -> Option<Meta>
    ensures { (setup : Setup) (s : State) → SprigStands setup (part_of setup digest.now) sprig.now s → result ≡ meta_of (seen_version s now digest.now) }
{
    let found = sprig.find(digest);
    let entry = seen(found.as_ref(), now)?;
    Some(Meta {
        stamp: entry.stamp,
        void: entry.void,
        units: entry.units,
    })
}
