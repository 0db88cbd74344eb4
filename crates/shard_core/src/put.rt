// A put over the sprig of its digest and the shelf: what the one look-up finds decides the version that it writes.
ghost use Rattle.std.specs.Prelude.{◌≡◌, ◌⊎◌, ◌≤◌, ◌^◌, true, false, length, IfErr, MatchResult};
ghost use Rattle.std.specs.Option.{option_copied};
ghost use Rattle.disk_model.specs.Disk.{IsHonest};
ghost use Rattle.rec_format.specs.Places.{device_number};
ghost use Rattle.rec_format.specs.Versions.{units_for, block_capacity, a_put};
ghost use Rattle.model_device.specs.Book.{Setup, first_block};
ghost use Rattle.model_device.specs.Device.{State, part_of};
ghost use Rattle.model_device.specs.Events.{put_call};
ghost use Rattle.block_format.specs.declared.geometry.Gate.TheVariants.{Shut};
ghost use Rattle.law_sprig.specs.Tests.{generation_seen};
ghost use Rattle.block_shelf.specs.Disks.{IsLater};
ghost use Rattle.block_shelf.specs.Sure.{StaysSure};
ghost use Rattle.block_shelf.specs.View.{SameShape, gate_at};
ghost use Rattle.write_buffer.specs.declared.stream.Stream.TheVariants.{Client};
ghost use Rattle.block_shelf.specs.Changes.{HasRoom};
ghost use Rattle.shard_core.specs.View.{IsSettings, IsSetupBy};
ghost use Rattle.law_steps.specs.Standing.{StandTogether};
ghost use Rattle.shard_core.specs.Calls.{IsRefusedStep, write_answer};
ghost use Rattle.law_steps.specs.Events.{StepMakes};
ghost use Rattle.shard_core.specs.Writing.{IsExpected, IsFit, IsUnfit};
ghost use Rattle.shard_core.specs.Keeping.{KeepsBy};
ghost use Rattle.shard_core.specs.Failing.{FailsBy};

use crate::write::{stamp_after, write_step};
use crate::{Settings, WriteRefusal};
use arena_sprig::Sprig;
use block_format::capacity;
use block_shelf::{Class, Shelf};
use disk_model::Disk;
use expiry_rule::{seen, void_of};
use rec_format::{Digest, Entry, Kind, Stamp, VersionRef, units_of};
use std::alloc::Global;
use tomb_rules::cover_after;

/// At `Ok` this version is the record's, and its stamp is answered; a crash may lose it until its write buffer is flushed, and from then
/// on, until the record is removed, each crash leaves it or a later one. With commit on it is flushed at `Ok`, with all that was sealed
/// before it. `ttl` is in seconds from `now`, 0 for never; `now` is in milliseconds; `expect` is the generation that has to be seen, 0
/// for no record. Without commit the disk is called only to close the gate of a block in which a buffer begins, if that isn't known to be
/// shut. After a `Fault` there the block goes to the back of the free ones, and nothing is written; after a `Fault` of the flush the
/// version stands, pending; after any other refusal all is as before, but for memory that was taken.
pub fn put_step<D: Disk>(
    alloc: Global,
    sprig: &mut Sprig,
    shelf: &mut Shelf<D>,
    set: &Settings,
    digest: &Digest,
    ttl: u32,
    payload: &[u8],
    expect: Option<u16>,
    now: u64,
) -> Result<Stamp, WriteRefusal>
    requires named { device_number shelf.old.geometry.devices digest.now ≡ shelf.old.geometry.device }
    requires ttl { ttl ≤ 315360000 }
    requires size { length payload.now ≤ 2 ^ 31 }
    requires now { now ≤ 2 ^ 61 }
    requires settings { IsSettings set.now }
    requires stand { (setup : Setup) × (s : State) × IsSetupBy set.now setup shelf.old × StandTogether setup (part_of setup digest.now) sprig.old shelf.old s }
    ensures makes { (setup : Setup) (s : State) → IsSetupBy set.now setup shelf.old → StandTogether setup (part_of setup digest.now) sprig.old shelf.old s
        → StepMakes D.view setup (part_of setup digest.now) (put_call digest.now ttl expect payload.now now) (write_answer result) shelf.old s sprig.new shelf.new }

    // With commit off the disk is called only where a buffer begins behind a gate that isn't known to be shut.
    ensures in_room { set.now.commit ≡ false → HasRoom Client (units_for (length payload.now)) shelf.old.buffers → shelf.new.disk ≡ shelf.old.disk }
    ensures quiet { set.now.commit ≡ false → gate_at shelf.old.gates (first_block shelf.old.free) ≡ Shut → shelf.new.disk ≡ shelf.old.disk }

    // A refusal writes nothing, but where commit is on and the flush failed.
    ensures refused { IfErr result (λ refusal. ((refusal ≡ WriteRefusal.Fault) × (set.now.commit ≡ true)) ⊎ IsRefusedStep sprig.old sprig.new shelf.old shelf.new refusal) }
    ensures sure { StaysSure D.view shelf.old shelf.new }
    ensures fails { FailsBy result shelf.old shelf.new }
    ensures kept { KeepsBy set.now.commit (units_for (length payload.now)) shelf.old shelf.new result }
    ensures later { IsLater (D.view shelf.old.disk) (D.view shelf.new.disk) }
    ensures honest { IsHonest (D.view shelf.old.disk) → IsHonest (D.view shelf.new.disk) }
    ensures shape { SameShape shelf.old shelf.new }
{
    let found = sprig.find(digest);
    let block_size = shelf.geometry().block_size;
    check_put(
        payload,
        capacity(block_size),
        expect,
        generation_of(found, now),
    )?;
    let stamp = stamp_after(found, sprig.hw(), now)?;
    let version = new_put(
        stamp,
        void_of(ttl, now),
        cover_after(found.as_ref()),
        payload,
    );
    write_step(
        alloc,
        sprig,
        shelf,
        set,
        digest,
        &version,
        found,
        Class::Put,
    )
}

// The generation of what is seen of an entry, 0 for nothing.
fn generation_of(found: Option<Entry>, now: u64) -> u16
    ensures { result ≡ generation_seen now found }
{
    match seen(found.as_ref(), now) {
        Some(entry) => entry.stamp.gen_,
        None => 0,
    }
}

// Whether the payload fits into a block, and the generation is the one that is expected.
fn check_put(
    payload: &[u8],
    capacity: u32,
    expect: Option<u16>,
    seen: u16,
) -> Result<(), WriteRefusal>
    requires { length payload.now ≤ 2 ^ 31 }
    ensures { MatchResult result (λ done. IsFit (length payload.now) capacity expect seen) (IsUnfit (length payload.now) capacity expect seen) }
{
    let units = units_of(payload.len() as u32);
    if units > capacity {
        return Err(WriteRefusal::Big { units, capacity });
    }
    let Some(wanted) = expect else {
        return Ok(());
    };
    if wanted != seen {
        return Err(WriteRefusal::Gen { seen });
    }
    Ok(())
}

// A put, whose payload is lent.
fn new_put(stamp: Stamp, void: u64, cover: bool, payload: &[u8]) -> VersionRef<'_>
    ensures { result ≡ a_put stamp void cover payload.now }
{
    VersionRef {
        kind: Kind::Put,
        stamp,
        void,
        cover,
        payload,
    }
}
