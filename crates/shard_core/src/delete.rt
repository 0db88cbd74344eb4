// Deletes over the sprig of a digest and the shelf: an ordinary one, and a durable one that writes a tombstone.
ghost use Rattle.std.specs.Prelude.{◌≡◌, ◌⊎◌, ◌≤◌, ◌^◌, true, false, Some, IfErr, IsOk, MatchResult};
ghost use Rattle.disk_model.specs.Disk.{IsHonest};
ghost use Rattle.rec_format.specs.Places.{device_number};
ghost use Rattle.rec_format.specs.Versions.{a_tombstone, units_for};
ghost use Rattle.model_device.specs.Book.{Setup};
ghost use Rattle.model_device.specs.Device.{State, part_of};
ghost use Rattle.model_device.specs.Events.{Call, Answer, bury_call, delete_call, happened};
ghost use Rattle.expiry_rule.specs.Seen.{seen_entry};
ghost use Rattle.tomb_rules.specs.Covers.{cover_of};
ghost use Rattle.sprig_tree.specs.Entries.{entry_of};
ghost use Rattle.law_sprig.specs.Becoming.{Loses};
ghost use Rattle.block_shelf.specs.Disks.{IsLater};
ghost use Rattle.block_shelf.specs.Sure.{StaysSure};
ghost use Rattle.block_shelf.specs.View.{SameShape};
ghost use Rattle.block_shelf.specs.Keeping.{KeepsAll};
ghost use Rattle.shard_core.specs.View.{IsSettings, IsSetupBy};
ghost use Rattle.law_steps.specs.Standing.{StandTogether};
ghost use Rattle.shard_core.specs.Calls.{IsRefusedStep, delete_answer, write_answer};
ghost use Rattle.law_steps.specs.Events.{StepMakes};
ghost use Rattle.shard_core.specs.Writing.{IsEntombing, IsRemoving, entombed_answer, written_answer};
ghost use Rattle.shard_core.specs.Keeping.{KeepsBy};
ghost use Rattle.shard_core.specs.Failing.{FailsBy};

use crate::sprigs::place_of_entry;
use crate::write::{stamp_after, write_step};
use crate::{Settings, WriteRefusal};
use arena_sprig::Sprig;
use block_shelf::{Class, Shelf};
use disk_model::Disk;
use expiry_rule::seen;
use rec_format::{Digest, Entry, Kind, Stamp, VersionRef};
use std::alloc::Global;
use tomb_rules::delete_writes;

/// At `Ok(true)` the record that was seen at `now`, in milliseconds, is gone, at `Ok(false)` there was none, and nothing changed. Where
/// no older copy may be behind its entry, the entry is removed in memory alone: no disk is called, it is never refused, and a crash may
/// bring the record or an older version back, as the Aerospike documentation has it of deletes. A covered entry is replaced by a
/// tombstone instead, with the refusals of `bury_step`: once that is flushed, which with commit on it is at `Ok`, no crash brings back
/// what was there before it. What stands after a refusal is as with `put_step`.
pub fn delete_step<D: Disk>(
    alloc: Global,
    sprig: &mut Sprig,
    shelf: &mut Shelf<D>,
    set: &Settings,
    digest: &Digest,
    now: u64,
) -> Result<bool, WriteRefusal>
    requires named { device_number shelf.old.geometry.devices digest.now ≡ shelf.old.geometry.device }
    requires now { now ≤ 2 ^ 61 }
    requires settings { IsSettings set.now }
    requires stand { (setup : Setup) × (s : State) × IsSetupBy set.now setup shelf.old × StandTogether setup (part_of setup digest.now) sprig.old shelf.old s }
    ensures makes { (setup : Setup) (s : State) → IsSetupBy set.now setup shelf.old → StandTogether setup (part_of setup digest.now) sprig.old shelf.old s
        → StepMakes D.view setup (part_of setup digest.now) (delete_call digest.now now) (delete_answer result) shelf.old s sprig.new shelf.new }

    // What isn't covered is removed without a call of the disk, and that isn't refused.
    ensures bare { cover_of (seen_entry now (entry_of digest.now sprig.old.entries)) ≡ false → IsOk result × (shelf.new.disk ≡ shelf.old.disk) }
    ensures refused { IfErr result (λ refusal. ((refusal ≡ WriteRefusal.Fault) × (set.now.commit ≡ true)) ⊎ IsRefusedStep sprig.old sprig.new shelf.old shelf.new refusal) }
    ensures sure { StaysSure D.view shelf.old shelf.new }
    ensures fails { FailsBy result shelf.old shelf.new }
    ensures kept { let covered = cover_of (seen_entry now (entry_of digest.now sprig.old.entries)) in
        (covered ≡ false → KeepsAll shelf.old shelf.new) × (covered ≡ true → KeepsBy set.now.commit (units_for 0) shelf.old shelf.new result) }
    ensures later { IsLater (D.view shelf.old.disk) (D.view shelf.new.disk) }
    ensures honest { IsHonest (D.view shelf.old.disk) → IsHonest (D.view shelf.new.disk) }
    ensures shape { SameShape shelf.old shelf.new }
{
    let found = sprig.find(digest);
    let Some(entry) = seen(found.as_ref(), now) else {
        return Ok(false);
    };
    remove_entry(alloc, sprig, shelf, set, digest, *entry, now)?;
    Ok(true)
}

/// At `Ok` a tombstone stands for the digest, also where there was no record, and its stamp is answered; a crash may lose it until its
/// write buffer is flushed, and from then on no crash brings back what was there before it. With commit on it is flushed at `Ok`. `now`
/// is in milliseconds. It goes to a write buffer as a put does; where a buffer has to begin, 2 blocks have to stay free, and not 4. What
/// stands after a refusal is as with `put_step`. Aerospike's durable delete.
pub fn bury_step<D: Disk>(
    alloc: Global,
    sprig: &mut Sprig,
    shelf: &mut Shelf<D>,
    set: &Settings,
    digest: &Digest,
    now: u64,
) -> Result<Stamp, WriteRefusal>
    requires named { device_number shelf.old.geometry.devices digest.now ≡ shelf.old.geometry.device }
    requires now { now ≤ 2 ^ 61 }
    requires settings { IsSettings set.now }
    requires stand { (setup : Setup) × (s : State) × IsSetupBy set.now setup shelf.old × StandTogether setup (part_of setup digest.now) sprig.old shelf.old s }
    ensures makes { (setup : Setup) (s : State) → IsSetupBy set.now setup shelf.old → StandTogether setup (part_of setup digest.now) sprig.old shelf.old s
        → StepMakes D.view setup (part_of setup digest.now) (bury_call digest.now now) (write_answer result) shelf.old s sprig.new shelf.new }
    ensures refused { IfErr result (λ refusal. ((refusal ≡ WriteRefusal.Fault) × (set.now.commit ≡ true)) ⊎ IsRefusedStep sprig.old sprig.new shelf.old shelf.new refusal) }
    ensures sure { StaysSure D.view shelf.old shelf.new }
    ensures fails { FailsBy result shelf.old shelf.new }
    ensures kept { KeepsBy set.now.commit (units_for 0) shelf.old shelf.new result }
    ensures later { IsLater (D.view shelf.old.disk) (D.view shelf.new.disk) }
    ensures honest { IsHonest (D.view shelf.old.disk) → IsHonest (D.view shelf.new.disk) }
    ensures shape { SameShape shelf.old shelf.new }
{
    let prior = sprig.find(digest);
    entomb(alloc, sprig, shelf, set, digest, prior, now)
}

/// At `Ok` the digest has no record: its entry is removed in memory alone where no older copy may be behind it, which is never refused,
/// and a covered one is replaced by a tombstone. What a crash leaves is as with `delete_step`.
pub(crate) fn remove_entry<D: Disk>(
    alloc: Global,
    sprig: &mut Sprig,
    shelf: &mut Shelf<D>,
    set: &Settings,
    digest: &Digest,
    entry: Entry,
    now: u64,
) -> Result<(), WriteRefusal>
    requires named { device_number shelf.old.geometry.devices digest.now ≡ shelf.old.geometry.device }
    requires found { entry_of digest.now sprig.old.entries ≡ Some entry }
    requires settings { IsSettings set.now }
    requires stand { (setup : Setup) × (s : State) × IsSetupBy set.now setup shelf.old × StandTogether setup (part_of setup digest.now) sprig.old shelf.old s }
    ensures makes { (setup : Setup) (s : State) (call : Call) → IsSetupBy set.now setup shelf.old
        → StandTogether setup (part_of setup digest.now) sprig.old shelf.old s → IsRemoving setup s call digest.now now
        → StepMakes D.view setup (part_of setup digest.now) call (written_answer (happened true) result) shelf.old s sprig.new shelf.new }

    // What isn't covered is removed without a call of the disk, and that isn't refused.
    ensures bare { entry.cover ≡ false → IsOk result × (shelf.new.disk ≡ shelf.old.disk) }
    ensures refused { IfErr result (λ refusal. ((refusal ≡ WriteRefusal.Fault) × (set.now.commit ≡ true)) ⊎ IsRefusedStep sprig.old sprig.new shelf.old shelf.new refusal) }
    ensures sure { StaysSure D.view shelf.old shelf.new }
    ensures fails { FailsBy result shelf.old shelf.new }
    ensures kept { (entry.cover ≡ false → KeepsAll shelf.old shelf.new) × (entry.cover ≡ true → KeepsBy set.now.commit (units_for 0) shelf.old shelf.new result) }
    ensures later { IsLater (D.view shelf.old.disk) (D.view shelf.new.disk) }
    ensures honest { IsHonest (D.view shelf.old.disk) → IsHonest (D.view shelf.new.disk) }
    ensures shape { SameShape shelf.old shelf.new }
{
    if delete_writes(&entry) {
        entomb(alloc, sprig, shelf, set, digest, Some(entry), now)?;
        return Ok(());
    }
    let place = place_of_entry(&entry);
    prove!(place.block < shelf.geometry().blocks);
    shelf.drop_live(place);
    let _gone = sprig.remove(digest);
    Ok(())
}

// Writes a tombstone of a digest, whose entry so far is `found`, and answers its stamp.
fn entomb<D: Disk>(
    alloc: Global,
    sprig: &mut Sprig,
    shelf: &mut Shelf<D>,
    set: &Settings,
    digest: &Digest,
    found: Option<Entry>,
    now: u64,
) -> Result<Stamp, WriteRefusal>
    requires named { device_number shelf.old.geometry.devices digest.now ≡ shelf.old.geometry.device }
    requires found { found ≡ entry_of digest.now sprig.old.entries }
    requires settings { IsSettings set.now }
    requires stand { (setup : Setup) × (s : State) × IsSetupBy set.now setup shelf.old × StandTogether setup (part_of setup digest.now) sprig.old shelf.old s }
    ensures makes { (setup : Setup) (s : State) (call : Call) (ok : Stamp → Answer) → IsSetupBy set.now setup shelf.old
        → StandTogether setup (part_of setup digest.now) sprig.old shelf.old s → IsEntombing setup s call digest.now now ok
        → StepMakes D.view setup (part_of setup digest.now) call (entombed_answer ok result) shelf.old s sprig.new shelf.new }
    ensures refused { IfErr result (λ refusal. ((refusal ≡ WriteRefusal.Fault) × (set.now.commit ≡ true)) ⊎ IsRefusedStep sprig.old sprig.new shelf.old shelf.new refusal) }
    ensures sure { StaysSure D.view shelf.old shelf.new }
    ensures fails { FailsBy result shelf.old shelf.new }
    ensures kept { KeepsBy set.now.commit (units_for 0) shelf.old shelf.new result }
    ensures later { IsLater (D.view shelf.old.disk) (D.view shelf.new.disk) }
    ensures honest { IsHonest (D.view shelf.old.disk) → IsHonest (D.view shelf.new.disk) }
    ensures shape { SameShape shelf.old shelf.new }
{
    let stamp = stamp_after(found, sprig.hw(), now)?;
    let tombstone = tombstone(stamp);
    write_step(
        alloc,
        sprig,
        shelf,
        set,
        digest,
        &tombstone,
        found,
        Class::Tomb,
    )
}

fn tombstone(stamp: Stamp) -> VersionRef<'static>
    ensures { result ≡ a_tombstone stamp }
{
    VersionRef {
        kind: Kind::Tomb,
        stamp,
        void: 0,
        cover: true,
        payload: b"".as_slice(),
    }
}
