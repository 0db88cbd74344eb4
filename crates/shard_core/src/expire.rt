// How what is expired is removed: the entry of one digest, and the entries of a part.
ghost use Rattle.std.specs.Prelude.{◌≡◌, ◌⊎◌, ◌<◌, ◌≤◌, ◌^◌, true, false, IsOk, IfOk, IfErr, slice_get};
ghost use Rattle.disk_model.specs.Disk.{IsHonest};
ghost use Rattle.rec_format.specs.Places.{device_number};
ghost use Rattle.rec_format.specs.Versions.{units_for};
ghost use Rattle.model_device.specs.Book.{Setup};
ghost use Rattle.model_device.specs.Device.{State, part_of};
ghost use Rattle.model_device.specs.Steps.{part_total};
ghost use Rattle.model_device.specs.Events.{expire_call};
ghost use Rattle.expiry_rule.specs.Seen.{expired_entry};
ghost use Rattle.tomb_rules.specs.Covers.{cover_of};
ghost use Rattle.sprig_tree.specs.Entries.{entry_of};
ghost use Rattle.block_shelf.specs.Disks.{IsLater};
ghost use Rattle.block_shelf.specs.Sure.{StaysSure};
ghost use Rattle.block_shelf.specs.View.{SameShape};
ghost use Rattle.block_shelf.specs.Keeping.{KeepsAll};
ghost use Rattle.law_steps.specs.Standing.{StandTogether};
ghost use Rattle.law_steps.specs.Events.{StepMakes};
ghost use Rattle.shard_core.specs.Keeping.{KeepsBy, KeepsThrough};
ghost use Rattle.shard_core.specs.View.{IsSettings, IsSetupBy, SameSetup, setup_of};
ghost use Rattle.shard_core.specs.Sprigs.{held};
ghost use Rattle.shard_core.specs.Stands.{Agrees, IsWhole};
ghost use Rattle.shard_core.specs.Calls.{IsRefusedStep, Makes, delete_answer};
ghost use Rattle.shard_core.specs.Vacating.{MakesEvents};
ghost use Rattle.shard_core.specs.Expiring.{AreBare, IsExpiring, IsOfRemoval, expired_among, expired_left};
ghost use Rattle.shard_core.specs.Failing.{FailsBy};

use crate::delete::remove_entry;
use crate::{ExpireRefusal, Settings, Shard, WriteRefusal};
use arena_sprig::Sprig;
use block_shelf::Shelf;
use disk_model::Disk;
use expiry_rule::expired_put;
use rec_format::Digest;
use std::alloc::Global;

/// At `Ok(true)` the entry of the digest, a put that was expired at `now`, in milliseconds, is removed; at `Ok(false)` it was no such
/// put, and nothing changed. Where no older copy may be behind it, it is removed in memory alone: no disk is called, it is never refused,
/// and a crash may bring it or an older version back. A covered entry is replaced by a tombstone instead, with the refusals of
/// `bury_step`: once that is flushed, no crash brings back what was there before it. What stands after a refusal is as with `put_step`.
pub fn expire_step<D: Disk>(
    alloc: Global,
    sprig: &mut Sprig,
    shelf: &mut Shelf<D>,
    set: &Settings,
    digest: &Digest,
    now: u64,
) -> Result<bool, WriteRefusal>
    requires named { device_number shelf.old.geometry.devices digest.now ≡ shelf.old.geometry.device }
    requires now { now ≤ 2 ^ 61 }
    requires settings { IsSettings set.now }
    requires stand { (setup : Setup) × (s : State) × IsSetupBy set.now setup shelf.old × StandTogether setup (part_of setup digest.now) sprig.old shelf.old s }
    ensures makes { (setup : Setup) (s : State) → IsSetupBy set.now setup shelf.old → StandTogether setup (part_of setup digest.now) sprig.old shelf.old s
        → StepMakes D.view setup (part_of setup digest.now) (expire_call digest.now now) (delete_answer result) shelf.old s sprig.new shelf.new }

    // What isn't both expired and covered is answered without a call of the disk, and that isn't refused.
    ensures bare { cover_of (expired_entry now (entry_of digest.now sprig.old.entries)) ≡ false → IsOk result × (shelf.new.disk ≡ shelf.old.disk) }
    ensures refused { IfErr result (λ refusal. ((refusal ≡ WriteRefusal.Fault) × (set.now.commit ≡ true)) ⊎ IsRefusedStep sprig.old sprig.new shelf.old shelf.new refusal) }
    ensures sure { StaysSure D.view shelf.old shelf.new }
    ensures fails { FailsBy result shelf.old shelf.new }
    ensures kept { let covered = cover_of (expired_entry now (entry_of digest.now sprig.old.entries)) in
        (covered ≡ false → KeepsAll shelf.old shelf.new) × (covered ≡ true → KeepsBy set.now.commit (units_for 0) shelf.old shelf.new result) }
    ensures later { IsLater (D.view shelf.old.disk) (D.view shelf.new.disk) }
    ensures honest { IsHonest (D.view shelf.old.disk) → IsHonest (D.view shelf.new.disk) }
    ensures shape { SameShape shelf.old shelf.new }
{
    let found = sprig.find(digest);
    let Some(entry) = expired_put(found.as_ref(), now) else {
        return Ok(false);
    };
    remove_entry(alloc, sprig, shelf, set, digest, *entry, now)?;
    Ok(true)
}

/// The digest of the first entry of a sprig behind a digest, or of all, that is a put which was expired at `now`, in milliseconds; none
/// where there is none.
pub fn next_expired(sprig: &Sprig, last: Option<Digest>, now: u64) -> Option<Digest>
    ensures { result ≡ slice_get (expired_among sprig.now.entries now last) 0 }
{
    let mut next = sprig.next_after(last.as_ref());
    while let Some(entry) = next {
        if expired_put(Some(&entry), now).is_some() {
            return Some(entry.digest);
        }
        next = sprig.next_after(Some(&entry.digest));
    }
    None
}

impl<D: Disk> Shard<D> {
    /// At `Ok` the entries of the part that were expired at `now`, in milliseconds, are removed, in digest order, and it answers how
    /// many; what a crash leaves of each is as with `expire_step`. One without older copies behind it is removed in memory alone; a
    /// covered one is replaced by a tombstone. A refusal tells how many were removed before, and these stay removed; what the one leaves
    /// that was refused is as with `expire_step`, and those behind it are as before.
    pub fn expire_part(&mut self, alloc: Global, part: u32, now: u64) -> Result<u64, ExpireRefusal>
        requires part { part < part_total (setup_of self.old) }
        requires now { now ≤ 2 ^ 61 }
        ensures makes { (s : State) → Agrees self.old s → MakesEvents D.view (IsExpiring self.old part now s result) self.old s self.new }
        ensures few { IfOk result (λ removed. removed ≤ 2 ^ 32) }

        // Where no entry of the part is both expired and covered, it isn't refused, the disk isn't called, and all is kept of flushed buffers.
        ensures bare { AreBare self.old part now → IsOk result × (self.new.shelf.disk ≡ self.old.shelf.disk) × KeepsAll self.old.shelf self.new.shelf }
        ensures never { IfErr result (λ refusal. IsOfRemoval refusal.cause) }
        ensures sure { StaysSure D.view self.old.shelf self.new.shelf }
        ensures fails { FailsBy result self.old.shelf self.new.shelf }

        // What was kept of flushed buffers goes only where a buffer begins, and by flushes, of which there are none with commit off.
        ensures kept { KeepsThrough self.old.set.commit self.old.shelf self.new.shelf }
        ensures later { IsLater (D.view self.old.shelf.disk) (D.view self.new.shelf.disk) }
        ensures honest { IsHonest (D.view self.old.shelf.disk) → IsHonest (D.view self.new.shelf.disk) }
        ensures shape { SameSetup self.old self.new }
    {
        // By its shape the device has at most 2^32 places, and each entry has a copy at a place of its own.
        let _shape = self.shelf.geometry();
        let mut removed = 0;
        let mut last = None;
        while let Some(digest) = self.next_expired(part, last, now) {
            if let Err(cause) = self.expire(alloc, &digest, now) {
                return Err(ExpireRefusal { removed, cause });
            }
            removed += 1;
            last = Some(digest);
        }
        Ok(removed)
    }

    // Removes the entry of a digest, where it is a put that is expired: `expire_step` over the digest's sprig.
    fn expire(&mut self, alloc: Global, digest: &Digest, now: u64) -> Result<bool, WriteRefusal>
        requires named { device_number self.old.shelf.geometry.devices digest.now ≡ self.old.shelf.geometry.device }
        requires now { now ≤ 2 ^ 61 }
        ensures makes { (s : State) → Agrees self.old s → Makes D.view (expire_call digest.now now) (delete_answer result) self.old s self.new }
        ensures bare { cover_of (expired_entry now (held (setup_of self.old) digest.now self.old.sprigs)) ≡ false
            → IsOk result × (self.new.shelf.disk ≡ self.old.shelf.disk) × KeepsAll self.old.shelf self.new.shelf }
        ensures sure { StaysSure D.view self.old.shelf self.new.shelf }
        ensures fails { FailsBy result self.old.shelf self.new.shelf }
        ensures kept { KeepsThrough self.old.set.commit self.old.shelf self.new.shelf }
        ensures later { IsLater (D.view self.old.shelf.disk) (D.view self.new.shelf.disk) }
        ensures honest { IsHonest (D.view self.old.shelf.disk) → IsHonest (D.view self.new.shelf.disk) }
        ensures shape { SameSetup self.old self.new }
    {
        let part = self.part_of(digest);
        let before = self.sprigs[part].tally();
        let answer = expire_step(
            alloc,
            &mut self.sprigs[part],
            &mut self.shelf,
            &self.set,
            digest,
            now,
        );
        self.tally = self.tally.minus(before).plus(self.sprigs[part].tally());
        answer
    }

    // The first digest of a part behind another, or of all, whose entry is expired.
    fn next_expired(&self, part: u32, last: Option<Digest>, now: u64) -> Option<Digest>
        requires { part < part_total (setup_of self.now) }
        ensures next { result ≡ slice_get (expired_left self.now part now last) 0 }
        ensures whole { IsWhole self.now }
    {
        next_expired(&self.sprigs[part as usize], last, now)
    }
}
