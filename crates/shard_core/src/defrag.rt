// How a block is vacated: the one that has waited longest is chosen, and its records are moved, one after another.
ghost use Rattle.std.specs.Prelude.{◌≡◌, ◌<◌, ◌≤◌, ◌^◌, ℕ, true, false, Some, length, IfOk, IfErr, IfSome, MatchOption, MatchResult};
ghost use Rattle.disk_model.specs.Disk.{IsHonest};
ghost use Rattle.rec_format.specs.Places.{device_number};
ghost use Rattle.model_device.specs.Device.{State};
ghost use Rattle.model_device.specs.Events.{Answer, happened, move_call};
ghost use Rattle.model_device.specs.Legal.{queue_front};
ghost use Rattle.model_device.specs.Vacating.{moved_by};
ghost use Rattle.sprig_tree.specs.Entries.{entry_of};
ghost use Rattle.rec_format.specs.declared.version.Digest.{Digest};
ghost use Rattle.block_format.specs.Layout.{body_bytes};
ghost use Rattle.block_flusher.specs.Images.{IsBodyOf};
ghost use Rattle.block_shelf.specs.Disks.{IsLater};
ghost use Rattle.block_shelf.specs.Vacating.{IsReadNext};
ghost use Rattle.block_shelf.specs.Sure.{StaysSure};
ghost use Rattle.defrag_pass.specs.Choosing.{HasFew};
ghost use Rattle.shard_core.specs.View.{SameSetup, setup_of};
ghost use Rattle.shard_core.specs.Stands.{Agrees};
ghost use Rattle.shard_core.specs.Calls.{Makes};
ghost use Rattle.shard_core.specs.Keeping.{KeepsThrough};
ghost use Rattle.shard_core.specs.Vacating.{MakesEvents, HasBodyUnless, HasParts, IsDamageFound, IsDamageIn, IsMoved, IsMovedSome, IsMovedOut, IsNextIn, IsVacating, NoneLies, lies_in};
ghost use Rattle.shard_core.specs.Failing.{FailsBy};

use crate::refusals::{move_answer, vacate_cause};
use crate::{DefragCause, DefragRefusal, Shard};
use arena_sprig::Sprig;
use defrag_pass::{choose_step, move_one};
use disk_model::Disk;
use partition_map::device_of;
use rec_format::Digest;
use std::alloc::Global;

/// A write block that was vacated, by its number, and how many records were moved out of it.
#[derive(Clone, Copy, Debug, PartialEq, Eq)]
pub struct Vacated {
    pub block: u32,
    pub moved: u32,
}

impl<D: Disk> Shard<D> {
    /// At `Ok` nothing is live in the block that had waited longest, and it answers the block and how many records were moved, none
    /// exactly where no block waited; of what was flushed no crash loses anything by it. A moved record goes to a write buffer; the block
    /// is held until that is flushed. A refusal tells how many records were moved before, and these stay moved; the one that wasn't moved
    /// and those behind it are as before, and after a `Fault` the first free block, whose gate couldn't be closed, may be at the back of
    /// the free ones. Aerospike's defragmentation.
    pub fn defrag_one(&mut self, alloc: Global) -> Result<Option<Vacated>, DefragRefusal>
        ensures makes { (s : State) → Agrees self.old s → MakesEvents D.view (IsVacating self.old s result) self.old s self.new }
        ensures few { IfOk result (λ done. IfSome done (λ vacated. vacated.moved < 2 ^ 16)) }
        ensures sure { StaysSure D.view self.old.shelf self.new.shelf }
        ensures fails { FailsBy result self.old.shelf self.new.shelf }

        // What was kept of flushed buffers goes only where a buffer begins, to which records are moved.
        ensures kept { KeepsThrough false self.old.shelf self.new.shelf }

        // Damage is told of the block that had waited longest alone: of a record in it, by what its entry keeps and what stands at its
        // place; or of its body, exactly where that was read from the disk and isn't one.
        ensures damaged { (block : ℕ) → queue_front self.old.shelf.queue.queue ≡ Some block → IfErr result (λ refusal. IsDamageFound D.view block self.old self.new refusal.cause) }
        ensures body { (D.view self.old.shelf.disk).tells → (block : ℕ) → IsReadNext self.old.shelf block
            → let HasBody = IsBodyOf self.old.shelf.geometry block (body_bytes self.old.shelf.geometry block (D.view self.old.shelf.disk).seen) in
            MatchResult result (λ done. HasBody) (λ refusal. HasBodyUnless HasBody refusal.cause) }
        ensures later { IsLater (D.view self.old.shelf.disk) (D.view self.new.shelf.disk) }
        ensures honest { IsHonest (D.view self.old.shelf.disk) → IsHonest (D.view self.new.shelf.disk) }
        ensures shape { SameSetup self.old self.new }
    {
        match choose_step(&mut self.shelf, &mut self.listed) {
            Ok(Some(block)) => match self.vacate(alloc, block) {
                Ok(moved) => Ok(Some(Vacated { block, moved })),
                Err(refusal) => Err(refusal),
            },
            Ok(None) => Ok(None),
            Err(refusal) => Err(DefragRefusal {
                moved: 0,
                cause: vacate_cause(refusal),
            }),
        }
    }
}

impl<D: Disk> Shard<D> {
    // Moves the records of the digests that were listed, and then those that the index has in the block besides: of these there are none but
    // over a disk that doesn't give what was written.
    fn vacate(&mut self, alloc: Global, block: u32) -> Result<u32, DefragRefusal>
        requires block { block < self.old.shelf.geometry.blocks }
        requires low { (s : State) × Agrees self.old s × HasFew block s.book }
        ensures makes { (s : State) → Agrees self.old s → HasFew block s.book → MakesEvents D.view (IsMovedOut (setup_of self.old) block s result) self.old s self.new }
        ensures few { IfOk result (λ moved. moved < 2 ^ 16) }
        ensures sure { StaysSure D.view self.old.shelf self.new.shelf }
        ensures fails { FailsBy result self.old.shelf self.new.shelf }
        ensures kept { KeepsThrough false self.old.shelf self.new.shelf }
        ensures damaged { IfErr result (λ refusal. IsDamageIn (D.view self.old.shelf.disk).tells D.view block self.new refusal.cause) }
        ensures later { IsLater (D.view self.old.shelf.disk) (D.view self.new.shelf.disk) }
        ensures honest { IsHonest (D.view self.old.shelf.disk) → IsHonest (D.view self.new.shelf.disk) }
        ensures shape { SameSetup self.old self.new }
    {
        let moved = self.move_listed(alloc, block)?;
        match self.move_rest(alloc, block) {
            Ok(rest) => Ok(moved + rest),
            Err(refusal) => Err(DefragRefusal {
                moved: moved + refusal.moved,
                cause: refusal.cause,
            }),
        }
    }

    // Moves the records of the device's digests that were listed, where they lie in the block.
    fn move_listed(&mut self, alloc: Global, block: u32) -> Result<u32, DefragRefusal>
        requires low { (s : State) × Agrees self.old s × HasFew block s.book }
        ensures makes { (s : State) → Agrees self.old s → HasFew block s.book → MakesEvents D.view (IsMovedSome (setup_of self.old) block s result) self.old s self.new }
        ensures few { IfOk result (λ moved. moved < 2 ^ 16) }
        ensures sure { StaysSure D.view self.old.shelf self.new.shelf }
        ensures fails { FailsBy result self.old.shelf self.new.shelf }
        ensures kept { KeepsThrough false self.old.shelf self.new.shelf }
        ensures damaged { IfErr result (λ refusal. IsDamageIn (D.view self.old.shelf.disk).tells D.view block self.new refusal.cause) }
        ensures tells { (D.view self.old.shelf.disk).tells → (D.view self.new.shelf.disk).tells }
        ensures later { IsLater (D.view self.old.shelf.disk) (D.view self.new.shelf.disk) }
        ensures honest { IsHonest (D.view self.old.shelf.disk) → IsHonest (D.view self.new.shelf.disk) }
        ensures shape { SameSetup self.old self.new }
    {
        let mut moved = 0;
        for at in 0..self.listed.len() {
            if let Some(digest) = self.listed_at(at) {
                match self.move_record(alloc, &digest, block) {
                    Ok(was_there) => moved += count_of(was_there),
                    Err(cause) => return Err(DefragRefusal { moved, cause }),
                }
            }
        }
        Ok(moved)
    }

    // The digest that was listed at a place, if it is the device's.
    fn listed_at(&self, at: usize) -> Option<Digest>
        ensures { IfSome result (λ digest. device_number self.now.shelf.geometry.devices digest ≡ self.now.shelf.geometry.device) }
    {
        let shape = self.shelf.geometry();
        match self.listed.get(at) {
            Some(digest) if device_of(digest, shape.devices) == shape.device => Some(*digest),
            _ => None,
        }
    }

    // Moves the records of all entries that lie in the block, part after part, until nothing is live in it.
    fn move_rest(&mut self, alloc: Global, block: u32) -> Result<u32, DefragRefusal>
        requires block { block < self.old.shelf.geometry.blocks }
        requires low { (s : State) × Agrees self.old s × HasFew block s.book }
        ensures makes { (s : State) → Agrees self.old s → HasFew block s.book → MakesEvents D.view (IsMovedOut (setup_of self.old) block s result) self.old s self.new }
        ensures sure { StaysSure D.view self.old.shelf self.new.shelf }
        ensures fails { FailsBy result self.old.shelf self.new.shelf }
        ensures kept { KeepsThrough false self.old.shelf self.new.shelf }
        ensures damaged { IfErr result (λ refusal. IsDamageIn (D.view self.old.shelf.disk).tells D.view block self.new refusal.cause) }
        ensures later { IsLater (D.view self.old.shelf.disk) (D.view self.new.shelf.disk) }
        ensures honest { IsHonest (D.view self.old.shelf.disk) → IsHonest (D.view self.new.shelf.disk) }
        ensures shape { SameSetup self.old self.new }
    {
        let left = self.shelf.used(block);
        let mut part = 0;
        for moved in 0..left {
            let Some(digest) = self.next_in(block, part) else {
                return Ok(moved);
            };
            part = self.part_of(&digest);
            if let Err(cause) = self.move_record(alloc, &digest, block) {
                return Err(DefragRefusal { moved, cause });
            }
        }
        Ok(left)
    }

    // The digest of an entry that lies in the block, of the first part from this one on that has such an entry.
    fn next_in(&self, block: u32, from: usize) -> Option<Digest>
        ensures next { MatchOption result (NoneLies self.now block from (length self.now.sprigs)) (IsNextIn self.now block from) }
        ensures parts { HasParts self.now }
    {
        // By its shape the device has a part for each of its digests.
        let _shape = self.shelf.geometry();
        for part in from..self.sprigs.len() {
            let found = first_in(&self.sprigs[part], block);
            if found.is_some() {
                return found;
            }
        }
        None
    }

    // Moves the record of a digest out of a block: `move_one` over the digest's sprig.
    fn move_record(
        &mut self,
        alloc: Global,
        digest: &Digest,
        block: u32,
    ) -> Result<bool, DefragCause>
        requires named { device_number self.old.shelf.geometry.devices digest.now ≡ self.old.shelf.geometry.device }
        ensures makes { (s : State) → Agrees self.old s → (answer : Answer) × IsMoved result answer × Makes D.view (move_call digest.now block) answer self.old s self.new }
        ensures sure { StaysSure D.view self.old.shelf self.new.shelf }
        ensures fails { FailsBy result self.old.shelf self.new.shelf }
        ensures kept { KeepsThrough false self.old.shelf self.new.shelf }
        ensures damaged { IfErr result (IsDamageIn (D.view self.old.shelf.disk).tells D.view block self.new) }
        ensures tells { (D.view self.old.shelf.disk).tells → (D.view self.new.shelf.disk).tells }
        ensures later { IsLater (D.view self.old.shelf.disk) (D.view self.new.shelf.disk) }
        ensures honest { IsHonest (D.view self.old.shelf.disk) → IsHonest (D.view self.new.shelf.disk) }
        ensures shape { SameSetup self.old self.new }
    {
        let part = self.part_of(digest);
        let before = self.sprigs[part].tally();
        let answer = move_one(
            alloc,
            &mut self.sprigs[part],
            &mut self.shelf,
            digest,
            block,
        );
        self.tally = self.tally.minus(before).plus(self.sprigs[part].tally());
        move_answer(answer)
    }
}

// A record that was in the block counts as one that was moved.
fn count_of(was_there: bool) -> u32
    ensures moved { result ≡ moved_by (happened was_there) }
    ensures one { result ≤ 1 }
{
    if was_there { 1 } else { 0 }
}

/// The digest of the first entry of a sprig that lies in a block.
pub fn first_in(sprig: &Sprig, block: u32) -> Option<Digest>
    ensures { MatchOption result ((digest : Digest) → lies_in block (entry_of digest sprig.now.entries) ≡ false) (λ digest. lies_in block (entry_of digest sprig.now.entries) ≡ true) }
{
    let mut next = sprig.next_after(None);
    while let Some(entry) = next {
        if entry.block == block {
            return Some(entry.digest);
        }
        next = sprig.next_after(Some(&entry.digest));
    }
    None
}
