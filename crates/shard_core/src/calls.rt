// The calls of a shard on one digest: each finds the digest's sprig, and takes its step over it and the shelf.
ghost use Rattle.std.specs.Prelude.{◌≡◌, ◌≢◌, ◌⊎◌, ◌<◌, ◌≤◌, ◌^◌, true, false, None, Some, Ok, Contains, IsOk, IfErr, IfSome, length};
ghost use Rattle.disk_model.specs.Disk.{IsHonest};
ghost use Rattle.rec_format.specs.declared.entry.Entry.{Entry};
ghost use Rattle.rec_format.specs.Places.{device_number};
ghost use Rattle.rec_format.specs.Versions.{units_for};
ghost use Rattle.model_device.specs.Book.{first_block};
ghost use Rattle.model_device.specs.Device.{State, part_of, seen as seen_version};
ghost use Rattle.model_device.specs.Events.{put_call, get_call, delete_call, bury_call};
ghost use Rattle.block_format.specs.declared.geometry.Gate.TheVariants.{Shut};
ghost use Rattle.write_buffer.specs.Buffers.{BufferState};
ghost use Rattle.expiry_rule.specs.Seen.{seen_entry};
ghost use Rattle.tomb_rules.specs.Covers.{cover_of};
ghost use Rattle.block_shelf.specs.Disks.{IsLater, OnlyRead};
ghost use Rattle.block_shelf.specs.Sure.{StaysSure};
ghost use Rattle.block_shelf.specs.View.{IsShelf, gate_at, in_memory};
ghost use Rattle.block_shelf.specs.Standing.{IsPlaced};
ghost use Rattle.write_buffer.specs.declared.stream.Stream.TheVariants.{Client};
ghost use Rattle.block_shelf.specs.Changes.{HasRoom};
ghost use Rattle.block_shelf.specs.Keeping.{KeepsAll};
ghost use Rattle.block_shelf.specs.Reads.{IsUndamaged};
ghost use Rattle.shard_core.specs.Sprigs.{held};
ghost use Rattle.shard_core.specs.Keeping.{KeepsBy, KeepsFew};
ghost use Rattle.shard_core.specs.View.{SameSetup, setup_of};
ghost use Rattle.shard_core.specs.Stands.{Agrees, IsWhole};
ghost use Rattle.shard_core.specs.Calls.{IsRefusedWrite, Makes, GetsStored, write_answer, read_answer, delete_answer, meta_of};
ghost use Rattle.shard_core.specs.Failing.{FailsBy};

use crate::delete::{bury_step, delete_step};
use crate::get::{get_step_in, look_step, meta_step};
use crate::put::put_step;
use crate::{Meta, ReadRefusal, Shard, WriteRefusal};
use disk_model::Disk;
use partition_map::part_number;
use rec_format::{Digest, Stamp, Version, VersionRef};
use std::alloc::Global;

impl<D: Disk> Shard<D> {
    /// At `Ok` this version is the record's, and its stamp is answered; a crash may lose it until its write buffer is flushed, and from
    /// then on, until the record is removed, each crash leaves it or a later one. With commit on it is flushed at `Ok`. `ttl` is in
    /// seconds from `now`, 0 for never; `now` is in milliseconds; `expect` is the generation that has to be seen, 0 for no record. After
    /// a `Fault` the first free block, whose gate couldn't be closed, is at the back of the free ones; or, with commit on, the version
    /// stands in memory, and its buffer is sealed and waits. Any other refusal leaves all as it was, but for memory that was taken.
    /// `put_step` over the digest's sprig.
    pub fn put(
        &mut self,
        alloc: Global,
        digest: &Digest,
        ttl: u32,
        payload: &[u8],
        expect: Option<u16>,
        now: u64,
    ) -> Result<Stamp, WriteRefusal>
        requires named { device_number self.old.shelf.geometry.devices digest.now ≡ self.old.shelf.geometry.device }
        requires ttl { ttl ≤ 315360000 }
        requires size { length payload.now ≤ 2 ^ 31 }
        requires now { now ≤ 2 ^ 61 }
        ensures makes { (s : State) → Agrees self.old s → Makes D.view (put_call digest.now ttl expect payload.now now) (write_answer result) self.old s self.new }

        // With commit off the disk is called only where a buffer begins behind a gate that isn't known to be shut.
        ensures in_room { self.old.set.commit ≡ false → HasRoom Client (units_for (length payload.now)) self.old.shelf.buffers → self.new.shelf.disk ≡ self.old.shelf.disk }
        ensures quiet { self.old.set.commit ≡ false → gate_at self.old.shelf.gates (first_block self.old.shelf.free) ≡ Shut → self.new.shelf.disk ≡ self.old.shelf.disk }

        // A refusal writes nothing, but where commit is on and the flush failed.
        ensures refused { IfErr result (λ refusal. ((refusal ≡ WriteRefusal.Fault) × (self.old.set.commit ≡ true)) ⊎ IsRefusedWrite self.old self.new refusal) }
        ensures sure { StaysSure D.view self.old.shelf self.new.shelf }
        ensures fails { FailsBy result self.old.shelf self.new.shelf }
        ensures kept { KeepsBy self.old.set.commit (units_for (length payload.now)) self.old.shelf self.new.shelf result }
        ensures later { IsLater (D.view self.old.shelf.disk) (D.view self.new.shelf.disk) }
        ensures honest { IsHonest (D.view self.old.shelf.disk) → IsHonest (D.view self.new.shelf.disk) }
        ensures shape { SameSetup self.old self.new }
    {
        let part = self.part_of(digest);
        let before = self.sprigs[part].tally();
        let answer = put_step(
            alloc,
            &mut self.sprigs[part],
            &mut self.shelf,
            &self.set,
            digest,
            ttl,
            payload,
            expect,
            now,
        );
        self.tally = self.tally.minus(before).plus(self.sprigs[part].tally());
        answer
    }

    /// At `Ok` the version that is seen of the digest, none where there is no put or it is expired at `now`, in milliseconds; nothing is
    /// written, and a crash leaves what it left before. On a sound device it is as it was put, and never `Damaged`; so it is on any
    /// device where the block has a write buffer of the clients' stream, or such a flushed buffer is kept. A refusal too leaves all as it
    /// was, but the disk, which was only read.
    pub fn get(
        &mut self,
        alloc: Global,
        digest: &Digest,
        now: u64,
    ) -> Result<Option<Version>, ReadRefusal>
        requires named { device_number self.old.shelf.geometry.devices digest.now ≡ self.old.shelf.geometry.device }
        requires now { now ≤ 2 ^ 61 }
        ensures whole { IsShelf D.view self.old.shelf × IsWhole self.old }
        ensures makes { (s : State) → Agrees self.old s → Makes D.view (get_call digest.now now) (read_answer result) self.old s self.new }

        // A record whose block has a write buffer, or whose flushed buffer is kept, is read without a call of the disk.
        ensures in_memory { (e : Entry) (b : BufferState) → held (setup_of self.old) digest.now self.old.sprigs ≡ Some e → Contains (in_memory self.old.shelf) b → b.block ≡ e.block
            → (self.new ≡ self.old) × IfErr result (λ refusal. refusal ≡ ReadRefusal.Memory) }

        // From a buffer of the clients' stream it is what was put. Where no buffer that isn't flushed has the block, it is what stands at its
        // place, on a disk that tells its bytes.
        ensures stored { GetsStored D.view self.old digest.now now result }

        // Over an honest disk nothing is damaged.
        ensures undamaged { IsHonest (D.view self.old.shelf.disk) → (s : State) → Agrees self.old s → IsPlaced D.view self.old.shelf s → IfErr result IsUndamaged }
        ensures sure { StaysSure D.view self.old.shelf self.new.shelf }
        ensures same { self.new ≡ record self.old { shelf = record self.old.shelf { disk = self.new.shelf.disk } } }
        ensures kept { KeepsAll self.old.shelf self.new.shelf }
        ensures few { KeepsFew self.old }
        ensures disk { OnlyRead (D.view self.old.shelf.disk) (D.view self.new.shelf.disk) }
        ensures shape { SameSetup self.old self.new }
    {
        self.get_in(alloc, &mut Vec::new(alloc), digest, now)
    }

    /// At `Ok` the version that is seen of the digest, none where there is no put or it is expired at `now`, as `get` answers it. Its payload
    /// takes the room that is lent, so memory is asked for only where that is less. `get_step_in` over the digest's sprig.
    pub fn get_in(
        &mut self,
        alloc: Global,
        room: &mut Vec<u8>,
        digest: &Digest,
        now: u64,
    ) -> Result<Option<Version>, ReadRefusal>
        requires named { device_number self.old.shelf.geometry.devices digest.now ≡ self.old.shelf.geometry.device }
        requires now { now ≤ 2 ^ 61 }
        ensures whole { IsShelf D.view self.old.shelf × IsWhole self.old }
        ensures makes { (s : State) → Agrees self.old s → Makes D.view (get_call digest.now now) (read_answer result) self.old s self.new }

        // A record whose block has a write buffer, or whose flushed buffer is kept, is read without a call of the disk.
        ensures in_memory { (e : Entry) (b : BufferState) → held (setup_of self.old) digest.now self.old.sprigs ≡ Some e → Contains (in_memory self.old.shelf) b → b.block ≡ e.block
            → (self.new ≡ self.old) × IfErr result (λ refusal. refusal ≡ ReadRefusal.Memory) }

        // From a buffer of the clients' stream it is what was put. Where no buffer that isn't flushed has the block, it is what stands at its
        // place, on a disk that tells its bytes.
        ensures stored { GetsStored D.view self.old digest.now now result }

        // Over an honest disk nothing is damaged.
        ensures undamaged { IsHonest (D.view self.old.shelf.disk) → (s : State) → Agrees self.old s → IsPlaced D.view self.old.shelf s → IfErr result IsUndamaged }
        ensures sure { StaysSure D.view self.old.shelf self.new.shelf }
        ensures same { self.new ≡ record self.old { shelf = record self.old.shelf { disk = self.new.shelf.disk } } }
        ensures kept { KeepsAll self.old.shelf self.new.shelf }
        ensures few { KeepsFew self.old }
        ensures disk { OnlyRead (D.view self.old.shelf.disk) (D.view self.new.shelf.disk) }
        ensures shape { SameSetup self.old self.new }
    {
        let part = self.part_of(digest);
        get_step_in(
            alloc,
            room,
            &mut self.sprigs[part],
            &mut self.shelf,
            &self.set,
            digest,
            now,
        )
    }

    /// The version that is seen of the digest, as `get` answers it, with its payload lent by the buffer in memory that has it: a write buffer, or
    /// a flushed one that is kept. None where none is seen, and where no such buffer has its record; `get` tells more then. It takes no memory,
    /// calls no disk, and changes nothing. `look_step` over the digest's sprig.
    pub fn look(&self, digest: &Digest, now: u64) -> Option<VersionRef<'_>>
        requires named { device_number self.now.shelf.geometry.devices digest.now ≡ self.now.shelf.geometry.device }
        ensures whole { IsShelf D.view self.now.shelf × IsWhole self.now }

        // So it is one get, which changes nothing.
        ensures makes { (s : State) → Agrees self.now s → IfSome result (λ v. Makes D.view (get_call digest.now now) (read_answer (Ok (Some v))) self.now s self.now) }
        ensures stored { IfSome result (λ v. GetsStored D.view self.now digest.now now (Ok (Some v))) }

        // What is seen isn't missed where a buffer in memory has its block.
        ensures missed { (s : State) (e : Entry) (b : BufferState) → Agrees self.now s → seen_entry now (held (setup_of self.now) digest.now self.now.sprigs) ≡ Some e
            → Contains (in_memory self.now.shelf) b → b.block ≡ e.block → result ≢ None }
    {
        let part = self.part_of(digest);
        look_step(&self.sprigs[part], &self.shelf, digest, now)
    }

    /// The stamp, the void time and the units of the record that is seen at `now`, in milliseconds, by the index alone; none where none
    /// is seen. No disk is called. `meta_step` over the digest's sprig.
    pub fn meta(&self, digest: &Digest, now: u64) -> Option<Meta>
        requires named { device_number self.now.shelf.geometry.devices digest.now ≡ self.now.shelf.geometry.device }
        ensures { (s : State) → Agrees self.now s → result ≡ meta_of (seen_version s now digest.now) }
    {
        meta_step(&self.sprigs[self.part_of(digest)], digest, now)
    }

    /// At `Ok(true)` the record that was seen at `now` is gone, at `Ok(false)` there was none. An uncovered one is removed from the index
    /// alone, without a refusal, and a crash may bring it or an older version back. For a covered one a tombstone is written, with the
    /// refusals of `bury`: once that is flushed, which with commit on it is at `Ok`, no crash brings back what was there before it. What
    /// stands after a refusal is as with `put`. `now` is in milliseconds. `delete_step` over the digest's sprig.
    pub fn delete(&mut self, alloc: Global, digest: &Digest, now: u64) -> Result<bool, WriteRefusal>
        requires named { device_number self.old.shelf.geometry.devices digest.now ≡ self.old.shelf.geometry.device }
        requires now { now ≤ 2 ^ 61 }
        ensures makes { (s : State) → Agrees self.old s → Makes D.view (delete_call digest.now now) (delete_answer result) self.old s self.new }

        // What isn't covered is removed without a call of the disk, and that isn't refused.
        ensures bare { cover_of (seen_entry now (held (setup_of self.old) digest.now self.old.sprigs)) ≡ false → IsOk result × (self.new.shelf.disk ≡ self.old.shelf.disk) }
        ensures refused { IfErr result (λ refusal. ((refusal ≡ WriteRefusal.Fault) × (self.old.set.commit ≡ true)) ⊎ IsRefusedWrite self.old self.new refusal) }
        ensures sure { StaysSure D.view self.old.shelf self.new.shelf }
        ensures fails { FailsBy result self.old.shelf self.new.shelf }
        ensures kept { let covered = cover_of (seen_entry now (held (setup_of self.old) digest.now self.old.sprigs)) in
            (covered ≡ false → KeepsAll self.old.shelf self.new.shelf) × (covered ≡ true → KeepsBy self.old.set.commit (units_for 0) self.old.shelf self.new.shelf result) }
        ensures later { IsLater (D.view self.old.shelf.disk) (D.view self.new.shelf.disk) }
        ensures honest { IsHonest (D.view self.old.shelf.disk) → IsHonest (D.view self.new.shelf.disk) }
        ensures shape { SameSetup self.old self.new }
    {
        let part = self.part_of(digest);
        let before = self.sprigs[part].tally();
        let answer = delete_step(
            alloc,
            &mut self.sprigs[part],
            &mut self.shelf,
            &self.set,
            digest,
            now,
        );
        self.tally = self.tally.minus(before).plus(self.sprigs[part].tally());
        answer
    }

    /// At `Ok` a tombstone stands for the digest, also where there was no record, and its stamp is answered; a crash may lose it until
    /// its write buffer is flushed, and from then on no crash brings back what was there before it. With commit on it is flushed at `Ok`.
    /// `now` is in milliseconds. The refusals are those of `put`, but for size and generation, and leave what those leave. Aerospike's
    /// durable delete; `bury_step` over the digest's sprig.
    pub fn bury(&mut self, alloc: Global, digest: &Digest, now: u64) -> Result<Stamp, WriteRefusal>
        requires named { device_number self.old.shelf.geometry.devices digest.now ≡ self.old.shelf.geometry.device }
        requires now { now ≤ 2 ^ 61 }
        ensures makes { (s : State) → Agrees self.old s → Makes D.view (bury_call digest.now now) (write_answer result) self.old s self.new }
        ensures refused { IfErr result (λ refusal. ((refusal ≡ WriteRefusal.Fault) × (self.old.set.commit ≡ true)) ⊎ IsRefusedWrite self.old self.new refusal) }
        ensures sure { StaysSure D.view self.old.shelf self.new.shelf }
        ensures fails { FailsBy result self.old.shelf self.new.shelf }
        ensures kept { KeepsBy self.old.set.commit (units_for 0) self.old.shelf self.new.shelf result }
        ensures later { IsLater (D.view self.old.shelf.disk) (D.view self.new.shelf.disk) }
        ensures honest { IsHonest (D.view self.old.shelf.disk) → IsHonest (D.view self.new.shelf.disk) }
        ensures shape { SameSetup self.old self.new }
    {
        let part = self.part_of(digest);
        let before = self.sprigs[part].tally();
        let answer = bury_step(
            alloc,
            &mut self.sprigs[part],
            &mut self.shelf,
            &self.set,
            digest,
            now,
        );
        self.tally = self.tally.minus(before).plus(self.sprigs[part].tally());
        answer
    }

    // The part of a digest of the device, which is the place of its sprig.
    pub(crate) fn part_of(&self, digest: &Digest) -> usize
        requires { device_number self.now.shelf.geometry.devices digest.now ≡ self.now.shelf.geometry.device }
        ensures part { result ≡ part_of (setup_of self.now) digest.now }
        ensures there { result < length self.now.sprigs }
        ensures whole { IsWhole self.now }
        ensures shelf { IsShelf D.view self.now.shelf }
    {
        part_number(digest, self.set.sprigs, self.shelf.geometry().devices) as usize
    }
}
