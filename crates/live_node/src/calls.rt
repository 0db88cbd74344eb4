// The calls on one digest: each is one event of the device.
ghost use Rattle.std.specs.Prelude.{◌≡◌, ◌≤◌, ◌^◌, length, OnOk};
ghost use Rattle.model_device.specs.Events.{put_call, bury_call, delete_call, get_call};
ghost use Rattle.shard_core.specs.Calls.{write_answer, delete_answer, read_answer};
ghost use Rattle.turn_table.specs.Passes.{view, KeepsNumbers};
ghost use Rattle.live_node.specs.Opening.{IsOwn};
ghost use Rattle.live_node.specs.Calls.{seen_by, AnswersOnce};
ghost use Rattle.live_node.specs.Commits.{LastIsFlushed, NewestIsFlushed};
ghost use Rattle.live_node.specs.Lives.{opening_at, IsPassAt};

use crate::live::Live;
use crate::machine::LivePass;
use crate::reads::Get;
use crate::writes::{Bury, Delete, Put};
use block_shelf::ReadRefusal;
use disk_model::Disk;
use rec_format::{Digest, Stamp, Version};
use shard_core::WriteRefusal;
use std::alloc::Global;
use std::sync::Wait;

impl<D: Disk> Live<D> {
    /// Writes a version of a record, as `Shard::put` does, and answers its stamp. `ttl` is in seconds from `now`, 0 for never; `now` is in
    /// milliseconds; `expect` is the generation that has to be seen, 0 for no record. It is one event of the device; with commit on what it wrote
    /// is flushed in the state after it. A refusal leaves the state before it, but that after a `Fault` the first free block may be at the back, or
    /// with commit on the version stands unflushed, as `Shard::put` has it.
    pub fn put<R: Wait>(
        &self,
        alloc: Global,
        rt: &R,
        pass: &mut LivePass<D>,
        digest: &Digest,
        ttl: u32,
        payload: &[u8],
        expect: Option<u16>,
        now: u64,
    ) -> Result<Stamp, WriteRefusal>
        requires pass { IsPassAt self.now pass.old }
        requires own { IsOwn (opening_at self.now) digest.now }
        requires ttl { ttl ≤ 315360000 }
        requires size { length payload.now ≤ 2 ^ 31 }
        requires now { now ≤ 2 ^ 61 }
        ensures pass { IsPassAt self.now pass.new }
        ensures numbers { KeepsNumbers pass.old pass.new }
        ensures once { AnswersOnce D.view (opening_at self.now) (view pass.old) (view pass.new) (put_call digest.now ttl expect payload.now now) (write_answer result) }
        ensures flushed { OnOk result (NewestIsFlushed (opening_at self.now) (seen_by (view pass.new)) digest.now) }
    {
        let part = self.part_of(digest);
        let put = Put {
            digest,
            ttl,
            payload,
            expect,
            now,
        };
        self.turn(alloc, &mut Vec::new(alloc), rt, pass, part, &put)
    }

    /// The record that is seen of a digest at `now`, in milliseconds, as `Shard::get` answers it. It is one event of the device, and leaves the
    /// state before it, refused or not.
    pub fn get<R: Wait>(
        &self,
        alloc: Global,
        rt: &R,
        pass: &mut LivePass<D>,
        digest: &Digest,
        now: u64,
    ) -> Result<Option<Version>, ReadRefusal>
        requires pass { IsPassAt self.now pass.old }
        requires own { IsOwn (opening_at self.now) digest.now }
        requires now { now ≤ 2 ^ 61 }
        ensures pass { IsPassAt self.now pass.new }
        ensures numbers { KeepsNumbers pass.old pass.new }
        ensures once { AnswersOnce D.view (opening_at self.now) (view pass.old) (view pass.new) (get_call digest.now now) (read_answer result) }
    {
        self.get_in(alloc, &mut Vec::new(alloc), rt, pass, digest, now)
    }

    /// The record that is seen of a digest at `now`, in milliseconds, as `get` answers it. Its payload takes the room that is lent, so memory is
    /// asked for only where that is less.
    pub fn get_in<R: Wait>(
        &self,
        alloc: Global,
        room: &mut Vec<u8>,
        rt: &R,
        pass: &mut LivePass<D>,
        digest: &Digest,
        now: u64,
    ) -> Result<Option<Version>, ReadRefusal>
        requires pass { IsPassAt self.now pass.old }
        requires own { IsOwn (opening_at self.now) digest.now }
        requires now { now ≤ 2 ^ 61 }
        ensures pass { IsPassAt self.now pass.new }
        ensures numbers { KeepsNumbers pass.old pass.new }
        ensures once { AnswersOnce D.view (opening_at self.now) (view pass.old) (view pass.new) (get_call digest.now now) (read_answer result) }
    {
        let part = self.part_of(digest);
        self.turn(alloc, room, rt, pass, part, &Get { digest, now })
    }

    /// Deletes a record, as `Shard::delete` does, and answers whether one was seen at `now`, in milliseconds. It is one event of the device; with
    /// commit on its tombstone, if it wrote one, is flushed in the state after it. What a refusal leaves is as with `put`.
    pub fn delete<R: Wait>(
        &self,
        alloc: Global,
        rt: &R,
        pass: &mut LivePass<D>,
        digest: &Digest,
        now: u64,
    ) -> Result<bool, WriteRefusal>
        requires pass { IsPassAt self.now pass.old }
        requires own { IsOwn (opening_at self.now) digest.now }
        requires now { now ≤ 2 ^ 61 }
        ensures pass { IsPassAt self.now pass.new }
        ensures numbers { KeepsNumbers pass.old pass.new }
        ensures once { AnswersOnce D.view (opening_at self.now) (view pass.old) (view pass.new) (delete_call digest.now now) (delete_answer result) }
        ensures flushed { OnOk result (LastIsFlushed (opening_at self.now) (seen_by (view pass.new))) }
    {
        let part = self.part_of(digest);
        self.turn(
            alloc,
            &mut Vec::new(alloc),
            rt,
            pass,
            part,
            &Delete { digest, now },
        )
    }

    /// Deletes a digest durably, as `Shard::bury` does, and answers the stamp of its tombstone. It is one event of the device; with commit on the
    /// tombstone is flushed in the state after it. What a refusal leaves is as with `put`.
    pub fn bury<R: Wait>(
        &self,
        alloc: Global,
        rt: &R,
        pass: &mut LivePass<D>,
        digest: &Digest,
        now: u64,
    ) -> Result<Stamp, WriteRefusal>
        requires pass { IsPassAt self.now pass.old }
        requires own { IsOwn (opening_at self.now) digest.now }
        requires now { now ≤ 2 ^ 61 }
        ensures pass { IsPassAt self.now pass.new }
        ensures numbers { KeepsNumbers pass.old pass.new }
        ensures once { AnswersOnce D.view (opening_at self.now) (view pass.old) (view pass.new) (bury_call digest.now now) (write_answer result) }
        ensures flushed { OnOk result (NewestIsFlushed (opening_at self.now) (seen_by (view pass.new)) digest.now) }
    {
        let part = self.part_of(digest);
        self.turn(
            alloc,
            &mut Vec::new(alloc),
            rt,
            pass,
            part,
            &Bury { digest, now },
        )
    }
}
