// How what is expired in a part is removed, entry after entry.
ghost use Rattle.std.specs.Prelude.{◌≡◌, ◌<◌, ◌≤◌, ◌^◌, [], false, Some, length, slice_get};
ghost use Rattle.model_device.specs.Steps.{part_total};
ghost use Rattle.model_device.specs.Events.{expire_call, happened};
ghost use Rattle.model_device.specs.Passes.{done_by};
ghost use Rattle.shard_core.specs.Calls.{delete_answer};
ghost use Rattle.shard_core.specs.Expiring.{expired_among};
ghost use Rattle.turn_table.specs.Passes.{view, KeepsNumbers};
ghost use Rattle.live_node.specs.Opening.{setup_at};
ghost use Rattle.live_node.specs.Fits.{PartFits};
ghost use Rattle.live_node.specs.Calls.{seen_by, AnswersOnce, IsRight};
ghost use Rattle.live_node.specs.Lives.{opening_at, Holds, IsPassAt};
ghost use Rattle.live_node.specs.Sweeps.{left_behind, Sweeps};
ghost use Rattle.live_node.specs.Turns.{ExpiresNext};

use crate::live::Live;
use crate::machine::LivePass;
use crate::steps::{EventCall, Step};
use arena_sprig::Sprig;
use block_shelf::Shelf;
use disk_model::Disk;
use rec_format::Digest;
use shard_core::{ExpireRefusal, Settings, WriteRefusal, expire_step, next_expired};
use std::alloc::Global;
use std::sync::Wait;

#[derive(Drop)]
pub(crate) struct Expire<'a> {
    pub digest: &'a Digest,
    pub now: u64,
}

impl<'a> EventCall for Expire<'a> {
    ghost use Rattle.std.specs.Prelude.{◌≡◌};
    ghost use Rattle.model_device.specs.Events.{expire_call};
    ghost use Rattle.shard_core.specs.Calls.{delete_answer};

    type Answer = Result<bool, WriteRefusal>;

    ghost call = { λ c. expire_call c.digest.now c.now };

    ghost answers = { λ c result answer. answer ≡ delete_answer result };
}

impl<'a, D: Disk> Step<D> for Expire<'a> {
    ghost use Rattle.std.specs.Prelude.{◌≤◌, ◌^◌, refl};
    ghost use Rattle.model_device.specs.Device.{part_of};

    ghost asks = { λ c. c.now ≤ 2 ^ 61 };

    ghost part = { λ c setup. part_of setup c.digest.now };

    fn step(
        &self,
        alloc: Global,
        _room: &mut Vec<u8>,
        sprig: &mut Sprig,
        shelf: &mut Shelf<D>,
        set: &Settings,
    ) -> Result<bool, WriteRefusal> {
        expire_step(alloc, sprig, shelf, set, self.digest, self.now)
    }

    ghost named = { λ c setup. refl };
}

impl<D: Disk> Live<D> {
    /// Removes the entries of a part that are expired at `now`, in milliseconds, in digest order, as `Shard::expire_part` does, and answers how
    /// many. The pass has the part through all of it, and takes the shelf for each entry: each removal is one event of the device. At a refusal
    /// those before it stay removed, and that one leaves what a refused `delete` leaves.
    pub fn expire_part<R: Wait>(
        &self,
        alloc: Global,
        rt: &R,
        pass: &mut LivePass<D>,
        part: u32,
        now: u64,
    ) -> Result<u64, ExpireRefusal>
        requires pass { IsPassAt self.now pass.old }
        requires part { part < part_total (setup_at (opening_at self.now)) }
        requires now { now ≤ 2 ^ 61 }
        ensures pass { IsPassAt self.now pass.new }
        ensures numbers { KeepsNumbers pass.old pass.new }
        ensures sweeps { Sweeps D.view (opening_at self.now) (view pass.old) (view pass.new) part now result }
    {
        self.known();
        let mut sprig = self.take_part(rt, pass, part);
        let answer = self.sweep(alloc, rt, pass, &mut sprig, part, now);
        self.give_part(pass, sprig, part);
        answer
    }

    /// Removes the first entry of a part that is expired at `now`, in milliseconds, in digest order. That is one event of the device; it
    /// answers false where none is expired, and there is no event then. What a refusal leaves is as with `delete`.
    pub fn expire_next<R: Wait>(
        &self,
        alloc: Global,
        rt: &R,
        pass: &mut LivePass<D>,
        part: u32,
        now: u64,
    ) -> Result<bool, WriteRefusal>
        requires pass { IsPassAt self.now pass.old }
        requires part { part < part_total (setup_at (opening_at self.now)) }
        requires now { now ≤ 2 ^ 61 }
        ensures pass { IsPassAt self.now pass.new }
        ensures numbers { KeepsNumbers pass.old pass.new }
        ensures expires { ExpiresNext D.view (opening_at self.now) (view pass.old) (view pass.new) part now result }
    {
        self.known();
        let mut sprig = self.take_part(rt, pass, part);
        let answer = self.expire_first(alloc, rt, pass, &mut sprig, part, now);
        self.give_part(pass, sprig, part);
        answer
    }

    // Removes the first entry that is expired in the part that the pass holds, if there is one.
    fn expire_first<R: Wait>(
        &self,
        alloc: Global,
        rt: &R,
        pass: &mut LivePass<D>,
        sprig: &mut Sprig,
        part: u32,
        now: u64,
    ) -> Result<bool, WriteRefusal>
        requires pass { Holds self.now (Some part) false pass.old }
        requires here { IsRight D.view (opening_at self.now) (view pass.old) (view pass.old) [] }
        requires fits { PartFits (opening_at self.now) (seen_by (view pass.old)) part sprig.old }
        requires now { now ≤ 2 ^ 61 }
        ensures pass { Holds self.now (Some part) false pass.new }
        ensures numbers { KeepsNumbers pass.old pass.new }
        ensures fits { PartFits (opening_at self.now) (seen_by (view pass.new)) part sprig.new }
        ensures expires { ExpiresNext D.view (opening_at self.now) (view pass.old) (view pass.new) part now result }
    {
        match next_expired(sprig, None, now) {
            Some(digest) => self.expire(alloc, rt, pass, sprig, part, None, &digest, now),
            None => Ok(false),
        }
    }

    // Removes what is expired in the part that the pass holds.
    fn sweep<R: Wait>(
        &self,
        alloc: Global,
        rt: &R,
        pass: &mut LivePass<D>,
        sprig: &mut Sprig,
        part: u32,
        now: u64,
    ) -> Result<u64, ExpireRefusal>
        requires pass { Holds self.now (Some part) false pass.old }
        requires here { IsRight D.view (opening_at self.now) (view pass.old) (view pass.old) [] }
        requires fits { PartFits (opening_at self.now) (seen_by (view pass.old)) part sprig.old }
        requires now { now ≤ 2 ^ 61 }
        ensures pass { Holds self.now (Some part) false pass.new }
        ensures numbers { KeepsNumbers pass.old pass.new }
        ensures fits { PartFits (opening_at self.now) (seen_by (view pass.new)) part sprig.new }
        ensures sweeps { Sweeps D.view (opening_at self.now) (view pass.old) (view pass.new) part now result }
    {
        // A sprig has fewer than 2^64 entries.
        let _entries = sprig.len();
        let mut removed = 0;
        let mut last = None;
        while let Some(digest) = next_expired(sprig, last, now) {
            match self.expire(alloc, rt, pass, sprig, part, last, &digest, now) {
                Ok(gone) => removed += count_of(gone),
                Err(cause) => return Err(ExpireRefusal { removed, cause }),
            }
            last = Some(digest);
        }
        Ok(removed)
    }

    // Removes the first entry that is expired behind this digest in the part that the pass holds. It is one event.
    fn expire<R: Wait>(
        &self,
        alloc: Global,
        rt: &R,
        pass: &mut LivePass<D>,
        sprig: &mut Sprig,
        part: u32,
        last: Option<Digest>,
        digest: &Digest,
        now: u64,
    ) -> Result<bool, WriteRefusal>
        requires pass { Holds self.now (Some part) false pass.old }
        requires fits { PartFits (opening_at self.now) (seen_by (view pass.old)) part sprig.old }
        requires next { slice_get (expired_among sprig.old.entries now last) 0 ≡ Some digest.now }
        requires now { now ≤ 2 ^ 61 }
        ensures pass { Holds self.now (Some part) false pass.new }
        ensures numbers { KeepsNumbers pass.old pass.new }
        ensures fits { PartFits (opening_at self.now) (seen_by (view pass.new)) part sprig.new }
        ensures once { (by : AnswersOnce D.view (opening_at self.now) (view pass.old) (view pass.new) (expire_call digest.now now) (delete_answer result))
            × (slice_get (left_behind (opening_at self.now) part now last by.past) 0 ≡ Some digest.now) }
        ensures less { length (expired_among sprig.new.entries now (Some digest.now)) < length (expired_among sprig.old.entries now last) }
    {
        let _ = last;
        let hub = self.take_hub(rt, pass);
        let expire = Expire { digest, now };
        self.enter(alloc, &mut Vec::new(alloc), pass, hub, sprig, part, &expire)
    }
}

// An entry that was removed counts.
fn count_of(gone: bool) -> u64
    ensures count { result ≡ done_by (happened gone) }
    ensures one { result ≤ 1 }
{
    if gone { 1 } else { 0 }
}
