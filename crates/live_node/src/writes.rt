// Writes as steps over the sprig of a digest and the shelf.
use crate::steps::{EventCall, Step};
use arena_sprig::Sprig;
use block_shelf::Shelf;
use disk_model::Disk;
use rec_format::{Digest, Stamp};
use shard_core::{Settings, WriteRefusal, bury_step, delete_step, put_step};
use std::alloc::Global;

#[derive(Drop)]
pub(crate) struct Put<'a> {
    pub digest: &'a Digest,
    pub ttl: u32,
    pub payload: &'a [u8],
    pub expect: Option<u16>,
    pub now: u64,
}

impl<'a> EventCall for Put<'a> {
    ghost use Rattle.std.specs.Prelude.{◌≡◌};
    ghost use Rattle.model_device.specs.Events.{put_call};
    ghost use Rattle.shard_core.specs.Calls.{write_answer};

    type Answer = Result<Stamp, WriteRefusal>;

    ghost call = { λ c. put_call c.digest.now c.ttl c.expect c.payload.now c.now };

    ghost answers = { λ c result answer. answer ≡ write_answer result };
}

impl<'a, D: Disk> Step<D> for Put<'a> {
    ghost use Rattle.std.specs.Prelude.{◌≤◌, ◌^◌, length, refl};
    ghost use Rattle.model_device.specs.Device.{part_of};

    ghost asks = { λ c. (c.ttl ≤ 315360000) × (length c.payload.now ≤ 2 ^ 31) × (c.now ≤ 2 ^ 61) };

    ghost part = { λ c setup. part_of setup c.digest.now };

    fn step(
        &self,
        alloc: Global,
        _room: &mut Vec<u8>,
        sprig: &mut Sprig,
        shelf: &mut Shelf<D>,
        set: &Settings,
    ) -> Result<Stamp, WriteRefusal> {
        put_step(
            alloc,
            sprig,
            shelf,
            set,
            self.digest,
            self.ttl,
            self.payload,
            self.expect,
            self.now,
        )
    }

    ghost named = { λ c setup. refl };
}

#[derive(Drop)]
pub(crate) struct Delete<'a> {
    pub digest: &'a Digest,
    pub now: u64,
}

impl<'a> EventCall for Delete<'a> {
    ghost use Rattle.std.specs.Prelude.{◌≡◌};
    ghost use Rattle.model_device.specs.Events.{delete_call};
    ghost use Rattle.shard_core.specs.Calls.{delete_answer};

    type Answer = Result<bool, WriteRefusal>;

    ghost call = { λ c. delete_call c.digest.now c.now };

    ghost answers = { λ c result answer. answer ≡ delete_answer result };
}

impl<'a, D: Disk> Step<D> for Delete<'a> {
    ghost use Rattle.std.specs.Prelude.{◌≤◌, ◌^◌, refl};
    ghost use Rattle.model_device.specs.Device.{part_of};

    ghost asks = { λ c. c.now ≤ 2 ^ 61 };

    ghost part = { λ c setup. part_of setup c.digest.now };

    fn step(
        &self,
        alloc: Global,
        _room: &mut Vec<u8>,
        sprig: &mut Sprig,
        shelf: &mut Shelf<D>,
        set: &Settings,
    ) -> Result<bool, WriteRefusal> {
        delete_step(alloc, sprig, shelf, set, self.digest, self.now)
    }

    ghost named = { λ c setup. refl };
}

#[derive(Drop)]
pub(crate) struct Bury<'a> {
    pub digest: &'a Digest,
    pub now: u64,
}

impl<'a> EventCall for Bury<'a> {
    ghost use Rattle.std.specs.Prelude.{◌≡◌};
    ghost use Rattle.model_device.specs.Events.{bury_call};
    ghost use Rattle.shard_core.specs.Calls.{write_answer};

    type Answer = Result<Stamp, WriteRefusal>;

    ghost call = { λ c. bury_call c.digest.now c.now };

    ghost answers = { λ c result answer. answer ≡ write_answer result };
}

impl<'a, D: Disk> Step<D> for Bury<'a> {
    ghost use Rattle.std.specs.Prelude.{◌≤◌, ◌^◌, refl};
    ghost use Rattle.model_device.specs.Device.{part_of};

    ghost asks = { λ c. c.now ≤ 2 ^ 61 };

    ghost part = { λ c setup. part_of setup c.digest.now };

    fn step(
        &self,
        alloc: Global,
        _room: &mut Vec<u8>,
        sprig: &mut Sprig,
        shelf: &mut Shelf<D>,
        set: &Settings,
    ) -> Result<Stamp, WriteRefusal> {
        bury_step(alloc, sprig, shelf, set, self.digest, self.now)
    }

    ghost named = { λ c setup. refl };
}
