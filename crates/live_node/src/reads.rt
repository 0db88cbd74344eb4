// A read as a step over the sprig of a digest and the shelf.
use crate::steps::{EventCall, Step};
use arena_sprig::Sprig;
use block_shelf::{ReadRefusal, Shelf};
use disk_model::Disk;
use rec_format::{Digest, Version};
use shard_core::{Settings, get_step_in};
use std::alloc::Global;

#[derive(Drop)]
pub(crate) struct Get<'a> {
    pub digest: &'a Digest,
    pub now: u64,
}

impl<'a> EventCall for Get<'a> {
    ghost use Rattle.std.specs.Prelude.{◌≡◌};
    ghost use Rattle.model_device.specs.Events.{get_call};
    ghost use Rattle.shard_core.specs.Calls.{read_answer};

    type Answer = Result<Option<Version>, ReadRefusal>;

    ghost call = { λ c. get_call c.digest.now c.now };

    ghost answers = { λ c result answer. answer ≡ read_answer result };
}

impl<'a, D: Disk> Step<D> for Get<'a> {
    ghost use Rattle.std.specs.Prelude.{◌≤◌, ◌^◌, refl};
    ghost use Rattle.model_device.specs.Device.{part_of};

    ghost asks = { λ c. c.now ≤ 2 ^ 61 };

    ghost part = { λ c setup. part_of setup c.digest.now };

    fn step(
        &self,
        alloc: Global,
        room: &mut Vec<u8>,
        sprig: &mut Sprig,
        shelf: &mut Shelf<D>,
        set: &Settings,
    ) -> Result<Option<Version>, ReadRefusal> {
        get_step_in(alloc, room, sprig, shelf, set, self.digest, self.now)
    }

    ghost named = { λ c setup. refl };
}
