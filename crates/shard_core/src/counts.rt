// The numbers of a shard.
ghost use Rattle.std.specs.Prelude.{◌≡◌, ◌<◌, ◌≤◌, ◌^◌, length};
ghost use Rattle.rec_format.specs.declared.version.Digest.{Digest};
ghost use Rattle.rec_format.specs.Places.{device_number};
ghost use Rattle.model_device.specs.Device.{State, part_of};
ghost use Rattle.model_device.specs.Steps.{part_total};
ghost use Rattle.shard_core.specs.Numbers.{AreFew, counts_of, tally_sum};
ghost use Rattle.shard_core.specs.Stands.{Agrees};
ghost use Rattle.shard_core.specs.View.{setup_of};

use crate::Shard;
use arena_sprig::{Sprig, Tally};
use disk_model::Disk;
use partition_map::parts_of;
use rec_format::Counts;

impl<D: Disk> Shard<D> {
    /// How many records, tombstones and covered records there are, expired ones too; how many blocks are free, how many buffers aren't
    /// flushed, how many blocks wait to be vacated, and how many are held. Each is so small that those of 16 devices add up in a `u64`. It
    /// goes over nothing, and takes no memory.
    pub fn counts(&self) -> Counts
        ensures state { (s : State) → Agrees self.now s → result ≡ counts_of s }
        ensures few { (s : State) → Agrees self.now s → AreFew result }
        ensures queued { result.queued < 2 ^ 32 }
    {
        // By its shape the device has at most 2^32 places, and each entry has a copy at a place of its own, so no sum went around.
        let _shape = self.shelf.geometry();
        Counts {
            records: self.tally.records,
            tombstones: self.tally.tombstones,
            covered: self.tally.covered,
            ..self.shelf.counts()
        }
    }

    /// How many parts the device has, each with a sprig. Each digest of the device is of one of them.
    pub fn parts(&self) -> u32
        ensures total { result ≡ part_total (setup_of self.now) }
        ensures few { result ≤ 2 ^ 20 }
        ensures all { (digest : Digest) → device_number self.now.shelf.geometry.devices digest ≡ self.now.shelf.geometry.device → part_of (setup_of self.now) digest < result }
    {
        let shape = self.shelf.geometry();
        parts_of(shape.device, shape.devices, self.set.sprigs)
    }
}

/// The tallies of all sprigs together.
pub fn tally_sum(sprigs: &[Sprig]) -> Tally
    ensures { result ≡ tally_sum sprigs.now }
{
    let mut sum = Tally::default();
    for sprig in sprigs {
        sum = sum.plus(sprig.tally());
    }
    sum
}
