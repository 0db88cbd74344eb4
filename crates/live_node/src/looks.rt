// The calls that are no event: each answers by the list that its pass has then seen.
ghost use Rattle.std.specs.Prelude.{◌≡◌, ◌<◌, ◌≤◌, []};
ghost use Rattle.model_device.specs.Device.{seen as seen_version};
ghost use Rattle.model_device.specs.Steps.{part_total};
ghost use Rattle.shard_core.specs.Calls.{meta_of};
ghost use Rattle.shard_core.specs.Numbers.{AreFew, counts_of};
ghost use Rattle.turn_table.specs.Passes.{view, KeepsNumbers};
ghost use Rattle.live_node.specs.Opening.{IsOwn, setup_at, state_at};
ghost use Rattle.live_node.specs.Calls.{seen_by, IsRight};
ghost use Rattle.live_node.specs.Lives.{opening_at, IsPassAt};

use crate::live::Live;
use crate::machine::LivePass;
use disk_model::Disk;
use rec_format::{Counts, Digest};
use shard_core::{Meta, meta_step};
use std::sync::Wait;

impl<D: Disk> Live<D> {
    /// What is known of the record that is seen of a digest at `now`, in milliseconds, as `Shard::meta` answers it. It takes the sprig of the
    /// digest's part alone, and is no event: the answer is that of the list that the pass has then seen.
    pub fn meta<R: Wait>(
        &self,
        rt: &R,
        pass: &mut LivePass<D>,
        digest: &Digest,
        now: u64,
    ) -> Option<Meta>
        requires pass { IsPassAt self.now pass.old }
        requires own { IsOwn (opening_at self.now) digest.now }
        ensures pass { IsPassAt self.now pass.new }
        ensures numbers { KeepsNumbers pass.old pass.new }
        ensures right { IsRight D.view (opening_at self.now) (view pass.old) (view pass.new) [] }
        ensures answer { result ≡ meta_of (seen_version (state_at (opening_at self.now) (seen_by (view pass.new))) now digest.now) }
    {
        let part = self.part_of(digest);
        let sprig = self.take_part(rt, pass, part);
        let answer = meta_step(&sprig, digest, now);
        self.give_part(pass, sprig, part);
        answer
    }

    /// The numbers of the device, as `Shard::counts` tells them. It takes the shelf alone, and is no event: they are those of the list that
    /// the pass has then seen.
    pub fn counts<R: Wait>(&self, rt: &R, pass: &mut LivePass<D>) -> Counts
        requires pass { IsPassAt self.now pass.old }
        ensures pass { IsPassAt self.now pass.new }
        ensures numbers { KeepsNumbers pass.old pass.new }
        ensures right { IsRight D.view (opening_at self.now) (view pass.old) (view pass.new) [] }
        ensures answer { result ≡ counts_of (state_at (opening_at self.now) (seen_by (view pass.new))) }
        ensures few { AreFew result }
    {
        self.known();
        let hub = self.take_hub(rt, pass);
        let counts = hub.counts();
        self.give_back(pass, hub);
        counts
    }

    /// How many parts the device has, at least one. It takes nothing.
    pub fn parts(&self) -> u32
        ensures total { result ≡ part_total (setup_at (opening_at self.now)) }
        ensures some { 0 < result }
    {
        self.table.parts() as u32
    }

    /// The age in seconds from which a raid may take a tombstone, as the device is run. It takes nothing.
    pub fn raid_age(&self) -> u64
        ensures age { result ≡ (opening_at self.now).set.raid_age }
        ensures most { result ≤ 315360000 }
    {
        self.set.raid_age
    }
}
