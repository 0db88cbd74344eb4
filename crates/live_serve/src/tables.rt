// Devices under their tables.
ghost use Rattle.std.specs.Prelude.{◌≡◌, ◌≤◌, [], vec_len, vec_capacity};

use crate::closing::Closing;
use disk_model::Disk;
use live_node::{Live, LivePass};
use shard_core::Shard;

/// Devices under their tables, in order, with the first pass of each.
pub struct Tables<D: Disk> {
    pub lives: Vec<Live<D>>,
    pub passes: Vec<LivePass<D>>,
    /// Room for the devices as they come out, before and behind their closing flushes.
    pub shards: Vec<Shard<D>>,
    pub closings: Vec<Closing<D>>,
    ghost room: { (shards.items ≡ []) × (closings.items ≡ []) × (vec_len lives ≤ vec_capacity shards) × (vec_len lives ≤ vec_capacity closings) },
}
