// One device under a table.
use crate::machine::{Device, LivePass};
use block_format::Geometry;
use disk_model::Disk;
use rec_format::Digest;
use shard_core::Settings;
use std::marker::Model;
use turn_table::Table;

/// One device under a table whose parts are its sprigs and whose hub is its shelf.
pub struct Live<D: Disk> {
    pub(crate) table: Table<Device<D>>,
    pub(crate) geometry: Geometry,
    pub(crate) set: Settings,
    // The list of the device as a shard, which takes it up again at the end.
    pub(crate) listed: Vec<Digest>,
}

impl<D: Disk> Model for Live<D> {
    ghost use Rattle.std.specs.Coded.{codes};
    ghost use Rattle.std.specs.Prelude.{◌≤◌, vec_capacity};
    ghost use Rattle.hold_book.specs.Holds.{hold_state_code};
    ghost use Rattle.rec_format.specs.Versions.{block_capacity};
    ghost use Rattle.block_format.specs.Layout.{most_records};
    ghost use Rattle.turn_table.specs.Passes.{opening_of, part_count};
    ghost use Rattle.live_node.specs.Opening.{IsTableOf};
    ghost use Rattle.live_node.specs.Lives.{Live};

    ghost Value = { Live D };

    ghost coded = { Prim.hlevel (codes, hold_state_code) };

    ghost view = { λ l. l.table };

    ghost invariant = { λ l. IsTableOf (opening_of l.table) l.geometry l.set (part_count l.table) × (most_records (block_capacity l.geometry.block_size) ≤ vec_capacity l.listed) };
}

/// Another pass is not joined yet, directly or through a third. Device and pass come back.
pub struct LiveOut<D: Disk> {
    pub live: Live<D>,
    pub pass: LivePass<D>,
    /// How many pass numbers are missing, at least one.
    pub out: u64,
}
