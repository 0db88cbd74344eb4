ghost use Rattle.std.specs.Prelude.{◌≡◌, ◌≤◌, vec_capacity};
ghost use Rattle.rec_format.specs.Versions.{block_capacity};
ghost use Rattle.block_format.specs.Layout.{most_records};
ghost use Rattle.shard_core.specs.Stands.{IsWhole};

use crate::Settings;
use crate::counts::tally_sum;
use arena_sprig::{Sprig, Tally};
use block_shelf::Shelf;
use disk_model::Disk;
use rec_format::Digest;
use std::marker::Model;

/// A device with its primary index: the sprig of each part, in the order of their numbers, and the tally of all of them.
#[derive(Drop)]
pub struct Shard<D: Disk> {
    pub(crate) shelf: Shelf<D>,
    pub(crate) set: Settings,
    pub(crate) sprigs: Vec<Sprig>,
    pub(crate) tally: Tally,
    // The digests of the records of a block that is vacated. It has room for the most that a block can have.
    pub(crate) listed: Vec<Digest>,
}

impl<D: Disk> Model for Shard<D> {
    ghost use Rattle.std.specs.Prelude.{vec_capacity};
    ghost use Rattle.shard_core.specs.View.{ShardView};
    ghost use Rattle.shard_core.specs.Numbers.{IsKept};
    ghost use Rattle.std.specs.Coded.{codes};
    ghost use Rattle.hold_book.specs.Holds.{hold_state_code};

    ghost Value = { ShardView D };

    ghost coded = { Prim.hlevel (codes, hold_state_code) };

    ghost view = { λ s. record { shelf = s.shelf; set = s.set; sprigs = s.sprigs.items } };

    ghost invariant = { λ s. IsKept (record { shelf = s.shelf; set = s.set; sprigs = s.sprigs.items }) s.tally (vec_capacity s.listed) };
}

/// What a device is made of, each to be used by itself.
#[derive(Drop)]
pub struct Parts<D: Disk> {
    pub shelf: Shelf<D>,
    pub set: Settings,
    /// The sprig of each part, in the order of their numbers.
    pub sprigs: Vec<Sprig>,
    /// For the digests of the records of a block that is vacated. What it has means nothing.
    pub listed: Vec<Digest>,
}

impl<D: Disk> Shard<D> {
    /// Gives the disk back as it is. What its write buffers have is lost, as by a crash.
    pub fn stop(self) -> D
        ensures { result ≡ self.shelf.disk }
    {
        let Shard { shelf, .. } = self;
        shelf.stop()
    }

    /// The parts of the device as they are. They stand for the states for which the device stood, and the list has room for the most
    /// records that a block can have. It takes no memory.
    pub fn into_parts(self) -> Parts<D>
        ensures parts { self ≡ record { shelf = result.shelf; set = result.set; sprigs = result.sprigs.items } }
        ensures whole { IsWhole self }
        ensures room { most_records (block_capacity self.shelf.geometry.block_size) ≤ vec_capacity result.listed }
    {
        let Shard {
            shelf,
            set,
            sprigs,
            tally: _,
            listed,
        } = self;
        Parts {
            shelf,
            set,
            sprigs,
            listed,
        }
    }

    /// The device of these parts, which have to stand for one state. Their entries are counted again. It takes no memory.
    pub fn of_parts(parts: Parts<D>) -> Shard<D>
        requires whole { IsWhole (record { shelf = parts.shelf; set = parts.set; sprigs = parts.sprigs.items }) }
        requires room { most_records (block_capacity parts.shelf.geometry.block_size) ≤ vec_capacity parts.listed }
        ensures { result ≡ record { shelf = parts.shelf; set = parts.set; sprigs = parts.sprigs.items } }
    {
        let Parts {
            shelf,
            set,
            sprigs,
            listed,
        } = parts;
        let tally = tally_sum(&sprigs);
        Shard {
            shelf,
            set,
            sprigs,
            tally,
            listed,
        }
    }
}
