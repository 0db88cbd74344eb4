// How devices come out of their tables, and are flushed in the end.
ghost use Rattle.std.specs.Prelude.{◌≡◌, ◌+◌, ◌≤◌, ◌++◌, [], List, All, map, vec_len, vec_capacity};
ghost use Rattle.shard_core.specs.View.{ShardView};
ghost use Rattle.turn_table.specs.Passes.{view};
ghost use Rattle.live_node.specs.Calls.{seen_by};
ghost use Rattle.live_node.specs.Lives.{opening_at, IsPassAt};
ghost use Rattle.live_store.specs.Pairs.{EachPair};
ghost use Rattle.live_store.specs.Known.{known_each};
ghost use Rattle.live_crew.specs.Crews.{HasAllNumbers};
ghost use Rattle.live_serve.specs.Devices.{ComesOut, ComesOutAt, IsFlushed, IsClosedAt};

use crate::tables::Tables;
use disk_model::{Disk, DiskFault};
use live_node::{Live, LivePass};
use node_serve::take_first;
use shard_core::Shard;

/// A device that was served, and what its closing flush answered: how many buffers, or a fault of its disk.
#[derive(Drop)]
pub struct Closing<D: Disk> {
    pub shard: Shard<D>,
    pub flushed: Result<u64, DiskFault>,
}

// The device comes out of its table. No other pass of it is out.
fn close_one<D: Disk>(live: Live<D>, pass: LivePass<D>) -> Shard<D>
    requires pass { IsPassAt live pass }
    requires all { HasAllNumbers pass }
    ensures { ComesOut D.view (opening_at live) (seen_by (view pass)) result }
{
    match live.close(pass) {
        Ok(shard) => shard,
        Err(_) => unreachable!(),
    }
}

// The closing flush of a device.
fn flush_one<D: Disk>(shard: Shard<D>) -> Closing<D>
    ensures { IsFlushed D.view shard result }
{
    let mut shard = shard;
    let flushed = shard.flush();
    Closing { shard, flushed }
}

/// Each device comes out of its table, in order, and stands behind those that are there. No other pass of any is out.
pub(crate) fn take_out<D: Disk>(
    lives: Vec<Live<D>>,
    passes: Vec<LivePass<D>>,
    shards: &mut Vec<Shard<D>>,
)
    requires passes { EachPair IsPassAt lives.items passes.items }
    requires all { All HasAllNumbers passes.items }
    requires room { vec_len shards.old + vec_len lives ≤ vec_capacity shards.old }
    ensures out { (outs : List (ShardView D)) × (shards.new.items ≡ shards.old.items ++ outs) × EachPair (ComesOutAt D.view) (known_each lives.items passes.items) outs }
    ensures room { vec_capacity shards.new ≡ vec_capacity shards.old }
{
    let mut lives = lives;
    let mut passes = passes;
    while let Some(live) = take_first(&mut lives) {
        let Some(pass) = take_first(&mut passes) else {
            unreachable!()
        };
        shards.push_reserved(close_one(live, pass));
    }
    lives.destroy_empty();
}

/// The closing flush of each device, in order.
pub(crate) fn flush_all<D: Disk>(
    shards: Vec<Shard<D>>,
    closings: Vec<Closing<D>>,
) -> Vec<Closing<D>>
    requires none { closings.items ≡ [] }
    requires room { vec_len shards ≤ vec_capacity closings }
    ensures { EachPair (IsFlushed D.view) shards.items result.items }
{
    let mut shards = shards;
    let mut closings = closings;
    while let Some(shard) = take_first(&mut shards) {
        closings.push_reserved(flush_one(shard));
    }
    closings
}

/// Each device comes out of its table and has its closing flush, in order. No other pass of any is out. The events of each are those that its
/// pass has seen, and the flush.
pub fn close_all<D: Disk>(tables: Tables<D>) -> Vec<Closing<D>>
    requires passes { EachPair IsPassAt tables.lives.items tables.passes.items }
    requires all { All HasAllNumbers tables.passes.items }
    ensures { EachPair (IsClosedAt D.view) (known_each tables.lives.items tables.passes.items) result.items }
{
    let Tables {
        lives,
        passes,
        mut shards,
        closings,
    } = tables;
    take_out(lives, passes, &mut shards);
    flush_all(shards, closings)
}

/// The disks of devices that were closed, in order, as they are, in a list that has room for them.
pub fn stop_closed<D: Disk>(closings: Vec<Closing<D>>, disks: Vec<D>) -> Vec<D>
    requires none { disks.items ≡ [] }
    requires room { vec_len closings ≤ vec_capacity disks }
    ensures { result.items ≡ map (λ c. c.shard.shelf.disk) closings.items }
{
    let mut closings = closings;
    let mut disks = disks;
    while let Some(closing) = take_first(&mut closings) {
        disks.push_reserved(closing.shard.stop());
    }
    disks
}
