// How devices come under their tables.
ghost use Rattle.std.specs.Prelude.{◌≡◌, ◌+◌, ◌≤◌, ◌++◌, ◌∷◌, [], List, All, IfOk, IfErr, OnOk, vec_len, vec_capacity};
ghost use Rattle.shard_core.specs.View.{ShardView};
ghost use Rattle.live_node.specs.Lives.{IsPassAt};
ghost use Rattle.live_store.specs.Pairs.{EachPair};
ghost use Rattle.live_store.specs.Known.{known_each};
ghost use Rattle.live_crew.specs.Crews.{HasAllNumbers};
ghost use Rattle.live_serve.specs.Devices.{AreOpened, ComesBack, ComesOutAt, StandsAsNoted, StopsAt, named_each};

use crate::closing::{Closing, take_out};
use crate::tables::Tables;
use disk_model::Disk;
use live_node::{DeviceState, Live, LivePass};
use node_serve::take_first;
use rec_format::NoMemory;
use shard_core::Shard;
use std::alloc::Global;
use turn_table::Noted;

/// Devices that didn't come under their tables, in order, and the room for their closings.
#[derive(Drop)]
pub struct NotOpened<D: Disk> {
    pub shards: Vec<Shard<D>>,
    pub closings: Vec<Closing<D>>,
}

// Room for the devices and for their passes, and for the devices as they come out.
struct Room<D: Disk> {
    lives: Vec<Live<D>>,
    passes: Vec<LivePass<D>>,
    back: Vec<Shard<D>>,
}

// Room for so many devices.
fn room_for<D: Disk>(alloc: Global, devices: usize) -> Result<Room<D>, NoMemory>
    ensures none { IfOk result (λ room. (room.lives.items ≡ []) × (room.passes.items ≡ []) × (room.back.items ≡ [])) }
    ensures room { IfOk result (λ room. (devices ≤ vec_capacity room.lives) × (devices ≤ vec_capacity room.passes) × (devices ≤ vec_capacity room.back)) }
{
    let passes = Vec::with_capacity(alloc, devices)?;
    let back = Vec::with_capacity(alloc, devices)?;
    let lives = Vec::with_capacity(alloc, devices)?;
    Ok(Room {
        lives,
        passes,
        back,
    })
}

// Each device comes under its table, in order. Where there is no memory for one, it comes back, and those behind it are left.
fn open_each<D: Disk>(
    alloc: Global,
    shards: &mut Vec<Shard<D>>,
    states: &mut Vec<Noted<DeviceState>>,
    lives: &mut Vec<Live<D>>,
    passes: &mut Vec<LivePass<D>>,
) -> Result<(), Shard<D>>
    requires stands { EachPair StandsAsNoted shards.old.items states.old.items }
    requires none { (lives.old.items ≡ []) × (passes.old.items ≡ []) }
    requires room { (vec_len shards.old ≤ vec_capacity lives.old) × (vec_len shards.old ≤ vec_capacity passes.old) }
    ensures ok { OnOk result (AreOpened (named_each shards.old.items states.old.items) lives.new.items passes.new.items) }
    ensures err { IfErr result (λ shard. StopsAt (named_each shards.old.items states.old.items) shard shards.new.items states.new.items lives.new.items passes.new.items) }
{
    while let Some(shard) = take_first(shards) {
        let Some(state) = take_first(states) else {
            unreachable!()
        };
        match Live::open(alloc, shard, &state) {
            Ok((live, pass)) => {
                lives.push_reserved(live);
                passes.push_reserved(pass);
            }
            Err((shard, _)) => return Err(shard),
        }
    }
    Ok(())
}

// Puts the elements of a list behind those of another, in order.
fn put_behind<T>(list: &mut Vec<T>, rest: Vec<T>)
    requires room { vec_len list.old + vec_len rest ≤ vec_capacity list.old }
    ensures behind { list.new.items ≡ list.old.items ++ rest.items }
{
    let mut rest = rest;
    while let Some(first) = take_first(&mut rest) {
        list.push_reserved(first);
    }
    rest.destroy_empty();
}

// All devices come back, in order: those that had come under their tables, out of these again, then the one at which it stopped, and the rest.
fn all_back<D: Disk>(
    lives: Vec<Live<D>>,
    passes: Vec<LivePass<D>>,
    shard: Shard<D>,
    rest: Vec<Shard<D>>,
    back: Vec<Shard<D>>,
) -> Vec<Shard<D>>
    requires passes { EachPair IsPassAt lives.items passes.items }
    requires all { All HasAllNumbers passes.items }
    requires none { back.items ≡ [] }
    requires room { vec_len lives + vec_len rest + 1 ≤ vec_capacity back }
    ensures { (outs : List (ShardView D)) × (result.items ≡ outs ++ shard ∷ rest.items) × EachPair (ComesOutAt D.view) (known_each lives.items passes.items) outs }
{
    let mut back = back;
    take_out(lives, passes, &mut back);
    back.push_reserved(shard);
    put_behind(&mut back, rest);
    back
}

/// Each device comes under its table, in order. The caller names a state for which each stands, and gives a list with room for their closings.
/// The first pass of each has all pass numbers, has seen nothing and made no call.
///
/// # Errors
///
/// There is no memory. All devices come back, in order, each with no event, and the list with its room.
pub fn open_all<D: Disk>(
    alloc: Global,
    shards: Vec<Shard<D>>,
    states: Vec<Noted<DeviceState>>,
    closings: Vec<Closing<D>>,
) -> Result<Tables<D>, NotOpened<D>>
    requires stands { EachPair StandsAsNoted shards.items states.items }
    requires none { closings.items ≡ [] }
    requires room { vec_len shards ≤ vec_capacity closings }
    ensures ok { IfOk result (λ tables. AreOpened (named_each shards.items states.items) tables.lives.items tables.passes.items) }
    ensures err { IfErr result (λ not. EachPair (ComesBack D.view) (named_each shards.items states.items) not.shards.items) }
    ensures room { IfErr result (λ not. (not.closings.items ≡ []) × (vec_len not.shards ≤ vec_capacity not.closings)) }
{
    let Ok(room) = room_for(alloc, shards.len()) else {
        return Err(NotOpened { shards, closings });
    };
    let Room {
        mut lives,
        mut passes,
        back,
    } = room;
    let mut shards = shards;
    let mut states = states;
    match open_each(alloc, &mut shards, &mut states, &mut lives, &mut passes) {
        Ok(()) => Ok(Tables {
            lives,
            passes,
            shards: back,
            closings,
        }),
        Err(shard) => Err(NotOpened {
            shards: all_back(lives, passes, shard, shards, back),
            closings,
        }),
    }
}
