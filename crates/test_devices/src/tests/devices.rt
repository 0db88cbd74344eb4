// A small device under its table.
ghost use Rattle.std.specs.Prelude.{◌≡◌, ◌+◌, ◌<◌, ◌≤◌, IfOk};
ghost use Rattle.shard_core.specs.View.{IsSettings};
ghost use Rattle.turn_table.specs.Passes.{own_count, joined_count};
ghost use Rattle.live_node.specs.Lives.{IsPassAt};
ghost use Rattle.test_devices.specs.Trials.{IsAlone, IsShardAlone, IsFirst, HasAll, IsGiven};

use block_format::Geometry;
use disk_model::{Disk, MemDisk};
use live_node::{Live, LivePass, Standing};
use shard_core::{Asked, Settings, Shard, format_disk};
use std::alloc::Global;
use turn_table::Noted;

/// Why a device isn't there.
#[derive(Clone, Copy, Debug, PartialEq, Eq)]
pub enum Trouble {
    Memory,
    Disk,
}

const ALONE: Asked = Asked {
    device: 0,
    devices: 1,
};

/// Settings of a device whose blocks aren't vacated, with so many sprigs in a partition and so many flushed buffers kept.
pub fn settings(sprigs: u32, cache: u32) -> Settings
    requires { (1 ≤ sprigs) × (sprigs ≤ 256) × (cache ≤ 64) }
    ensures { IsSettings result }
{
    Settings {
        sprigs,
        lwm: 0,
        pending: 64,
        cache,
        commit: false,
        raid_age: 0,
    }
}

/// A new disk of so many blocks of 16,384 bytes, formatted as that of a device of so many.
pub fn formatted(alloc: Global, blocks: u32, device: u16, devices: u16) -> Result<MemDisk, Trouble>
    requires { (8 ≤ blocks) × (blocks ≤ 65536) × (device < devices) × (devices ≤ 16) }
{
    let shape = Geometry {
        block_size: 16384,
        blocks,
        device,
        devices,
    };
    let Ok(mut disk) = MemDisk::new(alloc, 4096 + u64::from(blocks) * 16384) else {
        return Err(Trouble::Memory);
    };
    match format_disk(&mut disk, &shape) {
        Ok(()) => Ok(disk),
        Err(_) => Err(Trouble::Disk),
    }
}

/// The device of a disk without others, under its table.
pub fn opened<D: Disk>(
    alloc: Global,
    disk: D,
    set: Settings,
) -> Result<(Live<D>, LivePass<D>), Trouble>
    requires { IsSettings set }
    ensures pass { IfOk result (λ r. IsFirst r.0 r.1) }
    ensures alone { IfOk result (λ r. IsAlone r.0) }
{
    let Ok(shard) = Shard::start(alloc, disk, ALONE, set) else {
        return Err(Trouble::Disk);
    };
    let state = Noted::about::<Shard<D>, Standing>(&shard);
    match Live::open(alloc, shard, &state) {
        Ok(opened) => Ok(opened),
        Err(_) => Err(Trouble::Memory),
    }
}

/// A pass of one number, for a thread.
pub fn share<D: Disk>(live: &Live<D>, pass: &mut LivePass<D>) -> LivePass<D>
    requires pass { IsPassAt live.now pass.old }
    requires many { 1 < own_count pass.old }
    ensures pass { IsPassAt live.now pass.new }
    ensures numbers { (own_count pass.new + 1 ≡ own_count pass.old) × (joined_count pass.new ≡ joined_count pass.old) }
    ensures given { IsGiven live.now result }
{
    live.split(pass, 1)
}

/// Joins the pass of a thread.
pub fn rejoined<D: Disk>(live: &Live<D>, pass: &mut LivePass<D>, other: LivePass<D>)
    requires pass { IsPassAt live.now pass.old }
    requires given { IsGiven live.now other }
    ensures pass { IsPassAt live.now pass.new }
    ensures numbers { (own_count pass.new ≡ own_count pass.old) × (joined_count pass.new ≡ joined_count pass.old + 1) }
{
    live.join(pass, other);
}

/// The device, out of its table.
pub fn ended<D: Disk>(live: Live<D>, pass: LivePass<D>) -> Shard<D>
    requires { HasAll live pass }
    ensures { IsAlone live → IsShardAlone result }
{
    match live.close(pass) {
        Ok(shard) => shard,
        Err(_) => unreachable!(),
    }
}
