// A small device under its table.
ghost use Rattle.std.specs.Prelude.{◌≡◌, ◌≤◌, ◌^◌, ◌+◌, ◌*◌, length, IfOk};
ghost use Rattle.block_format.specs.Layout.{IsGeometry, device_end};
ghost use Rattle.shard_core.specs.View.{IsSettings};
ghost use Rattle.turn_table.specs.Rule.{all_numbers};
ghost use Rattle.turn_table.specs.Passes.{own_count, joined_count};
ghost use Rattle.live_node.specs.Lives.{IsPassAt};
ghost use Rattle.test_chores.specs.Trials.{IsAlone, IsBeside, IsGiven};

use block_format::Geometry;
use disk_model::MemDisk;
use live_node::{Live, LivePass, Standing};
use rec_format::{Counts, Digest};
use shard_core::{Asked, Settings, Shard, format_disk};
use std::alloc::Global;
use std::sync::Wait;
use std::test::Fail;
use turn_table::Noted;

// Of part 256.
pub const RISING: Digest = Digest([
    0, 1, 2, 3, 4, 5, 6, 7, 8, 9, 10, 11, 12, 13, 14, 15, 16, 17, 18, 19,
]);

// Of part 531.
pub const FALLING: Digest = Digest([
    19, 18, 17, 16, 15, 14, 13, 12, 11, 10, 9, 8, 7, 6, 5, 4, 3, 2, 1, 0,
]);

// Of part 1,285.
pub const MIDDLE: Digest = Digest([5, 5, 5, 5, 5, 5, 5, 5, 5, 5, 5, 5, 5, 5, 5, 5, 5, 5, 5, 5]);

const ALONE: Asked = Asked {
    device: 0,
    devices: 1,
};

fn settings() -> Settings
    ensures { IsSettings result }
{
    Settings {
        sprigs: 1,
        lwm: 50,
        pending: 4,
        cache: 0,
        commit: false,
        raid_age: 10,
    }
}

fn shape() -> Geometry
    ensures shape { IsGeometry result }
    ensures end { device_end result ≡ 4096 + 8 * 16384 }
{
    Geometry {
        block_size: 16384,
        blocks: 8,
        device: 0,
        devices: 1,
    }
}

// A new device of 8 blocks without others, under its table.
pub fn opened(alloc: Global) -> Result<(Live<MemDisk>, LivePass<MemDisk>), Fail>
    ensures pass { IfOk result (λ r. IsPassAt r.0 r.1 × (own_count r.1 ≡ all_numbers) × (joined_count r.1 ≡ 0)) }
    ensures alone { IfOk result (λ r. IsAlone r.0) }
{
    let mut disk = MemDisk::new(alloc, 4096 + 8 * 16384)?;
    if format_disk(&mut disk, &shape()).is_err() {
        return Err(Fail::new("it isn't formatted"));
    }
    let Ok(shard) = Shard::start(alloc, disk, ALONE, settings()) else {
        return Err(Fail::new("it isn't taken into use"));
    };
    let state = Noted::about::<Shard<MemDisk>, Standing>(&shard);
    match Live::open(alloc, shard, &state) {
        Ok(opened) => Ok(opened),
        Err(_) => Err(Fail::new("memory")),
    }
}

// A pass of one number for a chore.
pub fn share(live: &Live<MemDisk>, pass: &mut LivePass<MemDisk>) -> LivePass<MemDisk>
    requires pass { IsPassAt live.now pass.old × (own_count pass.old ≡ all_numbers) × (joined_count pass.old ≡ 0) }
    ensures beside { IsBeside live.now pass.new }
    ensures given { IsGiven live.now result }
{
    live.split(pass, 1)
}

// Joins a chore's pass, so that the device may be ended.
pub fn rejoined(live: &Live<MemDisk>, pass: &mut LivePass<MemDisk>, other: LivePass<MemDisk>)
    requires beside { IsBeside live.now pass.old }
    requires given { IsGiven live.now other }
    ensures pass { IsPassAt live.now pass.new × (own_count pass.new + joined_count pass.new ≡ all_numbers) }
{
    live.join(pass, other);
}

pub fn ended(live: Live<MemDisk>, pass: LivePass<MemDisk>)
    requires { IsPassAt live pass × (own_count pass + joined_count pass ≡ all_numbers) }
{
    match live.close(pass) {
        Ok(_) => {}
        Err(_) => unreachable!(),
    }
}

// Puts a record of so many seconds to live, or of no end at 0. Says whether it did.
pub fn put<R: Wait>(
    alloc: Global,
    rt: &R,
    live: &Live<MemDisk>,
    pass: &mut LivePass<MemDisk>,
    digest: &Digest,
    ttl: u32,
    payload: &[u8],
) -> bool
    requires beside { IsBeside live.now pass.old }
    requires alone { IsAlone live.now }
    requires ttl { ttl ≤ 315360000 }
    requires size { length payload.now ≤ 2 ^ 31 }
    ensures beside { IsBeside live.now pass.new }
{
    live.put(alloc, rt, pass, digest, ttl, payload, None, 1000)
        .is_ok()
}

// Deletes a record, by a tombstone or without. Says whether it did.
pub fn delete<R: Wait>(
    alloc: Global,
    rt: &R,
    live: &Live<MemDisk>,
    pass: &mut LivePass<MemDisk>,
    digest: &Digest,
) -> bool
    requires beside { IsBeside live.now pass.old }
    requires alone { IsAlone live.now }
    ensures beside { IsBeside live.now pass.new }
{
    live.delete(alloc, rt, pass, digest, 1000) == Ok(true)
}

pub fn bury<R: Wait>(
    alloc: Global,
    rt: &R,
    live: &Live<MemDisk>,
    pass: &mut LivePass<MemDisk>,
    digest: &Digest,
) -> bool
    requires beside { IsBeside live.now pass.old }
    requires alone { IsAlone live.now }
    ensures beside { IsBeside live.now pass.new }
{
    live.bury(alloc, rt, pass, digest, 1000).is_ok()
}

// Flushes what is filled. Says whether that was one buffer.
pub fn flush<R: Wait>(rt: &R, live: &Live<MemDisk>, pass: &mut LivePass<MemDisk>) -> bool
    requires beside { IsBeside live.now pass.old }
    ensures beside { IsBeside live.now pass.new }
{
    live.flush(rt, pass) == Ok(1)
}

pub fn counts<R: Wait>(rt: &R, live: &Live<MemDisk>, pass: &mut LivePass<MemDisk>) -> Counts
    requires beside { IsBeside live.now pass.old }
    ensures beside { IsBeside live.now pass.new }
{
    live.counts(rt, pass)
}
