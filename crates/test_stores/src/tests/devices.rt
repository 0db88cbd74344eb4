// Small devices of a node, each under its table.
ghost use Rattle.std.specs.Prelude.{◌≡◌, ◌<◌, ◌≤◌, ◌+◌, ◌*◌, IfSome, vec_capacity};
ghost use Rattle.block_format.specs.Layout.{IsGeometry, device_end};
ghost use Rattle.shard_core.specs.View.{IsSettings};
ghost use Rattle.test_stores.specs.Trials.{IsMade, IsFirst, IsBeside, IsShare, IsShard, HasRoom, trial_settings};

use block_format::Geometry;
use disk_model::{DiskCall, MemDisk};
use live_node::{Live, LivePass, Standing};
use rec_format::{Counts, Digest};
use shard_core::{Asked, Settings, Shard, format_disk};
use std::alloc::Global;
use std::sync::Wait;
use turn_table::Noted;

// Of the first of two devices, by its first byte.
pub const RISING: Digest = Digest([
    0, 1, 2, 3, 4, 5, 6, 7, 8, 9, 10, 11, 12, 13, 14, 15, 16, 17, 18, 19,
]);

// Of the second of two devices.
pub const FALLING: Digest = Digest([
    19, 18, 17, 16, 15, 14, 13, 12, 11, 10, 9, 8, 7, 6, 5, 4, 3, 2, 1, 0,
]);

/// A device with its first pass, and a list that can be lent to it.
pub struct NewDevice {
    pub live: Live<MemDisk>,
    pub pass: LivePass<MemDisk>,
    pub list: Vec<Digest>,
}

fn settings() -> Settings
    ensures is { result ≡ trial_settings }
    ensures settings { IsSettings result }
{
    Settings {
        sprigs: 1,
        lwm: 50,
        pending: 4,
        cache: 0,
        commit: false,
        raid_age: 0,
    }
}

fn shape(device: u16, devices: u16) -> Geometry
    requires { (device < devices) × (devices ≤ 16) }
    ensures shape { IsGeometry result }
    ensures end { device_end result ≡ 4096 + 8 * 16384 }
{
    Geometry {
        block_size: 16384,
        blocks: 8,
        device,
        devices,
    }
}

// A disk that is formatted as this device of so many, of 8 blocks.
fn formatted(alloc: Global, device: u16, devices: u16) -> Option<MemDisk>
    requires { (device < devices) × (devices ≤ 16) }
{
    let mut disk = MemDisk::new(alloc, 4096 + 8 * 16384).ok()?;
    match format_disk(&mut disk, &shape(device, devices)) {
        Ok(()) => Some(disk),
        Err(_) => None,
    }
}

fn started(alloc: Global, disk: MemDisk, device: u16, devices: u16) -> Option<Shard<MemDisk>>
    ensures { IfSome result (IsShard device devices) }
{
    match Shard::start(alloc, disk, Asked { device, devices }, settings()) {
        Ok(shard) => Some(shard),
        Err(_) => None,
    }
}

fn under_table(
    alloc: Global,
    shard: Shard<MemDisk>,
    device: u16,
    devices: u16,
) -> Option<(Live<MemDisk>, LivePass<MemDisk>)>
    requires shard { IsShard device devices shard }
    ensures made { IfSome result (λ r. IsMade device devices r.0) }
    ensures first { IfSome result (λ r. IsFirst r.0 r.1) }
{
    let state = Noted::about::<Shard<MemDisk>, Standing>(&shard);
    match Live::open(alloc, shard, &state) {
        Ok(opened) => Some(opened),
        Err(_) => None,
    }
}

// The device of a formatted disk, under its table.
fn opened(
    alloc: Global,
    disk: MemDisk,
    device: u16,
    devices: u16,
) -> Option<(Live<MemDisk>, LivePass<MemDisk>)>
    ensures made { IfSome result (λ r. IsMade device devices r.0) }
    ensures first { IfSome result (λ r. IsFirst r.0 r.1) }
{
    match started(alloc, disk, device, devices) {
        Some(shard) => under_table(alloc, shard, device, devices),
        None => None,
    }
}

// It has a list, or is ended.
fn listed(alloc: Global, live: Live<MemDisk>, pass: LivePass<MemDisk>) -> Option<NewDevice>
    requires first { IsFirst live pass }
    ensures live { IfSome result (λ made. made.live ≡ live) }
    ensures first { IfSome result (λ made. IsFirst made.live made.pass) }
    ensures room { IfSome result (λ made. HasRoom (vec_capacity made.list) made.live) }
{
    match live.digest_list(alloc) {
        Ok(list) => Some(NewDevice { live, pass, list }),
        Err(_) => {
            ended(live, pass);
            None
        }
    }
}

// The device of a formatted disk, under its table, and its list.
fn made_over(alloc: Global, disk: MemDisk, device: u16, devices: u16) -> Option<NewDevice>
    ensures made { IfSome result (λ made. IsMade device devices made.live) }
    ensures first { IfSome result (λ made. IsFirst made.live made.pass) }
    ensures room { IfSome result (λ made. HasRoom (vec_capacity made.list) made.live) }
{
    match opened(alloc, disk, device, devices) {
        Some((live, pass)) => listed(alloc, live, pass),
        None => None,
    }
}

/// A new device of 8 blocks, this one of so many, under its table.
pub fn make_device(alloc: Global, device: u16, devices: u16) -> Option<NewDevice>
    requires { (device < devices) × (devices ≤ 16) }
    ensures made { IfSome result (λ made. IsMade device devices made.live) }
    ensures first { IfSome result (λ made. IsFirst made.live made.pass) }
    ensures room { IfSome result (λ made. HasRoom (vec_capacity made.list) made.live) }
{
    let disk = formatted(alloc, device, devices)?;
    made_over(alloc, disk, device, devices)
}

/// A new device of 8 blocks that is alone, whose disk fails the write behind so many, and no other.
pub fn make_failing(alloc: Global, writes: u64) -> Option<NewDevice>
    ensures made { IfSome result (λ made. IsMade 0 1 made.live) }
    ensures first { IfSome result (λ made. IsFirst made.live made.pass) }
    ensures room { IfSome result (λ made. HasRoom (vec_capacity made.list) made.live) }
{
    let mut disk = formatted(alloc, 0, 1)?;
    match disk.fail_after(DiskCall::Write, writes) {
        Ok(()) => made_over(alloc, disk, 0, 1),
        Err(_) => None,
    }
}

/// Ends a device of which its first pass is the only one.
pub fn unmade(made: NewDevice)
    requires { IsFirst made.live made.pass }
{
    let NewDevice {
        live,
        pass,
        list: _list,
    } = made;
    ended(live, pass);
}

/// A pass of one number for a store.
pub fn share(live: &Live<MemDisk>, pass: &mut LivePass<MemDisk>) -> LivePass<MemDisk>
    requires first { IsFirst live.now pass.old }
    ensures beside { IsBeside live.now 1 pass.new }
    ensures share { IsShare live.now result }
{
    live.split(pass, 1)
}

/// TwoDevices of them.
pub fn shares(
    live: &Live<MemDisk>,
    pass: &mut LivePass<MemDisk>,
) -> (LivePass<MemDisk>, LivePass<MemDisk>)
    requires first { IsFirst live.now pass.old }
    ensures beside { IsBeside live.now 2 pass.new }
    ensures shares { IsShare live.now result.0 × IsShare live.now result.1 }
{
    let one = live.split(pass, 1);
    let other = live.split(pass, 1);
    (one, other)
}

/// Joins the last pass of a store that is out, so that the device may be ended.
pub fn rejoined(live: &Live<MemDisk>, pass: &mut LivePass<MemDisk>, other: LivePass<MemDisk>)
    requires beside { IsBeside live.now 1 pass.old }
    requires share { IsShare live.now other }
    ensures beside { IsBeside live.now 0 pass.new }
{
    live.join(pass, other);
}

/// Joins one of two.
pub fn one_rejoined(live: &Live<MemDisk>, pass: &mut LivePass<MemDisk>, other: LivePass<MemDisk>)
    requires beside { IsBeside live.now 2 pass.old }
    requires share { IsShare live.now other }
    ensures beside { IsBeside live.now 1 pass.new }
{
    live.join(pass, other);
}

pub fn ended(live: Live<MemDisk>, pass: LivePass<MemDisk>)
    requires { IsBeside live 0 pass }
{
    match live.close(pass) {
        Ok(_) => {}
        Err(_) => unreachable!(),
    }
}

/// Its numbers, as a pass of the trial sees them.
pub fn counts<R: Wait>(rt: &R, live: &Live<MemDisk>, pass: &mut LivePass<MemDisk>) -> Counts
    requires beside { IsBeside live.now 1 pass.old }
    ensures beside { IsBeside live.now 1 pass.new }
{
    live.counts(rt, pass)
}
