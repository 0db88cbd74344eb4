// The bodies behind the open gates: of each digest of the device the latest copy of its record, and how many records there are.
ghost use Rattle.std.specs.Prelude.{◌≡◌, ◌+◌, ◌-◌, ◌*◌, ◌<◌, ◌≤◌, ℕ, List, length, map, IfOk, IfErr, OnOk, MatchResult};
ghost use Rattle.std.specs.List.{range_with_len};
ghost use Rattle.rec_format.specs.Versions.{is_later_stamp};
ghost use Rattle.block_format.specs.Layout.{IsGeometry, device_end, body_bytes, Body};
ghost use Rattle.block_format.specs.Readings.{IsReading};
ghost use Rattle.block_format.specs.Copies.{HasBodies};
ghost use Rattle.block_shelf.specs.Disks.{OnlyRead};
ghost use Rattle.cold_scan.specs.Starting.{FaultRose};
ghost use Rattle.cold_scan.specs.Found.{AreGates, kept_found, KeepsLater, KeepsOne, KeepsAll, IsTaken, TakesBody, StopsOn, IsStopped};

use crate::StartCause;
use crate::gates::is_opened;
use block_flusher::start_of_block;
use block_format::{BodyRefusal, Found, Gate, Geometry, SECTOR_BYTES, read_body};
use disk_model::Disk;
use partition_map::device_of;
use rec_format::{Digest, Head, NoMemory, Stamp};
use std::alloc::Global;
use std::collections::BTreeMap;

/// The latest copy of a digest: the head of its record, and where it lies.
#[derive(Clone, Copy, PartialEq, Eq)]
pub struct Kept {
    pub head: Head,
    pub place_block: u32,
    pub unit: u32,
    pub units: u32,
}

/// What was found in the blocks so far: the latest copy of each digest of the device, how many records there were, and the greatest
/// number of a buffer.
#[derive(Drop)]
pub(crate) struct Taken {
    pub(crate) latest: BTreeMap<Digest, Kept>,
    pub(crate) copies: u64,
    pub(crate) greatest: u64,
}

// A later update time, or the same with a greater generation.
fn is_later(stamp: Stamp, than: Stamp) -> bool
    ensures { result ≡ is_later_stamp stamp than }
{
    stamp.lut > than.lut || (stamp.lut == than.lut && stamp.gen_ > than.gen_)
}

// The record is kept, where it is later than what was found of its digest. Records of digests of other devices are passed over.
fn keep(
    latest: &mut BTreeMap<Digest, Kept>,
    geometry: &Geometry,
    block: u32,
    found: &Found,
) -> Result<(), NoMemory>
    requires geometry { IsGeometry geometry.now }
    ensures { OnOk result (KeepsOne geometry.now (kept_found block found.now) latest.old latest.new) }
{
    if device_of(&found.head.digest, geometry.devices) != geometry.device {
        return Ok(());
    }
    keep_later(latest, kept_at(block, found))
}

// The copy comes into the map, where its digest has none or an earlier one.
fn keep_later(latest: &mut BTreeMap<Digest, Kept>, kept: Kept) -> Result<(), NoMemory>
    ensures { OnOk result (KeepsLater kept latest.old latest.new) }
{
    if let Some(found) = latest.get(&kept.head.digest) {
        if !is_later(kept.head.stamp, found.head.stamp) {
            return Ok(());
        }
    }
    latest.insert(kept.head.digest, kept)?;
    Ok(())
}

// The copy of a record that was found in a block.
fn kept_at(block: u32, found: &Found) -> Kept
    ensures { result ≡ kept_found block found.now }
{
    Kept {
        head: found.head,
        place_block: block,
        unit: found.unit,
        units: found.units,
    }
}

// So does each record of a body.
fn keep_all(
    latest: &mut BTreeMap<Digest, Kept>,
    geometry: &Geometry,
    block: u32,
    found: &[Found],
) -> Result<(), NoMemory>
    requires geometry { IsGeometry geometry.now }
    ensures { OnOk result (KeepsAll geometry.now (map (kept_found block) found.now) latest.old latest.new) }
{
    for record in found {
        keep(latest, geometry, block, record)?;
    }
    Ok(())
}

// The buffer number and the records' heads of the body of a block, which is read into `body`.
fn read_block<D: Disk>(
    alloc: Global,
    disk: &mut D,
    geometry: &Geometry,
    block: u32,
    body: &mut [u8],
) -> Result<(u64, Vec<Found>), StartCause>
    requires geometry { IsGeometry geometry.now }
    requires block { block < geometry.now.blocks }
    requires room { device_end geometry.now ≤ (D.view disk.old).extent }
    requires size { length body.old ≡ geometry.now.block_size - 4096 }
    ensures read { OnlyRead (D.view disk.old) (D.view disk.new) }
    ensures size { length body.new ≡ geometry.now.block_size - 4096 }
    ensures found { IfOk result (λ r. IsReading body.new block r.0 r.1.items) }
    ensures bytes { (D.view disk.old).tells → MatchResult result (λ r. body.new ≡ body_bytes geometry.now block (D.view disk.old).seen) (λ cause. StopsOn geometry.now (D.view disk.old).seen block cause) }
    ensures cause { IfErr result (λ cause. FaultRose cause (D.view disk.old).faults (D.view disk.new).faults) }
{
    let place = start_of_block(geometry, block) + SECTOR_BYTES as u64;
    let Ok(()) = disk.read_at(place, body) else {
        return Err(StartCause::Fault);
    };
    match read_body(alloc, body, block) {
        Ok(read) => Ok(read),
        Err(BodyRefusal::Bad { place }) => Err(StartCause::DamagedBlock { block, place }),
        Err(BodyRefusal::Memory) => Err(StartCause::Memory),
    }
}

// Takes an open block: its records are counted, and kept where they are the latest.
fn take_open<D: Disk>(
    alloc: Global,
    disk: &mut D,
    geometry: &Geometry,
    block: u32,
    body: &mut [u8],
    taken: &mut Taken,
) -> Result<(), StartCause>
    requires geometry { IsGeometry geometry.now }
    requires block { block < geometry.now.blocks }
    requires room { device_end geometry.now ≤ (D.view disk.old).extent }
    requires size { length body.old ≡ geometry.now.block_size - 4096 }
    requires copies { taken.old.copies ≤ 4294967295 * block }
    ensures read { OnlyRead (D.view disk.old) (D.view disk.new) }
    ensures size { length body.new ≡ geometry.now.block_size - 4096 }
    ensures taken { OnOk result (TakesBody geometry.now block body.new taken.old taken.new) }
    ensures bytes { (D.view disk.old).tells → MatchResult result (λ done. body.new ≡ body_bytes geometry.now block (D.view disk.old).seen) (λ cause. StopsOn geometry.now (D.view disk.old).seen block cause) }
    ensures cause { IfErr result (λ cause. FaultRose cause (D.view disk.old).faults (D.view disk.new).faults) }
{
    let (number, found) = match read_block(alloc, disk, geometry, block, body) {
        Ok(read) => read,
        Err(cause) => return Err(cause),
    };
    let Ok(()) = keep_all(&mut taken.latest, geometry, block, &found) else {
        return Err(StartCause::Memory);
    };
    taken.copies += found.len() as u64;
    taken.greatest = taken.greatest.max(number);
    Ok(())
}

// Takes all blocks, the lowest first.
fn take_blocks<D: Disk>(
    alloc: Global,
    disk: &mut D,
    geometry: &Geometry,
    gates: &[Gate],
    body: &mut [u8],
) -> Result<Taken, StartCause>
    requires geometry { IsGeometry geometry.now }
    requires room { device_end geometry.now ≤ (D.view disk.old).extent }
    requires size { length body.old ≡ geometry.now.block_size - 4096 }
    requires count { length gates.now ≡ geometry.now.blocks }
    ensures read { OnlyRead (D.view disk.old) (D.view disk.new) }
    ensures found { IfOk result (λ taken. (bodies : List Body) × IsTaken geometry.now gates.now geometry.now.blocks bodies taken
        × ((D.view disk.old).tells → AreGates geometry.now (D.view disk.old).seen gates.now → HasBodies geometry.now (D.view disk.old).seen (range_with_len 0 geometry.now.blocks) bodies)) }
    ensures stopped { (D.view disk.old).tells → AreGates geometry.now (D.view disk.old).seen gates.now → IfErr result (λ cause. IsStopped geometry.now (D.view disk.old).seen cause) }
    ensures cause { IfErr result (λ cause. FaultRose cause (D.view disk.old).faults (D.view disk.new).faults) }
{
    let mut taken = Taken {
        latest: BTreeMap::new(alloc),
        copies: 0,
        greatest: 0,
    };
    for block in 0..geometry.blocks {
        if !is_opened(gates, block) {
            continue;
        }
        match take_open(alloc, disk, geometry, block, body, &mut taken) {
            Ok(()) => {}
            Err(cause) => return Err(cause),
        }
    }
    Ok(taken)
}

/// Reads the bodies behind the open gates, in rising order. It has the memory of one.
pub(crate) fn open_bodies<D: Disk>(
    alloc: Global,
    disk: &mut D,
    geometry: &Geometry,
    gates: &[Gate],
) -> Result<Taken, StartCause>
    requires geometry { IsGeometry geometry.now }
    requires room { device_end geometry.now ≤ (D.view disk.old).extent }
    requires count { length gates.now ≡ geometry.now.blocks }
    ensures read { OnlyRead (D.view disk.old) (D.view disk.new) }
    ensures found { IfOk result (λ taken. (bodies : List Body) × IsTaken geometry.now gates.now geometry.now.blocks bodies taken
        × ((D.view disk.old).tells → AreGates geometry.now (D.view disk.old).seen gates.now → HasBodies geometry.now (D.view disk.old).seen (range_with_len 0 geometry.now.blocks) bodies)) }
    ensures stopped { (D.view disk.old).tells → AreGates geometry.now (D.view disk.old).seen gates.now → IfErr result (λ cause. IsStopped geometry.now (D.view disk.old).seen cause) }
    ensures cause { IfErr result (λ cause. FaultRose cause (D.view disk.old).faults (D.view disk.new).faults) }
{
    let Ok(mut body) = vec![in alloc; 0; geometry.block_size as usize - SECTOR_BYTES] else {
        return Err(StartCause::Memory);
    };
    take_blocks(alloc, disk, geometry, gates, &mut body)
}
