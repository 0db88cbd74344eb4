// The bodies behind the open gates, read once more, and their copies.
ghost use Rattle.std.specs.Prelude.{◌≡◌, ◌+◌, ◌-◌, ◌*◌, ◌<◌, ◌≤◌, ℕ, List, length, slice_get, option_map, Some, IfErr, OnOk, MatchResult};
ghost use Rattle.std.specs.List.{range_with_len};
ghost use Rattle.disk_model.specs.Bytes.{range};
ghost use Rattle.block_format.specs.Layout.{IsGeometry, device_end, Body};
ghost use Rattle.block_format.specs.Readings.{IsReading};
ghost use Rattle.block_format.specs.Copies.{HasBodies, copies_of};
ghost use Rattle.block_shelf.specs.Disks.{OnlyRead};
ghost use Rattle.cold_scan.specs.Starting.{FaultRose, IsByBytes};
ghost use Rattle.cold_scan.specs.Found.{is_set, AreGates};
ghost use Rattle.sound_scan.specs.Tallied.{IsOwn, AreOnDevice, TakesBody, TakesBlock, IsStop, IsTally};

use crate::tally::Tally;
use block_flusher::start_of_block;
use block_format::{BODY_HEAD_BYTES, BodyRefusal, Found, Gate, Geometry, SECTOR_BYTES, read_body};
use cold_scan::StartCause;
use disk_model::Disk;
use rec_format::UNIT_BYTES;
use std::alloc::Global;
use std::collections::BTreeMap;

// The bytes of a record that was found in a body.
fn text_in<'b>(body: &'b [u8], found: &Found) -> &'b [u8]
    requires { 32 + 16 * (found.now.unit + found.now.units) ≤ length body.now }
    ensures { result.now ≡ range (32 + 16 * found.now.unit) (16 * found.now.units) body.entry.now }
{
    let start = BODY_HEAD_BYTES + UNIT_BYTES * found.unit as usize;
    &body[start..start + UNIT_BYTES * found.units as usize]
}

// Takes in the copies of a body that was read.
fn take_body<D: Disk>(
    disk: &mut D,
    geometry: &Geometry,
    block: u32,
    body: &[u8],
    found: &[Found],
    other: &mut [u8],
    tally: &mut Tally,
) -> Result<(), StartCause>
    requires geometry { IsGeometry geometry.now }
    requires block { block < geometry.now.blocks }
    requires room { device_end geometry.now ≤ (D.view disk.old).extent }
    requires body { length body.now ≡ geometry.now.block_size - 4096 }
    requires reading { (number : ℕ) × IsReading body.now block number found.now }
    requires known { AreOnDevice geometry.now tally.old.past }
    requires size { length other.old ≡ geometry.now.block_size - 4096 }
    ensures read { OnlyRead (D.view disk.old) (D.view disk.new) }
    ensures size { length other.new ≡ geometry.now.block_size - 4096 }
    ensures known { OnOk result (AreOnDevice geometry.now tally.new.past) }
    ensures taken { (D.view disk.old).tells → OnOk result (TakesBody geometry.now (D.view disk.old).seen block body.now tally.old tally.new) }
    ensures cause { IfErr result (λ cause. IsOwn cause (D.view disk.old).faults (D.view disk.new).faults) }
{
    for record in found {
        match tally.take(disk, geometry, block, record, text_in(body, record), other) {
            Ok(()) => {}
            Err(cause) => return Err(cause),
        }
    }
    Ok(())
}

// Reads the body of an open block, and takes in its copies.
fn take_block<D: Disk>(
    alloc: Global,
    disk: &mut D,
    geometry: &Geometry,
    block: u32,
    body: &mut [u8],
    other: &mut [u8],
    tally: &mut Tally,
) -> Result<(), StartCause>
    requires geometry { IsGeometry geometry.now }
    requires block { block < geometry.now.blocks }
    requires room { device_end geometry.now ≤ (D.view disk.old).extent }
    requires body { length body.old ≡ geometry.now.block_size - 4096 }
    requires known { AreOnDevice geometry.now tally.old.past }
    requires size { length other.old ≡ geometry.now.block_size - 4096 }
    ensures read { OnlyRead (D.view disk.old) (D.view disk.new) }
    ensures body { length body.new ≡ geometry.now.block_size - 4096 }
    ensures size { length other.new ≡ geometry.now.block_size - 4096 }
    ensures known { OnOk result (AreOnDevice geometry.now tally.new.past) }
    ensures taken { (D.view disk.old).tells → MatchResult result (λ done. TakesBlock geometry.now (D.view disk.old).seen block tally.old tally.new) (λ cause. IsStop geometry.now (D.view disk.old).seen block cause) }
    ensures cause { IfErr result (λ cause. FaultRose cause (D.view disk.old).faults (D.view disk.new).faults) }
{
    let place = start_of_block(geometry, block) + SECTOR_BYTES as u64;
    let Ok(()) = disk.read_at(place, body) else {
        return Err(StartCause::Fault);
    };
    match read_body(alloc, body, block) {
        Ok((_, found)) => take_body(disk, geometry, block, body, &found, other, tally),
        Err(BodyRefusal::Bad { place }) => Err(StartCause::DamagedBlock { block, place }),
        Err(BodyRefusal::Memory) => Err(StartCause::Memory),
    }
}

// Whether the block has an open gate.
fn is_opened(gates: &[Gate], block: u32) -> bool
    requires { block < length gates.now }
    ensures { option_map is_set (slice_get gates.now block) ≡ Some result }
{
    gates[block as usize] == Gate::Set
}

// Takes in the copies of all open blocks, the lowest first.
fn take_blocks<D: Disk>(
    alloc: Global,
    disk: &mut D,
    geometry: &Geometry,
    gates: &[Gate],
    body: &mut [u8],
    other: &mut [u8],
) -> Result<Tally, StartCause>
    requires geometry { IsGeometry geometry.now }
    requires room { device_end geometry.now ≤ (D.view disk.old).extent }
    requires count { length gates.now ≡ geometry.now.blocks }
    requires body { length body.old ≡ geometry.now.block_size - 4096 }
    requires size { length other.old ≡ geometry.now.block_size - 4096 }
    ensures read { OnlyRead (D.view disk.old) (D.view disk.new) }
    ensures taken { (D.view disk.old).tells → AreGates geometry.now (D.view disk.old).seen gates.now → (bodies : List Body)
        → HasBodies geometry.now (D.view disk.old).seen (range_with_len 0 geometry.now.blocks) bodies
        → MatchResult result (λ tally. IsTally geometry.now (D.view disk.old).seen (copies_of bodies) tally) (λ cause. IsByBytes cause → ⊥) }
    ensures cause { IfErr result (λ cause. FaultRose cause (D.view disk.old).faults (D.view disk.new).faults) }
{
    let mut tally = Tally {
        past: BTreeMap::new(alloc),
        stray: None,
        twins: None,
    };
    for block in 0..geometry.blocks {
        if !is_opened(gates, block) {
            continue;
        }
        match take_block(alloc, disk, geometry, block, body, other, &mut tally) {
            Ok(()) => {}
            Err(cause) => return Err(cause),
        }
    }
    Ok(tally)
}

/// The tally of the copies behind the open gates, whose bodies are read once more, in rising order. Beside the tally it has the memory of
/// two bodies.
pub(crate) fn tally_of<D: Disk>(
    alloc: Global,
    disk: &mut D,
    geometry: &Geometry,
    gates: &[Gate],
) -> Result<Tally, StartCause>
    requires geometry { IsGeometry geometry.now }
    requires room { device_end geometry.now ≤ (D.view disk.old).extent }
    requires count { length gates.now ≡ geometry.now.blocks }
    ensures read { OnlyRead (D.view disk.old) (D.view disk.new) }
    ensures taken { (D.view disk.old).tells → AreGates geometry.now (D.view disk.old).seen gates.now → (bodies : List Body)
        → HasBodies geometry.now (D.view disk.old).seen (range_with_len 0 geometry.now.blocks) bodies
        → MatchResult result (λ tally. IsTally geometry.now (D.view disk.old).seen (copies_of bodies) tally) (λ cause. IsByBytes cause → ⊥) }
    ensures cause { IfErr result (λ cause. FaultRose cause (D.view disk.old).faults (D.view disk.new).faults) }
{
    let size = geometry.block_size as usize - SECTOR_BYTES;
    let Ok(mut body) = vec![in alloc; 0; size] else {
        return Err(StartCause::Memory);
    };
    let Ok(mut other) = vec![in alloc; 0; size] else {
        return Err(StartCause::Memory);
    };
    take_blocks(alloc, disk, geometry, gates, &mut body, &mut other)
}
