// The records of an image, block by block.
ghost use Rattle.std.specs.Prelude.{◌≡◌, ◌+◌, ◌-◌, ◌*◌, ◌<◌, ◌≤◌, ◌↔◌, Some, IfOk, length, take};
ghost use Rattle.rec_format.specs.declared.version.Digest.{Digest};
ghost use Rattle.rec_format.specs.declared.version.Version.{Version};
ghost use Rattle.block_format.specs.Layout.{IsGeometry, IsHeader, IsRecordAt, block_place, body_bytes, device_end, gate_sector};
ghost use Rattle.test_hist.specs.Steps.{AddsBlock, AddsBody};

use block_format::{
    BODY_HEAD_BYTES, BodyRefusal, Geometry, MAX_BODY_BYTES, SECTOR_BYTES, is_open, read_body,
    read_header,
};
use rec_format::{Digest, NoMemory, ParseRefusal, UNIT_BYTES, Version, parse};
use std::alloc::{AllocError, Global};

/// Where a block begins; behind the last one, where the device ends.
fn place_of(geometry: &Geometry, block: u32) -> usize
    ensures { result ≡ block_place geometry.now block }
{
    SECTOR_BYTES + block as usize * geometry.block_size as usize
}

/// The shape that the header of an image tells; none exactly where there is no header, or the image ends before the
/// device does.
pub(crate) fn shape_of(image: &[u8]) -> Option<Geometry>
    ensures { (g : Geometry) → (result ≡ Some g)
        ↔ (IsHeader (take 4096 image.now) g × (device_end g ≤ length image.now)) }
{
    if image.len() < SECTOR_BYTES {
        return None;
    }
    let mut sector = [0; SECTOR_BYTES];
    sector.copy_from_slice(&image[..SECTOR_BYTES]);
    let Some(geometry) = read_header(&sector) else {
        return None;
    };
    if image.len() < place_of(&geometry, geometry.blocks) {
        return None;
    }
    Some(geometry)
}

/// The gate sector of a block.
fn gate_of<'a>(image: &'a [u8], geometry: &Geometry, block: u32) -> &'a [u8]
    requires geometry { IsGeometry geometry.now }
    requires block { block < geometry.now.blocks }
    requires room { device_end geometry.now ≤ length image.now }
    ensures bytes { result.now ≡ gate_sector geometry.now block image.now }
    ensures size { length result.now ≡ 4096 }
{
    let place = place_of(geometry, block);
    &image[place..place + SECTOR_BYTES]
}

/// A block without its gate sector.
fn body_of<'a>(image: &'a [u8], geometry: &Geometry, block: u32) -> &'a [u8]
    requires geometry { IsGeometry geometry.now }
    requires block { block < geometry.now.blocks }
    requires room { device_end geometry.now ≤ length image.now }
    ensures bytes { result.now ≡ body_bytes geometry.now block image.now }
    ensures size { length result.now ≡ geometry.now.block_size - 4096 }
{
    let place = place_of(geometry, block);
    &image[place + SECTOR_BYTES..place + geometry.block_size as usize]
}

/// The record behind so many units of a body, where one stands.
fn record_at(alloc: Global, body: &[u8], unit: u32) -> Result<(Digest, Version), NoMemory>
    requires { (digest : Digest) × (v : Version) × IsRecordAt body.now (32 + 16 * unit) digest v }
    ensures { IfOk result (λ r. IsRecordAt body.now (32 + 16 * unit) r.0 r.1) }
{
    let place = BODY_HEAD_BYTES + UNIT_BYTES * unit as usize;
    match parse(alloc, &body[place..]) {
        Ok((digest, version, _units)) => Ok((digest, version)),
        Err(ParseRefusal::Memory) => Err(AllocError),
        Err(ParseRefusal::Bad(_)) => unreachable!(),
    }
}

/// Puts the records of the body of a block behind some others; false exactly where no body of this block is at the
/// front of the bytes.
fn add_body(
    alloc: Global,
    body: &[u8],
    block: u32,
    records: &mut Vec<(Digest, Version)>,
) -> Result<bool, NoMemory>
    requires head { BODY_HEAD_BYTES ≤ length body.now }
    requires size { length body.now ≤ MAX_BODY_BYTES }
    ensures { IfOk result (λ r. AddsBody body.now block r records.old.items records.new.items) }
{
    let (_number, found) = match read_body(alloc, body, block) {
        Ok(read) => read,
        Err(BodyRefusal::Bad { .. }) => return Ok(false),
        Err(BodyRefusal::Memory) => return Err(AllocError),
    };
    for record in &found {
        let read = record_at(alloc, body, record.unit)?;
        records.push(read)?;
    }
    Ok(true)
}

/// Puts the records behind the gate of a block behind some others: those of its body where the gate is open, and none
/// where it is closed. False exactly where it is open and no body of this block is there.
pub(crate) fn add_block(
    alloc: Global,
    image: &[u8],
    geometry: &Geometry,
    block: u32,
    records: &mut Vec<(Digest, Version)>,
) -> Result<bool, NoMemory>
    requires geometry { IsGeometry geometry.now }
    requires block { block < geometry.now.blocks }
    requires room { device_end geometry.now ≤ length image.now }
    ensures { IfOk result (λ r. AddsBlock geometry.now image.now block r records.old.items records.new.items) }
{
    if !is_open(gate_of(image, geometry, block)) {
        return Ok(true);
    }
    add_body(alloc, body_of(image, geometry, block), block, records)
}
