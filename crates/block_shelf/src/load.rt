// How the body of a block, and a copy of a record in it, is read from the disk, into room that is there.
ghost use Rattle.std.specs.Prelude.{◌≡◌, ◌+◌, ◌*◌, ◌≤◌, ◌<◌, ◌-◌, length, take, OnOk, OnErr};
ghost use Rattle.model_faults.specs.Counts.{Rose};
ghost use Rattle.rec_format.specs.Versions.{block_capacity};
ghost use Rattle.block_format.specs.Layout.{IsGeometry, body_bytes, device_end};
ghost use Rattle.block_shelf.specs.Disks.{OnlyRead};
ghost use Rattle.block_shelf.specs.Reads.{copy_bytes};

use crate::Place;
use block_flusher::start_of_block;
use block_format::{BODY_HEAD_BYTES, Geometry, SECTOR_BYTES};
use disk_model::{Disk, DiskFault};
use rec_format::UNIT_BYTES;

// Reads the body of a block, by one read.
pub(crate) fn load_body<D: Disk>(
    disk: &mut D,
    geometry: &Geometry,
    block: u32,
    body: &mut [u8],
) -> Result<(), DiskFault>
    requires geometry { IsGeometry geometry.now }
    requires block { block < geometry.now.blocks }
    requires room { device_end geometry.now ≤ (D.view disk.old).extent }
    requires size { length body.old ≡ geometry.now.block_size - 4096 }
    ensures read { (D.view disk.old).tells → OnOk result (body.new ≡ body_bytes geometry.now block (D.view disk.old).seen) }
    ensures cause { OnErr result (Rose (D.view disk.old).faults (D.view disk.new).faults) }
    ensures disk { OnlyRead (D.view disk.old) (D.view disk.new) }
{
    let place = start_of_block(geometry, block) + SECTOR_BYTES as u64;
    disk.read_at(place, body)
}

// Reads a copy into the first bytes of the room, by one read.
pub(crate) fn load_copy<D: Disk>(
    disk: &mut D,
    geometry: &Geometry,
    place: Place,
    room: &mut [u8],
) -> Result<(), DiskFault>
    requires geometry { IsGeometry geometry.now }
    requires block { place.block < geometry.now.blocks }
    requires within { place.unit + place.units ≤ block_capacity geometry.now.block_size }
    requires extent { device_end geometry.now ≤ (D.view disk.old).extent }
    requires room { 16 * place.units ≤ length room.old }
    ensures read { (D.view disk.old).tells → OnOk result (take (16 * place.units) room.new ≡ copy_bytes geometry.now place (D.view disk.old).seen) }
    ensures cause { OnErr result (Rose (D.view disk.old).faults (D.view disk.new).faults) }
    ensures disk { OnlyRead (D.view disk.old) (D.view disk.new) }
{
    let start = start_of_block(geometry, place.block)
        + (SECTOR_BYTES + BODY_HEAD_BYTES + UNIT_BYTES * place.unit as usize) as u64;
    let (copy, _) = room.split_at_mut(UNIT_BYTES * place.units as usize);
    disk.read_at(start, copy)
}
