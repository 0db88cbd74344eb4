// Where a block stands, and a write within it.
ghost use Rattle.std.specs.Prelude.{◌≡◌, ◌+◌, ◌<◌, ◌≤◌, length, OnOk};
ghost use Rattle.disk_model.specs.Disk.{Written, TornFrom, TellsTorn, IsSettled, IsHonest, IsCall, meanwhile};
ghost use Rattle.block_format.specs.Layout.{IsGeometry, device_end, block_place};
ghost use Rattle.block_flusher.specs.Images.{ChangesNoOther};

use block_format::{Geometry, SECTOR_BYTES};
use disk_model::{Disk, DiskFault, write_synced};

/// Where a block begins on its device, in bytes.
pub fn start_of_block(geometry: &Geometry, block: u32) -> u64
    requires geometry { IsGeometry geometry.now }
    requires block { block < geometry.now.blocks }
    ensures place { result ≡ block_place geometry.now block }
    ensures room { result + geometry.now.block_size ≤ device_end geometry.now }
{
    SECTOR_BYTES as u64 + u64::from(block) * u64::from(geometry.block_size)
}

/// At `Ok` the bytes stand within the block, from an offset on, and a crash leaves just what is read, until the next write. At no moment
/// does a crash leave a byte outside the block changed. After a fault some of them may be there.
pub fn write_part<D: Disk>(
    disk: &mut D,
    geometry: &Geometry,
    block: u32,
    offset: u32,
    bytes: &[u8],
) -> Result<(), DiskFault>
    requires geometry { IsGeometry geometry.now }
    requires block { block < geometry.now.blocks }
    requires within { offset + length bytes.now ≤ geometry.now.block_size }
    requires room { device_end geometry.now ≤ (D.view disk.old).extent }
    ensures written { (D.view disk.old).tells → OnOk result (Written (block_place geometry.now block + offset) bytes.now (D.view disk.old).seen (D.view disk.new).seen) }
    ensures durable { (D.view disk.old).tells → OnOk result (IsSettled (D.view disk.new)) }
    ensures bytes { TellsTorn (block_place geometry.now block + offset) (length bytes.now) (D.view disk.old) (D.view disk.new) }
    ensures images { IsHonest (D.view disk.old) → TornFrom (block_place geometry.now block + offset) (length bytes.now) (D.view disk.old).may_leave (meanwhile (D.view disk.old) (D.view disk.new)) }
    ensures others { IsHonest (D.view disk.old) → ChangesNoOther geometry.now block (D.view disk.old).may_leave (meanwhile (D.view disk.old) (D.view disk.new)) }
    ensures call { IsCall (D.view disk.old) (D.view disk.new) result }
{
    let place = start_of_block(geometry, block) + u64::from(offset);
    write_synced(disk, place, bytes)
}

/// At `Ok` the bytes are read at the begin of the block, and a crash may leave any bytes in their place until a sync goes well. At no
/// moment does a crash leave a byte outside the block changed. After a fault some of them may be there.
pub fn write_unsynced<D: Disk>(
    disk: &mut D,
    geometry: &Geometry,
    block: u32,
    bytes: &[u8],
) -> Result<(), DiskFault>
    requires geometry { IsGeometry geometry.now }
    requires block { block < geometry.now.blocks }
    requires within { length bytes.now ≤ geometry.now.block_size }
    requires room { device_end geometry.now ≤ (D.view disk.old).extent }
    ensures written { (D.view disk.old).tells → OnOk result (Written (block_place geometry.now block) bytes.now (D.view disk.old).seen (D.view disk.new).seen) }
    ensures bytes { TellsTorn (block_place geometry.now block) (length bytes.now) (D.view disk.old) (D.view disk.new) }
    ensures images { IsHonest (D.view disk.old) → TornFrom (block_place geometry.now block) (length bytes.now) (D.view disk.old).may_leave (meanwhile (D.view disk.old) (D.view disk.new)) }
    ensures others { IsHonest (D.view disk.old) → ChangesNoOther geometry.now block (D.view disk.old).may_leave (meanwhile (D.view disk.old) (D.view disk.new)) }
    ensures call { IsCall (D.view disk.old) (D.view disk.new) result }
{
    let place = start_of_block(geometry, block);
    disk.write_at(place, bytes)
}
