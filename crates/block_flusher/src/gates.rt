// The gate of a block.
ghost use Rattle.std.specs.Prelude.{◌≡◌, ◌<◌, ◌≤◌, IfOk, OnOk};
ghost use Rattle.disk_model.specs.Disk.{TornFrom, TellsTorn, IsSettled, IsHonest, IsCall, meanwhile};
ghost use Rattle.block_format.specs.Layout.{IsGeometry, device_end, block_place, body_bytes, gate_sector, closed_sector, open_sector};
ghost use Rattle.block_flusher.specs.Images.{IsShut, IsOpened, HasOneBody, IsBodyOf, OpensOverOneBody, OpensOverBodies, ChangesNoOther};

use crate::place::{write_part, write_unsynced};
use block_format::{Geometry, SECTOR_BYTES, write_closed, write_open};
use disk_model::{Disk, DiskFault};

/// At `Ok` the gate of the block is closed, and from then on each crash leaves it closed, until it is opened. The block must have one
/// body in every image, in the body grammar, and keeps it at each moment. After a fault the gate may be open in some images, and closed
/// in others. One write and one sync.
pub fn close_gate<D: Disk>(disk: &mut D, geometry: &Geometry, block: u32) -> Result<(), DiskFault>
    requires geometry { IsGeometry geometry.now }
    requires block { block < geometry.now.blocks }
    requires room { device_end geometry.now ≤ (D.view disk.old).extent }
    requires settled { IsHonest (D.view disk.old) → HasOneBody geometry.now block (body_bytes geometry.now block (D.view disk.old).seen) (D.view disk.old).may_leave }
    requires body { IsHonest (D.view disk.old) → IsBodyOf geometry.now block (body_bytes geometry.now block (D.view disk.old).seen) }
    ensures gate { (D.view disk.old).tells → OnOk result (gate_sector geometry.now block (D.view disk.new).seen ≡ closed_sector) }
    ensures shut { (D.view disk.old).tells → OnOk result (IsShut geometry.now block (D.view disk.new).may_leave) }
    ensures durable { (D.view disk.old).tells → OnOk result (IsSettled (D.view disk.new)) }
    ensures bytes { TellsTorn (block_place geometry.now block) 4096 (D.view disk.old) (D.view disk.new) }
    ensures images { IsHonest (D.view disk.old) → TornFrom (block_place geometry.now block) 4096 (D.view disk.old).may_leave (meanwhile (D.view disk.old) (D.view disk.new)) }
    ensures others { IsHonest (D.view disk.old) → ChangesNoOther geometry.now block (D.view disk.old).may_leave (meanwhile (D.view disk.old) (D.view disk.new)) }
    ensures settled { IsHonest (D.view disk.old) → HasOneBody geometry.now block (body_bytes geometry.now block (D.view disk.old).seen) (meanwhile (D.view disk.old) (D.view disk.new)) }
    ensures kept { IsHonest (D.view disk.old) → OpensOverOneBody geometry.now block (meanwhile (D.view disk.old) (D.view disk.new)) }
    ensures readable { IsHonest (D.view disk.old) → OpensOverBodies geometry.now block (meanwhile (D.view disk.old) (D.view disk.new)) }
    ensures call { IsCall (D.view disk.old) (D.view disk.new) result }
{
    let mut closed = [0; SECTOR_BYTES];
    write_closed(&mut closed);
    write_part(disk, geometry, block, 0, &closed)
}

/// At `Ok` a closed gate stands over that of the block as it is read, and the next sync that goes well leaves it closed. The block must
/// have one body in every image, in the body grammar, and keeps it at each moment. Until such a sync, and after a fault, the gate may
/// be open in some images, and closed in others. One write.
pub fn cover_gate<D: Disk>(disk: &mut D, geometry: &Geometry, block: u32) -> Result<(), DiskFault>
    requires geometry { IsGeometry geometry.now }
    requires block { block < geometry.now.blocks }
    requires room { device_end geometry.now ≤ (D.view disk.old).extent }
    requires settled { IsHonest (D.view disk.old) → HasOneBody geometry.now block (body_bytes geometry.now block (D.view disk.old).seen) (D.view disk.old).may_leave }
    requires body { IsHonest (D.view disk.old) → IsBodyOf geometry.now block (body_bytes geometry.now block (D.view disk.old).seen) }
    ensures gate { (D.view disk.old).tells → OnOk result (gate_sector geometry.now block (D.view disk.new).seen ≡ closed_sector) }
    ensures bytes { TellsTorn (block_place geometry.now block) 4096 (D.view disk.old) (D.view disk.new) }
    ensures images { IsHonest (D.view disk.old) → TornFrom (block_place geometry.now block) 4096 (D.view disk.old).may_leave (meanwhile (D.view disk.old) (D.view disk.new)) }
    ensures others { IsHonest (D.view disk.old) → ChangesNoOther geometry.now block (D.view disk.old).may_leave (meanwhile (D.view disk.old) (D.view disk.new)) }
    ensures settled { IsHonest (D.view disk.old) → HasOneBody geometry.now block (body_bytes geometry.now block (D.view disk.old).seen) (meanwhile (D.view disk.old) (D.view disk.new)) }
    ensures kept { IsHonest (D.view disk.old) → OpensOverOneBody geometry.now block (meanwhile (D.view disk.old) (D.view disk.new)) }
    ensures readable { IsHonest (D.view disk.old) → OpensOverBodies geometry.now block (meanwhile (D.view disk.old) (D.view disk.new)) }
    ensures call { IsCall (D.view disk.old) (D.view disk.new) result }
{
    let mut cover = [0; SECTOR_BYTES];
    write_closed(&mut cover);
    write_unsynced(disk, geometry, block, &cover)
}

/// At `Ok` the gate of the block is open, and from then on each crash leaves it open, with the block's body behind it, until it is
/// closed. The block must have one body in every image, and keeps it at each moment. After a fault the gate may be open in some images,
/// and closed in others. One write and one sync.
pub fn open_gate<D: Disk>(disk: &mut D, geometry: &Geometry, block: u32) -> Result<(), DiskFault>
    requires geometry { IsGeometry geometry.now }
    requires block { block < geometry.now.blocks }
    requires room { device_end geometry.now ≤ (D.view disk.old).extent }
    requires settled { IsHonest (D.view disk.old) → HasOneBody geometry.now block (body_bytes geometry.now block (D.view disk.old).seen) (D.view disk.old).may_leave }
    ensures gate { (D.view disk.old).tells → OnOk result (gate_sector geometry.now block (D.view disk.new).seen ≡ open_sector) }
    ensures opened { (D.view disk.old).tells → OnOk result (IsOpened geometry.now block (D.view disk.new).may_leave) }
    ensures durable { (D.view disk.old).tells → OnOk result (IsSettled (D.view disk.new)) }
    ensures bytes { TellsTorn (block_place geometry.now block) 4096 (D.view disk.old) (D.view disk.new) }
    ensures images { IsHonest (D.view disk.old) → TornFrom (block_place geometry.now block) 4096 (D.view disk.old).may_leave (meanwhile (D.view disk.old) (D.view disk.new)) }
    ensures others { IsHonest (D.view disk.old) → ChangesNoOther geometry.now block (D.view disk.old).may_leave (meanwhile (D.view disk.old) (D.view disk.new)) }
    ensures settled { IsHonest (D.view disk.old) → HasOneBody geometry.now block (body_bytes geometry.now block (D.view disk.old).seen) (meanwhile (D.view disk.old) (D.view disk.new)) }
    ensures kept { IsHonest (D.view disk.old) → OpensOverOneBody geometry.now block (meanwhile (D.view disk.old) (D.view disk.new)) }
    ensures call { IsCall (D.view disk.old) (D.view disk.new) result }
{
    let mut opened = [0; SECTOR_BYTES];
    write_open(&mut opened);
    write_part(disk, geometry, block, 0, &opened)
}
