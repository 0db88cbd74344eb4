// The body of a block.
ghost use Rattle.std.specs.Prelude.{◌≡◌, ◌+◌, ◌-◌, ◌<◌, ◌≤◌, length, OnOk};
ghost use Rattle.disk_model.specs.Disk.{TornFrom, TellsTorn, IsSettled, IsHonest, IsCall, meanwhile};
ghost use Rattle.block_format.specs.Layout.{IsGeometry, device_end, block_place, body_bytes};
ghost use Rattle.block_flusher.specs.Images.{IsShut, HasOneBody, OpensOverOneBody, ChangesNoOther};

use crate::place::write_part;
use block_format::{Geometry, SECTOR_BYTES};
use disk_model::{Disk, DiskFault};

/// At `Ok` the block has this body, and from then on each crash leaves it, until the next write there. The gate of the block must be
/// closed in every image, and at no moment does a crash leave it open, or any byte outside the block changed. After a fault some of the
/// body may be there. One write and one sync.
pub fn write_body<D: Disk>(
    disk: &mut D,
    geometry: &Geometry,
    block: u32,
    body: &[u8],
) -> Result<(), DiskFault>
    requires geometry { IsGeometry geometry.now }
    requires block { block < geometry.now.blocks }
    requires size { length body.now ≡ geometry.now.block_size - 4096 }
    requires room { device_end geometry.now ≤ (D.view disk.old).extent }
    requires shut { IsHonest (D.view disk.old) → IsShut geometry.now block (D.view disk.old).may_leave }
    ensures body { (D.view disk.old).tells → OnOk result (body_bytes geometry.now block (D.view disk.new).seen ≡ body.now) }
    ensures settled { (D.view disk.old).tells → OnOk result (HasOneBody geometry.now block body.now (D.view disk.new).may_leave) }
    ensures durable { (D.view disk.old).tells → OnOk result (IsSettled (D.view disk.new)) }
    ensures bytes { TellsTorn (block_place geometry.now block + 4096) (geometry.now.block_size - 4096) (D.view disk.old) (D.view disk.new) }
    ensures images { IsHonest (D.view disk.old) → TornFrom (block_place geometry.now block + 4096) (geometry.now.block_size - 4096) (D.view disk.old).may_leave (meanwhile (D.view disk.old) (D.view disk.new)) }
    ensures others { IsHonest (D.view disk.old) → ChangesNoOther geometry.now block (D.view disk.old).may_leave (meanwhile (D.view disk.old) (D.view disk.new)) }
    ensures shut { IsHonest (D.view disk.old) → IsShut geometry.now block (meanwhile (D.view disk.old) (D.view disk.new)) }
    ensures kept { IsHonest (D.view disk.old) → OpensOverOneBody geometry.now block (meanwhile (D.view disk.old) (D.view disk.new)) }
    ensures call { IsCall (D.view disk.old) (D.view disk.new) result }
{
    write_part(disk, geometry, block, SECTOR_BYTES as u32, body)
}
