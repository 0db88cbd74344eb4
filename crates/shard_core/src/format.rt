// How a disk is made a device: every gate is closed, and then the header is written.
ghost use Rattle.std.specs.Prelude.{◌≡◌, ◌≤◌, ◌^◌, OnOk, OnErr};
ghost use Rattle.model_faults.specs.Counts.{Rose};
ghost use Rattle.disk_model.specs.Disk.{IsSettled, IsHonest, Advances};
ghost use Rattle.disk_model.specs.Runs.{Leaves};
ghost use Rattle.block_format.specs.Layout.{IsGeometry, device_end};
ghost use Rattle.block_format.specs.Copies.{IsFormatted};
ghost use Rattle.shard_core.specs.Finding.{AllZeros, HasHeaderOf, IsHalfFormatted};

use block_flusher::start_of_block;
use block_format::{Geometry, SECTOR_BYTES, write_closed, write_header};
use disk_model::{Disk, DiskFault, write_synced};

// Writes a closed gate over each block's gate sector.
fn close_gates<D: Disk>(disk: &mut D, geometry: &Geometry) -> Result<(), DiskFault>
    requires geometry { IsGeometry geometry.now }
    requires room { device_end geometry.now ≤ (D.view disk.old).extent }
    ensures zeros { (D.view disk.old).tells → OnOk result (AllZeros geometry.now (D.view disk.new).seen geometry.now.blocks) }
    ensures told { (D.view disk.old).tells → (D.view disk.new).tells }
    ensures honest { IsHonest (D.view disk.old) → IsHonest (D.view disk.new) }
    ensures header { Leaves (HasHeaderOf (D.view disk.old).may_leave) (D.view disk.old) (D.view disk.new) }
    ensures later { (D.view disk.old).faults ≤ (D.view disk.new).faults }
    ensures cause { OnErr result (Rose (D.view disk.old).faults (D.view disk.new).faults) }
    ensures len { (D.view disk.new).extent ≡ (D.view disk.old).extent }
{
    let mut gate = [0; SECTOR_BYTES];
    write_closed(&mut gate);
    for block in 0..geometry.blocks {
        disk.write_at(start_of_block(geometry, block), &gate)?;
    }
    Ok(())
}

/// At `Ok` the disk is a device of this shape without a record, each gate is 4,096 zero bytes, and from then on a crash leaves just that,
/// on a disk that tells its bytes. It closes the gate of each block, syncs, writes the header, and syncs: at no moment does a crash of an
/// honest disk leave a header that wasn't there before together with an open gate. After a fault the disk may hold some of it; format it
/// again. It takes no memory.
pub fn format_disk<D: Disk>(disk: &mut D, geometry: &Geometry) -> Result<(), DiskFault>
    requires geometry { IsGeometry geometry.now }
    requires room { device_end geometry.now ≤ (D.view disk.old).extent }
    ensures formatted { (D.view disk.old).tells → OnOk result (IsFormatted geometry.now (D.view disk.new).seen) }
    ensures zeros { (D.view disk.old).tells → OnOk result (AllZeros geometry.now (D.view disk.new).seen geometry.now.blocks) }
    ensures durable { (D.view disk.old).tells → OnOk result (IsSettled (D.view disk.new)) }
    ensures told { (D.view disk.old).tells → (D.view disk.new).tells }
    ensures honest { IsHonest (D.view disk.old) → IsHonest (D.view disk.new) }
    ensures time { Advances (D.view disk.old) (D.view disk.new) }
    ensures ordered { IsHonest (D.view disk.old) → Leaves (IsHalfFormatted geometry.now (D.view disk.old).may_leave) (D.view disk.old) (D.view disk.new) }
    ensures later { (D.view disk.old).faults ≤ (D.view disk.new).faults }
    ensures cause { OnErr result (Rose (D.view disk.old).faults (D.view disk.new).faults) }
    ensures len { (D.view disk.new).extent ≡ (D.view disk.old).extent }
{
    close_gates(disk, geometry)?;
    disk.sync()?;
    let mut header = [0; SECTOR_BYTES];
    write_header(geometry, &mut header);
    write_synced(disk, 0, &header)
}
