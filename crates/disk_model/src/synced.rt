// A write that is on the disk when it returns.
ghost use Rattle.std.specs.Prelude.{◌+◌, ◌≤◌, length, OnOk};
ghost use Rattle.disk_model.specs.Disk.{Written, TornFrom, TellsTorn, IsSettled, IsHonest, IsCall, meanwhile};

use crate::{Disk, DiskFault};

/// At `Ok` these bytes stand at the place, and a crash leaves just what is read, of a disk that tells its bytes. Over an honest disk all
/// other bytes are as they were, whatever the moment of a crash.
pub fn write_synced<D: Disk>(disk: &mut D, place: u64, bytes: &[u8]) -> Result<(), DiskFault>
    requires { place + length bytes.now ≤ (D.view disk.old).extent }
    ensures written { (D.view disk.old).tells → OnOk result (Written place bytes.now (D.view disk.old).seen (D.view disk.new).seen) }
    ensures durable { (D.view disk.old).tells → OnOk result (IsSettled (D.view disk.new)) }
    ensures bytes { TellsTorn place (length bytes.now) (D.view disk.old) (D.view disk.new) }
    ensures images { IsHonest (D.view disk.old) → TornFrom place (length bytes.now) (D.view disk.old).may_leave (meanwhile (D.view disk.old) (D.view disk.new)) }
    ensures call { IsCall (D.view disk.old) (D.view disk.new) result }
{
    disk.write_at(place, bytes)?;
    disk.sync()
}
