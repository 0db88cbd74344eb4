// What a disk promises.
ghost use Rattle.std.specs.Prelude.{◌≡◌, ◌+◌, ◌≤◌, length, OnOk, OnErr};
ghost use Rattle.disk_model.specs.Bytes.{range};
ghost use Rattle.disk_model.specs.Disk.{DiskView, IsDisk, Written, Within, TornFrom, TellsSame, TellsTorn, Loosens, IsOnly, IsHonest, IsCall, meanwhile};

/// A call of a disk failed. What it was to write may be there or not.
#[derive(Clone, Copy, Debug, PartialEq, Eq)]
pub struct DiskFault;

/// Storage of a fixed size. What was written may be lost or torn by a crash until a sync has gone well. No call makes an honest disk
/// of one that isn't, nor the other way round, and one that doesn't tell its bytes doesn't come to tell them.
pub trait Disk: Drop {
    /// What is known of it at this point.
    ghost view: { Self → DiskView };

    fn len(&self) -> u64
        ensures { result ≡ (view self.now).extent };

    /// At `Ok` `out` has what stands from a place on, in bytes, where the disk tells it; no image comes up that a crash might not have
    /// left before.
    fn read_at(&mut self, place: u64, out: &mut [u8]) -> Result<(), DiskFault>
        requires { place + length out.old ≤ (view self.old).extent }
        ensures read { (view self.old).tells → OnOk result (out.new ≡ range place (length out.old) (view self.old).seen) }
        ensures bytes { TellsSame (view self.old) (view self.new) }
        ensures images { Within (view self.old).may_leave (meanwhile (view self.old) (view self.new)) }
        ensures call { IsCall (view self.old) (view self.new) result };

    /// At `Ok` a read gives these bytes at the place, and all others as before, on a disk that tells its bytes; until a sync has gone
    /// well a crash may leave anything there, even where this call failed, and elsewhere what it left before.
    fn write_at(&mut self, place: u64, bytes: &[u8]) -> Result<(), DiskFault>
        requires { place + length bytes.now ≤ (view self.old).extent }
        ensures written { (view self.old).tells → OnOk result (Written place bytes.now (view self.old).seen (view self.new).seen) }
        ensures bytes { TellsTorn place (length bytes.now) (view self.old) (view self.new) }
        ensures images { TornFrom place (length bytes.now) (view self.old).may_leave (meanwhile (view self.old) (view self.new)) }
        ensures more { Within (view self.new).may_leave (view self.old).may_leave }
        ensures loose { OnOk result (Loosens place (length bytes.now) (view self.old).may_leave (view self.new).may_leave) }
        ensures call { IsCall (view self.old) (view self.new) result };

    /// At `Ok` a crash leaves just what is read, of a disk that tells its bytes, until the next write. After a fault over an honest disk no new
    /// image has come up.
    fn sync(&mut self) -> Result<(), DiskFault>
        ensures durable { (view self.old).tells → OnOk result (IsOnly (view self.old).seen (view self.new).may_leave) }
        ensures bytes { TellsSame (view self.old) (view self.new) }
        ensures failed { (view self.old).tells → OnErr result (Within (view self.old).may_leave (meanwhile (view self.old) (view self.new))) }
        ensures images { IsHonest (view self.old) → Within (view self.old).may_leave (meanwhile (view self.old) (view self.new)) }
        ensures call { IsCall (view self.old) (view self.new) result };

    /// What is known of it hangs together.
    ghost is_disk: { (disk : Self) → IsDisk (view disk) };
}
