// Whole reads and writes of an open file, in as many calls as it takes for them, and its sync.
ghost use Rattle.std.specs.Prelude.{◌≡◌, ◌+◌, ◌<◌, ◌^◌, ◌++◌, length, OnOk, OnErr};
ghost use Rattle.disk_file.specs.Calls.{IsRead, WritesOn, GaveUp, sync_calls};
ghost use Rattle.disk_file.specs.Told.{Gives, Puts, Tears};

use crate::OpenedFile;
use disk_model::DiskFault;
use std::io;
use std::io::{Error, ErrorKind};

/// At `Ok` `out` has what stands from a place on. A call that was interrupted is made again; one that gives nothing is at the end.
pub fn read_whole<F: OpenedFile>(file: &mut F, place: u64, out: &mut [u8]) -> Result<(), DiskFault>
    requires { place + length out.old < 2 ^ 64 }
    ensures calls { IsRead place out.new result (F.past file.old) (F.past file.new) }
    ensures gives { OnOk result (Gives (F.told file.old) place out.new) }
    ensures same { F.told file.new ≡ F.told file.old }
    ensures failed { OnErr result (GaveUp (F.past file.old) (F.past file.new)) }
{
    let mut at = 0;
    for tries in 0..u64::MAX {
        if at >= out.len() {
            return Ok(());
        }
        match file.read_some(place + at as u64, &mut out[at..]) {
            Ok(0) => return Err(DiskFault),
            Ok(count) => at += count,
            Err(error) if error.kind() == ErrorKind::Interrupted => {}
            Err(_) => return Err(DiskFault),
        }
    }
    Err(DiskFault)
}

/// At `Ok` the bytes stand from a place on. A call that was interrupted is made again; where one takes nothing there is no room.
pub fn write_whole<F: OpenedFile>(file: &mut F, place: u64, bytes: &[u8]) -> io::Result<()>
    requires { place + length bytes.now < 2 ^ 64 }
    ensures calls { WritesOn place bytes.now result (F.past file.old) (F.past file.new) }
    ensures puts { OnOk result (Puts (F.told file.old) place bytes.now (F.told file.new)) }
    ensures tears { OnErr result (Tears (F.told file.old) place (length bytes.now) (F.told file.new)) }
    ensures failed { OnErr result (GaveUp (F.past file.old) (F.past file.new)) }
{
    let mut at = 0;
    for tries in 0..u64::MAX {
        if at >= bytes.len() {
            return Ok(());
        }
        match file.write_some(place + at as u64, &bytes[at..]) {
            Ok(0) => return Err(Error::new(ErrorKind::WriteZero, "failed to write whole buffer")),
            Ok(count) => at += count,
            Err(error) if error.kind() == ErrorKind::Interrupted => {}
            Err(error) => return Err(error),
        }
    }
    Err(ErrorKind::Interrupted.into())
}

/// Whether a sync went well. Behind one that failed the system counts pages as written that it couldn't write: it gives them to reads, and
/// the next sync goes well without them. So what it keeps in memory is let go, and what is read from here on is to come from the drive.
pub fn sync_whole<F: OpenedFile>(file: &mut F) -> bool
    ensures calls { F.past file.new ≡ F.past file.old ++ sync_calls result }
    ensures same { F.told file.new ≡ F.told file.old }
{
    if file.sync().is_ok() {
        return true;
    }
    file.let_go();
    false
}
