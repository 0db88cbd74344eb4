// Devices by their names: what is there is opened, and where nothing is there a new file is made.
ghost use Rattle.std.specs.Prelude.{◌≡◌, ◌≤◌, ◌⊎◌, ◌++◌, ◌∷◌, [], Bool, List, Option, true, false, replicate, IfOk, IfErr, OnOk, OnErr, Ok, ◌≢◌};
ghost use Rattle.std.specs.IoError.{error_kind};
ghost use Rattle.std.specs.declared.io.ErrorKind.TheVariants.{OutOfMemory};
ghost use Rattle.disk_file.specs.Calls.{Call, deed_call, locked, WritesOn};
ghost use Rattle.disk_file.specs.Devices.{Change, AreZeros, calls_to_find, is_file, is_file_kind, IsWhole, IsFront, IsMade, IsFilled, IsHad, IsLeft};
ghost use Rattle.disk_file.specs.Known.{IsFree};
ghost use Rattle.disk_file.specs.declared.devices.Kind.TheVariants.{Other};
ghost use Rattle.disk_file.specs.Refusals.{IsToldAs, IsNoStorage, IsRefused, LockRefused, NotFilled, StoppedFilling, IsUnmade, IsLonger, Serves, StandsAs, Came, AreTold};

use crate::whole::write_whole;
use crate::{Devices, FileDisk, Kind, Look, OpenedFile, Watch};
use std::alloc::Global;
use std::fs::TryLockError;
use std::io;
use std::io::ErrorKind;
use thiserror::Error;

/// How many bytes of a new file are written at once.
const PIECE: u64 = 1 << 20;

/// Why a device isn't opened or made.
#[derive(Debug, Drop, Error)]
pub enum OpenFault {
    #[error("there is no such file")]
    Missing,
    #[error("it can't be opened: {0}")]
    Refused(io::Error),
    #[error("it is in use by another process")]
    InUse,
    #[error("it is neither a file nor a block device")]
    NoStorage,
    /// The file is longer than what was asked for; both in bytes.
    #[error("the file has {len} bytes, which is more than the {asked} asked for")]
    Longer { len: u64, asked: u64 },
    #[error("it can't be made: {0}")]
    Unmade(io::Error),
}

// What was found under a name, open and locked; its length in bytes.
#[derive(Drop)]
struct Found<F: OpenedFile> {
    file: F,
    kind: Kind,
    len: u64,
}

/// At `Ok` the whole file or block device of this name, open to read and write and locked, so that no other process opens it like this
/// meanwhile; nothing was written. A refusal tells why it isn't opened.
pub fn open_device<D: Devices>(devices: &D, name: &str) -> Result<FileDisk<D::File>, OpenFault>
    ensures whole { IfOk result (λ disk. IsWhole name.now true disk) }
    ensures holds { IfOk result (λ disk. Serves (D.known devices.now) name.now disk.told) }
    ensures refused { IfErr result (λ fault. IsRefused (D.known devices.now) D.File.past name.now true fault) }
{
    let found = find(devices, name, true)?;
    Ok(FileDisk::new(found.file, found.len))
}

/// The same, open for reading alone, so it may be one that the user may not write: each write to it is a fault. It is locked likewise.
pub fn open_to_read<D: Devices>(devices: &D, name: &str) -> Result<FileDisk<D::File>, OpenFault>
    ensures whole { IfOk result (λ disk. IsWhole name.now false disk) }
    ensures holds { IfOk result (λ disk. Serves (D.known devices.now) name.now disk.told) }
    ensures refused { IfErr result (λ fault. IsRefused (D.known devices.now) D.File.past name.now false fault) }
{
    let found = find(devices, name, false)?;
    Ok(FileDisk::new(found.file, found.len))
}

/// Whether two names are of one file, or of one block device. It isn't where nothing is there.
pub fn are_one<D: Devices>(devices: &D, name: &str, other: &str) -> bool
    ensures { AreTold (D.known devices.now) name.now other.now result }
{
    let (Ok(one), Ok(two)) = (devices.look(name), devices.look(other)) else {
        return false;
    };
    if one.kind == Kind::Block && two.kind == Kind::Block {
        return one.drive == two.drive;
    }
    one.lies_on == two.lies_on && one.number == two.number
}

/// At `Ok` a locked file of `len` bytes, where nothing had this name: each byte was written once, and they and its folder were synced.
/// Where that fails the file is removed again. What is there already is opened as by `open_device`: of a block device it is the first
/// `len` bytes, a longer file is refused, and what is shorter is handed on as it is.
pub fn make_device<D: Devices, W: Watch>(
    devices: &mut D,
    alloc: Global,
    name: &str,
    len: u64,
    watch: &mut W,
) -> Result<FileDisk<D::File>, OpenFault>
    ensures had { IfOk result (λ disk. IsHad name.now len disk (D.changes devices.old) (D.changes devices.new)) }
    ensures left { OnErr result (IsLeft name.now (D.changes devices.old) (D.changes devices.new)) }
    ensures holds { IfOk result (λ disk. IsMade name.now len disk ⊎ Serves (D.known devices.new) name.now disk.told) }
    ensures refused { IfErr result (λ fault. IsUnmade D.known D.becomes D.File.past D.stands devices.old devices.new name.now len fault) }
    ensures came { (changes : List Change) × (D.changes devices.new ≡ D.changes devices.old ++ changes) × Came D.becomes devices.old changes devices.new }
{
    let mut file = match devices.make(name) {
        Ok(file) => file,
        Err(error) if error.kind() == ErrorKind::AlreadyExists => {
            return open_up_to(devices, name, len);
        }
        Err(error) => return Err(OpenFault::Unmade(error)),
    };
    let made = fill_locked(devices, alloc, name, &mut file, len, watch);
    watch.end();
    if let Err(fault) = made {
        let _ = devices.remove(name);
        return Err(fault);
    }
    Ok(FileDisk::new(file, len))
}

// The first bytes of what is there, at most so many.
fn open_up_to<D: Devices>(
    devices: &D,
    name: &str,
    asked: u64,
) -> Result<FileDisk<D::File>, OpenFault>
    ensures front { IfOk result (λ disk. IsFront name.now asked disk) }
    ensures holds { IfOk result (λ disk. Serves (D.known devices.now) name.now disk.told) }
    ensures refused { IfErr result (λ fault. IsRefused (D.known devices.now) D.File.past name.now true fault ⊎ IsLonger (D.known devices.now) name.now asked fault) }
{
    let Found { file, kind, len } = find(devices, name, true)?;
    if kind == Kind::File && len > asked {
        return Err(OpenFault::Longer { len, asked });
    }
    Ok(FileDisk::new(file, len.min(asked)))
}

// Opens what is there, to read and, where that is asked for, to write. The kind is looked at before too: a pipe that is opened to read
// alone would wait for its writer.
fn find<D: Devices>(devices: &D, name: &str, writes: bool) -> Result<Found<D::File>, OpenFault>
    ensures past { IfOk result (λ found. D.File.past found.file ≡ calls_to_find name.now writes (is_file_kind found.kind) found.len) }
    ensures stands { IfOk result (λ found. StandsAs (D.known devices.now) name.now (D.File.told found.file) found.kind found.len) }
    ensures refused { IfErr result (λ fault. IsRefused (D.known devices.now) D.File.past name.now writes fault) }
{
    storage_kind(devices.look(name).map(|look| look.kind))?;
    let mut file = match devices.open(name, writes) {
        Ok(file) => file,
        Err(error) => return Err(refusal(error)),
    };
    let kind = storage_kind(devices.kind_of(&mut file))?;
    lock(devices, &mut file)?;
    match file.len() {
        Ok(len) => Ok(Found { file, kind, len }),
        Err(error) => Err(OpenFault::Refused(error)),
    }
}

// The kind of what was found: a file or a block device, as nothing else can be a device.
fn storage_kind(found: io::Result<Kind>) -> Result<Kind, OpenFault>
    ensures kind { IfOk result (λ kind. (found ≡ Ok kind) × (kind ≢ Other)) }
    ensures refused { IfErr result (λ fault. IsNoStorage found fault) }
{
    match found {
        Ok(Kind::Other) => Err(OpenFault::NoStorage),
        Ok(kind) => Ok(kind),
        Err(error) => Err(refusal(error)),
    }
}

// Why something can't be opened.
fn refusal(error: io::Error) -> OpenFault
    ensures { IsToldAs error result }
{
    match error.kind() {
        ErrorKind::NotFound => OpenFault::Missing,
        ErrorKind::IsADirectory => OpenFault::NoStorage,
        _ => OpenFault::Refused(error),
    }
}

fn lock<D: Devices>(devices: &D, file: &mut D::File) -> Result<(), OpenFault>
    ensures past { OnOk result (D.File.past file.new ≡ D.File.past file.old ++ deed_call (locked true) ∷ []) }
    ensures same { D.File.told file.new ≡ D.File.told file.old }
    ensures free { OnOk result (IsFree (D.stands file.old)) }
    ensures refused { IfErr result (λ fault. LockRefused (D.known devices.now) (D.stands file.old) fault) }
{
    match devices.lock(file) {
        Ok(()) => Ok(()),
        Err(TryLockError::WouldBlock) => Err(OpenFault::InUse),
        Err(TryLockError::Error(error)) => Err(OpenFault::Refused(error)),
    }
}

// Locks a new file, and writes and syncs it and its folder.
fn fill_locked<D: Devices, W: Watch>(
    devices: &D,
    alloc: Global,
    name: &str,
    file: &mut D::File,
    len: u64,
    watch: &mut W,
) -> Result<(), OpenFault>
    ensures filled { OnOk result (IsFilled name.now len (D.File.past file.old) (D.File.past file.new)) }
    ensures refused { IfErr result (λ fault. NotFilled (D.known devices.now) (D.stands file.old) name.now (D.File.past file.old) (D.File.past file.new) fault) }
{
    lock(devices, file)?;
    if let Err(error) = fill(alloc, file, len, watch) {
        return Err(OpenFault::Unmade(error));
    }
    if let Err(error) = devices.settle(file) {
        return Err(OpenFault::Unmade(error));
    }
    match devices.sync_folder(name, file) {
        Ok(()) => Ok(()),
        Err(error) => Err(OpenFault::Unmade(error)),
    }
}

// So many zeros.
fn zeros_of(alloc: Global, count: usize) -> io::Result<Vec<u8>>
    requires { 1 ≤ count }
    ensures zeros { IfOk result (λ zeros. AreZeros zeros.items) }
    ensures want { IfErr result (λ error. error_kind error ≡ OutOfMemory) }
{
    Ok(vec![in alloc; 0; count]?)
}

// Writes so many zeros from the front on. Each byte is written, so that the drive has room for all.
fn fill<F: OpenedFile, W: Watch>(
    alloc: Global,
    file: &mut F,
    len: u64,
    watch: &mut W,
) -> io::Result<()>
    ensures whole { OnOk result (WritesOn 0 (replicate len 0) result (F.past file.old) (F.past file.new)) }
    ensures stopped { IfErr result (λ error. StoppedFilling (F.past file.old) (F.past file.new) error) }
{
    let zeros = zeros_of(alloc, PIECE as usize)?;
    let mut done = 0;
    while done < len {
        let count = (len - done).min(zeros.len() as u64);
        write_whole(file, done, &zeros[..count as usize])?;
        done += count;
        watch.tell(done, len);
    }
    Ok(())
}
