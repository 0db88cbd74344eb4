// Devices in memory: what is opened, made and refused.
use disk_file::{
    Devices, Entry, Failing, Kind, MemoryDevices, OpenFault, Watch, are_one, make_device,
    open_device, open_to_read,
};
use disk_model::Disk;
use std::alloc::{AllocError, Global};
use std::process::Abort;
use std::test::Fail;

// Is told how far a new file is written, and keeps nothing.
#[derive(Drop)]
struct Unwatched;

impl Watch for Unwatched {
    fn tell(&mut self, _done: u64, _whole: u64) {}

    fn end(&mut self) {}
}

// A file of this number.
fn file_of(
    alloc: Global,
    name: &str,
    number: u64,
    bytes: &[u8],
    in_use: bool,
) -> Result<Entry, AllocError> {
    Ok(Entry {
        name: String::from_str(alloc, name)?,
        kind: Kind::File,
        number,
        bytes: bytes.to_vec(alloc)?,
        in_use,
    })
}

// A drive, and a folder.
fn other_of(alloc: Global, name: &str, kind: Kind, number: u64) -> Result<Entry, AllocError> {
    Ok(Entry {
        name: String::from_str(alloc, name)?,
        kind,
        number,
        bytes: b"a drive".as_slice().to_vec(alloc)?,
        in_use: false,
    })
}

// Two files, one of which has a second name, one that is in use, a drive and a folder; a new file has room for 8 bytes.
fn names_with(alloc: Global, failing: Failing) -> Result<MemoryDevices, AllocError> {
    let mut entries = Vec::new(alloc);
    entries.push(file_of(alloc, "one", 1, b"first", false)?)?;
    entries.push(file_of(alloc, "two", 2, b"other", false)?)?;
    entries.push(file_of(alloc, "again", 1, b"first", false)?)?;
    entries.push(file_of(alloc, "busy", 3, b"busy", true)?)?;
    entries.push(other_of(alloc, "drive", Kind::Block, 4)?)?;
    entries.push(other_of(alloc, "folder", Kind::Other, 5)?)?;
    Ok(MemoryDevices::new(alloc, entries, 8, failing))
}

// The disk has five bytes, which are these.
fn has_five<D: Disk>(rt: &impl Abort, disk: &mut D, bytes: [u8; 5]) {
    assert!(rt; disk.len() == 5);
    let mut out = [1; 5];
    assert_eq!(rt; disk.read_at(0, &mut out), Ok(()));
    assert_eq!(rt; out, bytes);
}

// Why this isn't opened.
fn refusal_of<D: Devices>(devices: &D, name: &str) -> Option<OpenFault> {
    open_device(devices, name).err()
}

// Why this isn't made with so many bytes.
fn unmade<D: Devices>(alloc: Global, devices: &mut D, name: &str, len: u64) -> Option<OpenFault> {
    make_device(devices, alloc, name, len, &mut Unwatched).err()
}

#[test]
fn each_disk_is_of_its_name(rt: HostRuntime) -> Result<(), Fail> {
    let devices = names_with(rt.alloc(), Failing::Nothing)?;
    has_five(&rt, &mut open_device(&devices, "two")?, *b"other");
    has_five(&rt, &mut open_to_read(&devices, "one")?, *b"first");
    assert!(rt; matches!(refusal_of(&devices, "three"), Some(OpenFault::Missing)));
    assert!(rt; matches!(refusal_of(&devices, "folder"), Some(OpenFault::NoStorage)));
    Ok(())
}

// Of names of which nothing fails.
fn are_told_apart<D: Devices>(rt: &impl Abort, devices: &D) {
    assert!(rt; are_one(devices, "one", "again"));
    assert!(rt; !are_one(devices, "one", "two"));
    assert!(rt; are_one(devices, "drive", "drive"));
    assert!(rt; !are_one(devices, "three", "three"));
}

#[test]
fn names_of_one_file_are_told(rt: HostRuntime) -> Result<(), Fail> {
    are_told_apart(&rt, &names_with(rt.alloc(), Failing::Nothing)?);
    Ok(())
}

#[test]
fn what_is_made_has_the_zeros_that_were_asked_for(rt: HostRuntime) -> Result<(), Fail> {
    let mut devices = names_with(rt.alloc(), Failing::Nothing)?;
    let mut made = make_device(&mut devices, rt.alloc(), "new", 5, &mut Unwatched)?;
    has_five(&rt, &mut made, [0; 5]);
    Ok(())
}

#[test]
fn nothing_is_made_twice(rt: HostRuntime) -> Result<(), Fail> {
    let mut devices = names_with(rt.alloc(), Failing::Nothing)?;
    let mut there = make_device(&mut devices, rt.alloc(), "two", 8, &mut Unwatched)?;
    has_five(&rt, &mut there, *b"other");
    assert!(rt;
        matches!(
            unmade(rt.alloc(), &mut devices, "two", 4),
            Some(OpenFault::Longer { .. })
        )
    );
    let drive = make_device(&mut devices, rt.alloc(), "drive", 3, &mut Unwatched)?;
    assert_eq!(rt; drive.len(), 3);
    assert!(rt; unmade(rt.alloc(), &mut devices, "new", 8).is_none());
    assert!(rt;
        matches!(
            unmade(rt.alloc(), &mut devices, "new", 8),
            Some(OpenFault::InUse)
        )
    );
    Ok(())
}

#[test]
fn what_is_in_use_is_refused(rt: HostRuntime) -> Result<(), Fail> {
    let mut devices = names_with(rt.alloc(), Failing::Nothing)?;
    assert!(rt; matches!(refusal_of(&devices, "busy"), Some(OpenFault::InUse)));
    assert!(rt; matches!(open_to_read(&devices, "busy").err(), Some(OpenFault::InUse)));
    assert!(rt;
        matches!(
            unmade(rt.alloc(), &mut devices, "busy", 8),
            Some(OpenFault::InUse)
        )
    );
    Ok(())
}

// A new file can't be had where this fails, and is gone then.
fn leaves_nothing(
    rt: &impl Abort,
    alloc: Global,
    failing: Failing,
    len: u64,
) -> Result<(), AllocError> {
    let mut devices = names_with(alloc, failing)?;
    assert!(rt; unmade(alloc, &mut devices, "new", len).is_some());
    assert!(rt; matches!(refusal_of(&devices, "new"), Some(OpenFault::Missing)));
    Ok(())
}

#[test]
fn what_cannot_be_made_is_removed_again(rt: HostRuntime) -> Result<(), Fail> {
    for failing in [
        Failing::Make,
        Failing::Lock,
        Failing::Settle,
        Failing::Folder,
    ] {
        leaves_nothing(&rt, rt.alloc(), failing, 5)?;
    }
    leaves_nothing(&rt, rt.alloc(), Failing::Nothing, 9)?;
    Ok(())
}

#[test]
fn what_fails_is_refused(rt: HostRuntime) -> Result<(), Fail> {
    for failing in [Failing::Look, Failing::Open, Failing::Kind, Failing::Lock] {
        let devices = names_with(rt.alloc(), failing)?;
        assert!(rt; matches!(refusal_of(&devices, "one"), Some(OpenFault::Refused(_))));
    }
    Ok(())
}
