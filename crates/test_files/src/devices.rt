// Devices that are opened and made, and what can't be one.
use disk_file::{
    OpenFault, SystemDevices, Watch, are_one, fill_standard, make_device, open_device, open_to_read,
};
use disk_model::{Disk, DiskFault};
use std::fs;
use std::process::Abort;
use std::test::Fail;

const MIB: u64 = 1 << 20;

// Keeps how often it was told something, and whether it was told the end.
#[derive(Drop)]
struct Told {
    times: u64,
    last: (u64, u64),
    ended: bool,
}

impl Told {
    fn new() -> Told {
        Told {
            times: 0,
            last: (0, 0),
            ended: false,
        }
    }
}

impl Watch for Told {
    fn tell(&mut self, done: u64, whole: u64) {
        self.times = self.times.wrapping_add(1);
        self.last = (done, whole);
    }

    fn end(&mut self) {
        self.ended = true;
    }
}

// Why this isn't opened.
fn refusal_of(rt: &HostRuntime, name: &str) -> Option<OpenFault> {
    open_device(&SystemDevices::new(rt), name).err()
}

#[test]
fn a_new_device_is_written_whole_and_locked(rt: HostRuntime) -> Result<(), Fail> {
    let name = "disk_file_new";
    let len = 2 * MIB + 5;
    let _ = fs::remove_file(&rt, name);
    let mut told = Told::new();
    let mut devices = SystemDevices::new(&rt);
    let made = make_device(&mut devices, rt.alloc(), name, len, &mut told)?;
    assert_eq!(rt; (made.len(), told.times, told.last), (len, 3, (len, len)));
    assert!(rt; told.ended);
    assert!(rt; matches!(refusal_of(&rt, name), Some(OpenFault::InUse)));
    drop(made);
    assert_eq!(rt; open_device(&devices, name)?.len(), len);
    fs::remove_file(&rt, name)?;
    Ok(())
}

#[test]
fn a_file_that_is_there_is_never_made_anew(rt: HostRuntime) -> Result<(), Fail> {
    let name = "disk_file_there";
    fs::write(&rt, name, b"something")?;
    let mut told = Told::new();
    let mut devices = SystemDevices::new(&rt);
    assert_eq!(rt;
        make_device(&mut devices, rt.alloc(), name, MIB, &mut told)?.len(),
        9
    );
    assert_eq!(rt; told.times, 0);
    match make_device(&mut devices, rt.alloc(), name, 8, &mut told) {
        Err(OpenFault::Longer { len, asked }) => assert_eq!(rt; (len, asked), (9, 8)),
        _ => panic!(rt; "a longer file was taken"),
    }
    let bytes = fs::read(&rt, name)?;
    assert_eq!(rt; bytes.as_slice(), b"something".as_slice());
    fs::remove_file(&rt, name)?;
    Ok(())
}

// Reads and syncs a disk of 9 bytes, and can't write to it.
fn is_only_read<D: Disk>(rt: &impl Abort, disk: &mut D) {
    assert!(rt; disk.len() == 9);
    let mut out = [0; 9];
    assert_eq!(rt; disk.read_at(0, &mut out), Ok(()));
    assert_eq!(rt; out, *b"something");
    assert_eq!(rt; disk.sync(), Ok(()));
    assert!(rt; disk.len() == 9);
    assert_eq!(rt; disk.write_at(0, b"any"), Err(DiskFault));
}

#[test]
fn what_is_opened_to_read_is_not_written(rt: HostRuntime) -> Result<(), Fail> {
    let name = "disk_file_read";
    fs::write(&rt, name, b"something")?;
    let mut disk = open_to_read(&SystemDevices::new(&rt), name)?;
    is_only_read(&rt, &mut disk);
    assert!(rt; matches!(refusal_of(&rt, name), Some(OpenFault::InUse)));
    drop(disk);
    let bytes = fs::read(&rt, name)?;
    assert_eq!(rt; bytes.as_slice(), b"something".as_slice());
    fs::remove_file(&rt, name)?;
    Ok(())
}

#[test]
fn two_names_may_be_of_one_file(rt: HostRuntime) -> Result<(), Fail> {
    let (one, other) = ("disk_file_one", "disk_file_other");
    let _ = fs::remove_file(&rt, other);
    fs::write(&rt, one, b"something")?;
    let devices = SystemDevices::new(&rt);
    assert!(rt; are_one(&devices, one, one));
    assert!(rt; are_one(&devices, one, "./disk_file_one"));
    assert!(rt; !are_one(&devices, one, other));
    assert!(rt; !are_one(&devices, other, other));
    fs::write(&rt, other, b"something")?;
    assert!(rt; !are_one(&devices, one, other));
    fs::remove_file(&rt, other)?;
    fs::hard_link(&rt, one, other)?;
    assert!(rt; are_one(&devices, one, other));
    fs::remove_file(&rt, one)?;
    fs::remove_file(&rt, other)?;
    Ok(())
}

#[test]
fn what_cannot_be_a_device_is_refused(rt: HostRuntime) -> Result<(), Fail> {
    let missing = "disk_file_missing";
    let mut devices = SystemDevices::new(&rt);
    let _ = fs::remove_file(&rt, missing);
    assert!(rt; matches!(refusal_of(&rt, missing), Some(OpenFault::Missing)));
    for name in [".", "/dev/null"] {
        assert!(rt;
            matches!(refusal_of(&rt, name), Some(OpenFault::NoStorage)),
            "{name}"
        );
        assert!(rt;
            matches!(
                open_to_read(&devices, name).err(),
                Some(OpenFault::NoStorage)
            ),
            "{name}"
        );
    }
    let mut told = Told::new();
    let made = make_device(
        &mut devices,
        rt.alloc(),
        "disk_file_missing/device",
        MIB,
        &mut told,
    );
    assert!(rt; matches!(made, Err(OpenFault::Unmade(_))));
    Ok(())
}

#[test]
fn a_refusal_says_how_long_the_file_is(rt: HostRuntime) -> Result<(), Fail> {
    let text = OpenFault::Longer { len: 9, asked: 8 }.to_string(rt.alloc())?;
    assert_eq!(rt;
        text.as_str(),
        "the file has 9 bytes, which is more than the 8 asked for"
    );
    Ok(())
}

#[test]
fn streams_that_are_there_stay(rt: HostRuntime) -> Result<(), Fail> {
    fill_standard(&rt)?;
    Ok(())
}
