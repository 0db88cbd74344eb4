// Disks over files, over one that was cut, and over one whose calls are short, are interrupted or fail.
use disk_file::{FileDisk, MemoryFile, SystemFile, Turn};
use disk_model::{Disk, DiskFault};
use std::alloc::AllocError;
use std::fs::{File, OpenOptions};
use std::process::Abort;
use std::rt::Files;
use std::test::Fail;
use std::{fs, io};

// A disk over a file of zeros, made anew.
fn fresh(rt: &HostRuntime, path: &str) -> io::Result<FileDisk<SystemFile>> {
    fs::write(rt, path, &[0; 8192])?;
    disk_again(rt, path)
}

fn disk_again(rt: &HostRuntime, path: &str) -> io::Result<FileDisk<SystemFile>> {
    Ok(FileDisk::new(SystemFile::new(open_again(rt, path)?), 8192))
}

fn open_again<R: Files<File = File>>(rt: &R, path: &str) -> io::Result<File> {
    OpenOptions::new().read(true).write(true).open(rt, path)
}

// A disk that may go to another thread.
fn size_of<D: Disk + Send>(disk: &D) -> u64 {
    disk.len()
}

// Writes within the disk, and wants this answer.
fn writes<D: Disk>(
    rt: &impl Abort,
    disk: &mut D,
    place: u64,
    bytes: &[u8],
    answer: Result<(), DiskFault>,
) {
    assert!(rt; bytes.len() as u64 <= disk.len() && place <= disk.len() - bytes.len() as u64);
    assert_eq!(rt; disk.write_at(place, bytes), answer);
}

// Reads within the disk, and wants this answer.
fn reads<D: Disk>(
    rt: &impl Abort,
    disk: &mut D,
    place: u64,
    out: &mut [u8],
    answer: Result<(), DiskFault>,
) {
    assert!(rt; out.len() as u64 <= disk.len() && place <= disk.len() - out.len() as u64);
    assert_eq!(rt; disk.read_at(place, out), answer);
}

fn syncs<D: Disk>(rt: &impl Abort, disk: &mut D, answer: Result<(), DiskFault>) {
    assert_eq!(rt; disk.sync(), answer);
}

fn write_record<D: Disk + Send>(rt: &impl Abort, disk: &mut D) {
    assert_eq!(rt; disk.len(), 8192);
    assert_eq!(rt; size_of(disk), 8192);
    writes(rt, disk, 4000, b"record", Ok(()));
    syncs(rt, disk, Ok(()));
}

fn read_record<D: Disk>(rt: &impl Abort, disk: &mut D) {
    assert_eq!(rt; disk.len(), 8192);
    let mut out = [1; 8];
    reads(rt, disk, 3999, &mut out, Ok(()));
    assert_eq!(rt; out, *b"\0record\0");
}

#[test]
fn what_is_written_is_read_again(rt: HostRuntime) -> Result<(), Fail> {
    let path = "disk_file_again";
    write_record(&rt, &mut fresh(&rt, path)?);
    read_record(&rt, &mut disk_again(&rt, path)?);
    fs::remove_file(&rt, path)?;
    Ok(())
}

// Of a disk over a file of 100 bytes.
fn stays_short<D: Disk>(rt: &impl Abort, disk: &mut D) {
    assert_eq!(rt; disk.len(), 8192);
    writes(rt, disk, 92, b"the last", Ok(()));
    writes(rt, disk, 93, b"too long", Err(DiskFault));
    writes(rt, disk, 4000, b"far", Err(DiskFault));
    let mut out = [0; 8];
    reads(rt, disk, 92, &mut out, Ok(()));
    assert_eq!(rt; out, *b"the last");
    reads(rt, disk, 93, &mut out, Err(DiskFault));
}

// Cuts it while the disk has it open.
fn cut<R: Files<File = File> + Abort>(
    rt: &R,
    path: &str,
    disk: &mut FileDisk<SystemFile>,
) -> io::Result<()> {
    let other = open_again(rt, path)?;
    other.set_len(100)?;
    stays_short(rt, disk);
    assert_eq!(rt; other.metadata()?.len(), 100);
    Ok(())
}

#[test]
fn a_file_that_was_cut_is_not_made_longer(rt: HostRuntime) -> Result<(), Fail> {
    let path = "disk_file_cut";
    cut(&rt, path, &mut fresh(&rt, path)?)?;
    fs::remove_file(&rt, path)?;
    Ok(())
}

// A disk over a file in memory of 100 bytes, whose calls take these turns.
fn in_memory(rt: &HostRuntime, turns: Vec<Turn>) -> Result<FileDisk<MemoryFile>, AllocError> {
    let bytes = vec![in rt.alloc(); b'x'; 100]?;
    Ok(FileDisk::new(MemoryFile::new(bytes, turns), 100))
}

// What is read and written a byte at a time, until a call fails.
fn goes_on<D: Disk>(rt: &impl Abort, disk: &mut D) {
    assert_eq!(rt; disk.len(), 100);
    let mut out = [0; 3];
    reads(rt, disk, 0, &mut out, Ok(()));
    assert_eq!(rt; out, *b"xxx");
    writes(rt, disk, 0, b"abc", Ok(()));
    writes(rt, disk, 3, b"def", Err(DiskFault));
    let mut out = [0; 6];
    reads(rt, disk, 0, &mut out, Ok(()));
    assert_eq!(rt; out, *b"abcdex");
}

#[test]
fn short_and_interrupted_calls_go_on(rt: HostRuntime) -> Result<(), Fail> {
    let mut turns = Vec::new(rt.alloc());
    for _ in 0..8 {
        turns.push(Turn::Interrupted)?;
        turns.push(Turn::Most(1))?;
    }
    turns.push(Turn::Failed)?;
    goes_on(&rt, &mut in_memory(&rt, turns)?);
    Ok(())
}

// Two writes that a failed sync lost.
fn lose<D: Disk>(rt: &impl Abort, disk: &mut D) {
    assert_eq!(rt; disk.len(), 100);
    writes(rt, disk, 40, b"old", Ok(()));
    syncs(rt, disk, Ok(()));
    writes(rt, disk, 10, b"a body", Ok(()));
    writes(rt, disk, 0, b"gate", Ok(()));
    syncs(rt, disk, Err(DiskFault));
    syncs(rt, disk, Err(DiskFault));
}

// They are lost until the whole of each is written again.
fn write_again<D: Disk>(rt: &impl Abort, disk: &mut D) {
    writes(rt, disk, 0, b"gate", Ok(()));
    writes(rt, disk, 11, b" body", Ok(()));
    syncs(rt, disk, Err(DiskFault));
    writes(rt, disk, 10, b"a body", Err(DiskFault));
    syncs(rt, disk, Err(DiskFault));
    writes(rt, disk, 10, b"a body", Ok(()));
    syncs(rt, disk, Ok(()));
    syncs(rt, disk, Ok(()));
}

fn lose_and_write_again<D: Disk>(rt: &impl Abort, disk: &mut D) {
    lose(rt, disk);
    write_again(rt, disk);
}

// The first sync behind the two writes fails, and then the last but one of the writes.
#[test]
fn what_a_failed_sync_lost_has_to_be_written_again(rt: HostRuntime) -> Result<(), Fail> {
    let mut turns = vec![in rt.alloc(); Turn::Most(usize::MAX); 10]?;
    turns[4] = Turn::Failed;
    turns[9] = Turn::Failed;
    lose_and_write_again(&rt, &mut in_memory(&rt, turns)?);
    Ok(())
}
