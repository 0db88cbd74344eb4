// A disk that waits within a read, and what others may do meanwhile.
ghost use Rattle.test_devices.specs.Trials.{IsAlone, IsGiven};

use crate::tests::devices::{ended, formatted, opened, rejoined, settings, share};
use disk_model::{Disk, DiskFault, MemDisk};
use live_node::{Again, Live, LivePass, TryRefusal};
use rec_format::Digest;
use std::alloc::Global;
use std::marker::Model;
use std::sync::Wait;
use std::sync::atomic::{AtomicBool, Ordering};
use std::test::Fail;
use std::thread::{Threads, join, yield_now};

// Of 16 sprigs in each partition it has part 4,098, since its partition is 256 and its sprig 2.
const RISING: Digest = Digest([
    0, 1, 2, 3, 4, 5, 6, 7, 8, 9, 10, 11, 12, 13, 14, 15, 16, 17, 18, 19,
]);

// It has part 65,535, the last.
const HIGHEST: Digest = Digest([255; 20]);

// How often a thread looks whether the other one reads.
const LOOKS: u64 = 1_000_000_000;

// Whether reads may go on, and whether one has begun.
#[derive(Drop)]
struct Gate {
    is_open: AtomicBool,
    is_reading: AtomicBool,
}

impl Gate {
    fn new() -> Gate {
        Gate {
            is_open: AtomicBool::new(true),
            is_reading: AtomicBool::new(false),
        }
    }

    fn set(&self, is_open: bool) {
        self.is_reading.store(false, Ordering::SeqCst);
        self.is_open.store(is_open, Ordering::SeqCst);
    }

    // Waits until it is open.
    fn pass<R: Wait>(&self, rt: &R) {
        self.is_reading.store(true, Ordering::SeqCst);
        for _ in rt.forever() {
            if self.is_open.load(Ordering::SeqCst) {
                return;
            }
            yield_now();
        }
        unreachable!()
    }

    // Whether a read has begun, within some time.
    fn is_reached(&self) -> bool {
        for _ in 0..LOOKS {
            if self.is_reading.load(Ordering::SeqCst) {
                return true;
            }
            yield_now();
        }
        false
    }
}

// A disk each read of which waits at a gate. In clauses it is the disk below.
#[derive(Drop)]
struct WaitingDisk<'a, D: Disk, R> {
    disk: D,
    rt: &'a R,
    gate: &'a Gate,
}

impl<'a, D: Disk, R> Model for WaitingDisk<'a, D, R> {
    ghost Value = { D };

    ghost view = { λ w. w.disk };
}

impl<'a, D: Disk, R: Wait> Disk for WaitingDisk<'a, D, R> {
    ghost view = { λ w. D.view w };

    ghost is_disk = { λ w. D.is_disk w };

    fn len(&self) -> u64 {
        self.disk.len()
    }

    fn read_at(&mut self, place: u64, out: &mut [u8]) -> Result<(), DiskFault> {
        self.gate.pass(self.rt);
        self.disk.read_at(place, out)
    }

    fn write_at(&mut self, place: u64, bytes: &[u8]) -> Result<(), DiskFault> {
        self.disk.write_at(place, bytes)
    }

    fn sync(&mut self) -> Result<(), DiskFault> {
        self.disk.sync()
    }
}

// What a call that waits for nobody came to.
#[derive(Clone, Copy, Debug, PartialEq, Eq)]
enum Tried {
    // This slot was out.
    Out(u32),
    Nothing,
    Seen,
    Refused,
}

fn try_meta<D: Disk>(live: &Live<D>, pass: &mut LivePass<D>, digest: &Digest) -> Tried
    requires given { IsGiven live.now pass.old }
    requires alone { IsAlone live.now }
    ensures given { IsGiven live.now pass.new }
{
    match live.try_meta(pass, digest, 1000) {
        Ok(None) => Tried::Nothing,
        Ok(Some(_)) => Tried::Seen,
        Err(Again { slot }) => Tried::Out(slot),
    }
}

fn try_get<D: Disk>(alloc: Global, live: &Live<D>, pass: &mut LivePass<D>, digest: &Digest) -> Tried
    requires given { IsGiven live.now pass.old }
    requires alone { IsAlone live.now }
    ensures given { IsGiven live.now pass.new }
{
    match live.try_get(alloc, pass, digest, 1000) {
        Ok(None) => Tried::Nothing,
        Ok(Some(_)) => Tried::Seen,
        Err(TryRefusal::Again { slot }) => Tried::Out(slot),
        Err(_) => Tried::Refused,
    }
}

// Puts a record of one byte and flushes it. Says whether it did.
fn put_flushed<D: Disk, R: Wait>(
    alloc: Global,
    rt: &R,
    live: &Live<D>,
    pass: &mut LivePass<D>,
    digest: &Digest,
) -> bool
    requires given { IsGiven live.now pass.old }
    requires alone { IsAlone live.now }
    ensures given { IsGiven live.now pass.new }
{
    let put = live.put(alloc, rt, pass, digest, 0, &[170], None, 1000);
    put.is_ok() && live.flush(rt, pass) == Ok(1)
}

// Says whether a get reads that record.
fn is_read<D: Disk, R: Wait>(
    alloc: Global,
    rt: &R,
    live: &Live<D>,
    pass: &mut LivePass<D>,
    digest: &Digest,
) -> bool
    requires given { IsGiven live.now pass.old }
    requires alone { IsAlone live.now }
    ensures given { IsGiven live.now pass.new }
{
    match live.get(alloc, rt, pass, digest, 1000) {
        Ok(Some(version)) => version.payload.as_slice() == [170].as_slice(),
        _ => false,
    }
}

// What others may do once a read has begun: it is ended then.
fn try_all<D: Disk>(
    alloc: Global,
    live: &Live<D>,
    pass: &mut LivePass<D>,
    gate: &Gate,
) -> [Tried; 3]
    requires given { IsGiven live.now pass.old }
    requires alone { IsAlone live.now }
    ensures given { IsGiven live.now pass.new }
{
    let _reached = gate.is_reached();
    let tried = [
        try_meta(live, pass, &RISING),
        try_meta(live, pass, &HIGHEST),
        try_get(alloc, live, pass, &HIGHEST),
    ];
    gate.set(true);
    tried
}

// A pass of a thread, and what came of what it did.
type Done<D, T> = (LivePass<D>, T);

// Reads the record in one thread, while another one tries.
fn read_and_try<D: Disk + Send, R: Threads + Wait + Sync>(
    rt: &R,
    alloc: Global,
    live: &Live<D>,
    mut reader: LivePass<D>,
    mut other: LivePass<D>,
    gate: &Gate,
) -> (Done<D, [Tried; 3]>, Done<D, bool>)
    requires given { IsGiven live.now reader × IsGiven live.now other }
    requires alone { IsAlone live.now }
    ensures tries { IsGiven live.now result.0.0 }
    ensures reads { IsGiven live.now result.1.0 }
{
    join(
        rt,
        move ||
            requires { IsGiven live.now other × IsAlone live.now }
            ensures { IsGiven live.entry.now result.0 }
        {
            let tried = try_all(alloc, live, &mut other, gate);
            (other, tried)
        },
        move ||
            requires { IsGiven live.now reader × IsAlone live.now }
            ensures { IsGiven live.entry.now result.0 }
        {
            let read = is_read(alloc, rt, live, &mut reader, &RISING);
            (reader, read)
        },
    )
}

#[test]
fn others_of_its_part_and_of_the_shelf_wait_for_a_read(rt: HostRuntime) -> Result<(), Fail> {
    let alloc = rt.alloc();
    let gate = Gate::new();
    let Ok(disk) = formatted(alloc, 16, 0, 1) else {
        return Err(Fail::new("there is no disk"));
    };
    let disk = WaitingDisk {
        disk,
        rt: &rt,
        gate: &gate,
    };
    let Ok((live, mut pass)) = opened(alloc, disk, settings(16, 0)) else {
        return Err(Fail::new("there is no device"));
    };
    let mut reader = share(&live, &mut pass);
    let other = share(&live, &mut pass);
    let put = put_flushed(alloc, &rt, &live, &mut reader, &RISING);
    gate.set(false);
    let (tries, reads) = read_and_try(&rt, alloc, &live, reader, other, &gate);
    let (mut other, tried) = tries;
    let (reader, read) = reads;
    let after = try_get(alloc, &live, &mut other, &HIGHEST);
    rejoined(&live, &mut pass, reader);
    rejoined(&live, &mut pass, other);
    ended(live, pass);
    assert!(rt; put && read);
    assert_eq!(rt;
        tried,
        [Tried::Out(4098), Tried::Nothing, Tried::Out(65536)]
    );
    assert_eq!(rt; after, Tried::Nothing);
    Ok(())
}
