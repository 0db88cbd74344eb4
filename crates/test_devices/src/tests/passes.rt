// What passes of one device see of one another.
ghost use Rattle.std.specs.Prelude.{IfOk};
ghost use Rattle.test_devices.specs.Trials.{IsAlone, IsFirst};

use crate::tests::devices;
use crate::tests::devices::{ended, formatted, settings};
use disk_model::MemDisk;
use live_node::{Live, LiveOut, LivePass};
use rec_format::Digest;
use std::alloc::Global;
use std::test::Fail;

const RISING: Digest = Digest([
    0, 1, 2, 3, 4, 5, 6, 7, 8, 9, 10, 11, 12, 13, 14, 15, 16, 17, 18, 19,
]);

const FALLING: Digest = Digest([
    19, 18, 17, 16, 15, 14, 13, 12, 11, 10, 9, 8, 7, 6, 5, 4, 3, 2, 1, 0,
]);

// A new device of 8 blocks.
fn opened(alloc: Global) -> Result<(Live<MemDisk>, LivePass<MemDisk>), Fail>
    ensures pass { IfOk result (λ r. IsFirst r.0 r.1) }
    ensures alone { IfOk result (λ r. IsAlone r.0) }
{
    let Ok(disk) = formatted(alloc, 8, 0, 1) else {
        return Err(Fail::new("there is no disk"));
    };
    match devices::opened(alloc, disk, settings(1, 0)) {
        Ok(opened) => Ok(opened),
        Err(_) => Err(Fail::new("there is no device")),
    }
}

#[test]
fn a_pass_reads_what_it_put(rt: HostRuntime) -> Result<(), Fail> {
    let alloc = rt.alloc();
    let (live, mut pass) = opened(alloc)?;
    let put = live.put(alloc, &rt, &mut pass, &RISING, 0, b"hello", None, 1000);
    let got = live.get(alloc, &rt, &mut pass, &RISING, 2000);
    let meta = live.meta(&rt, &mut pass, &RISING, 2000);
    let counts = live.counts(&rt, &mut pass);
    ended(live, pass);
    let (Ok(stamp), Ok(Some(version)), Some(meta)) = (put, got, meta) else {
        return Err(Fail::new("nothing is seen"));
    };
    assert!(rt; stamp.lut == 1000 && stamp.gen_ == 1);
    assert!(rt; version.stamp == stamp);
    assert!(rt; version.payload.as_slice() == b"hello".as_slice());
    assert!(rt; meta.stamp == stamp && meta.void == 0 && meta.units == 4);
    assert!(rt; counts.records == 1 && counts.tombstones == 0 && counts.pending == 1);
    Ok(())
}

#[test]
fn a_pass_split_off_has_seen_the_put(rt: HostRuntime) -> Result<(), Fail> {
    let alloc = rt.alloc();
    let (live, mut pass) = opened(alloc)?;
    let put = live.put(alloc, &rt, &mut pass, &RISING, 0, b"hello", None, 1000);
    let mut other = live.split(&mut pass, 1);
    let meta = live.try_meta(&mut other, &RISING, 2000);
    let absent = live.try_get(alloc, &mut other, &FALLING, 2000);
    let gone = live.delete(alloc, &rt, &mut other, &RISING, 2000);
    let after = live.meta(&rt, &mut pass, &RISING, 2000);
    live.join(&mut pass, other);
    let shard = ended(live, pass);
    let (Ok(stamp), Ok(Some(meta)), Ok(None)) = (put, meta, absent) else {
        return Err(Fail::new("something else is seen"));
    };
    assert!(rt; meta.stamp == stamp);
    assert!(rt; gone == Ok(true));
    assert!(rt; after.is_none());
    assert!(rt; shard.counts().records == 0);
    Ok(())
}

#[test]
fn a_pass_that_is_not_joined_keeps_the_device_open(rt: HostRuntime) -> Result<(), Fail> {
    let (live, mut pass) = opened(rt.alloc())?;
    let other = live.split(&mut pass, 1);
    match live.close(pass) {
        Ok(_) => Err(Fail::new("it closed")),
        Err(
            LiveOut {
                live,
                mut pass,
                out,
            },
        ) => {
            assert_eq!(rt; out, 1);
            live.join(&mut pass, other);
            ended(live, pass);
            Ok(())
        }
    }
}

#[test]
fn a_flush_is_an_event_like_any_other(rt: HostRuntime) -> Result<(), Fail> {
    let alloc = rt.alloc();
    let (live, mut pass) = opened(alloc)?;
    let put = live.put(alloc, &rt, &mut pass, &RISING, 0, b"hello", None, 1000);
    let sealed = live.flush_next(&rt, &mut pass);
    let flushed = live.flush(&rt, &mut pass);
    let stamp = live.bury(alloc, &rt, &mut pass, &RISING, 2000);
    let raid = live.raid_begin(&rt, &mut pass);
    let counts = live.counts(&rt, &mut pass);
    ended(live, pass);
    assert!(rt; put.is_ok() && stamp.is_ok() && raid.is_some());
    assert!(rt; sealed == Ok(0) && flushed == Ok(1));
    assert!(rt; counts.records == 0 && counts.tombstones == 1 && counts.pending == 1);
    Ok(())
}
