// How a server ends.
use crate::jobs::{format, run, serve};
use crate::peers::{Heard, Pace, Peer};
use disk_model::{DiskCall, MemDisk};
use io_traits::PlainNudge;
use node_jobs::Outcome;
use std::alloc::Global;
use std::sync::Wait;
use std::test::Fail;
use std::thread::Threads;

// A record of the first device, if there are two.
const PUT: &[u8] = b"put 000102030405060708090a0b0c0d0e0f10111213 0 * aa\n";

const GET: &[u8] = b"get 000102030405060708090a0b0c0d0e0f10111213\n";

// And one of the second.
const PUT_BOTH: &[u8] =
    b"put 000102030405060708090a0b0c0d0e0f10111213 0 * aa\nput ffffffffffffffffffffffffffffffffffffffff 0 * bb\n";

const GET_BOTH: &[u8] =
    b"get 000102030405060708090a0b0c0d0e0f10111213\nget ffffffffffffffffffffffffffffffffffffffff\n";

// Serves one client of these lines over these disks, where the door's calls of these numbers fail.
fn serve_one<R: Threads + Wait + std::rt::Clock + Sync>(
    rt: &R,
    alloc: Global,
    words: &str,
    disks: Vec<MemDisk>,
    input: &[u8],
    fails: Vec<u64>,
    heard: &Heard,
) -> Result<Outcome<MemDisk>, Fail> {
    let mut links = Vec::new(alloc);
    links.push(Peer::new(rt, alloc, input.to_vec(alloc)?, Pace::Behind(heard), heard))?;
    serve(rt, alloc, words, disks, links, fails, &PlainNudge::new())
}

// What was put is there, though no client flushed it.
#[test]
fn a_door_that_gives_no_further_link_ends_a_server_well(rt: HostRuntime) -> Result<(), Fail> {
    let alloc = rt.alloc();
    let heard = Heard::new(alloc);
    let disks = format(&rt, alloc, "d0")?;
    let outcome = serve_one(&rt, alloc, "serve d0", disks, PUT, Vec::new(alloc), &heard)?;
    assert_eq!(rt;
        heard.text(&rt, alloc)?.as_slice(),
        b"ok 1 1000\n".as_slice()
    );
    assert_eq!(rt; (outcome.status, outcome.note.as_str()), (0, ""));
    let (_, text) = run(&rt, alloc, "run d0", outcome.disks, GET)?;
    assert_eq!(rt; text.as_slice(), b"val 1 1000 0 aa\n".as_slice());
    Ok(())
}

// A client whose link came before is served to its end, and what it put is there.
#[test]
fn a_door_that_fails_ends_a_server(rt: HostRuntime) -> Result<(), Fail> {
    let alloc = rt.alloc();
    let heard = Heard::new(alloc);
    let disks = format(&rt, alloc, "d0")?;
    let outcome = serve_one(
        &rt,
        alloc,
        "serve d0",
        disks,
        PUT,
        [1].to_vec(alloc)?,
        &heard,
    )?;
    assert_eq!(rt;
        heard.text(&rt, alloc)?.as_slice(),
        b"ok 1 1000\n".as_slice()
    );
    assert_eq!(rt; (outcome.status, outcome.note.as_str()), (8, "door fault"));
    let (_, text) = run(&rt, alloc, "run d0", outcome.disks, GET)?;
    assert_eq!(rt; text.as_slice(), b"val 1 1000 0 aa\n".as_slice());
    Ok(())
}

// Of two devices the second fails in its closing flush, the first write to it. What the first device has is there.
#[test]
fn a_device_that_fails_in_the_end_is_told_by_its_number(rt: HostRuntime) -> Result<(), Fail> {
    let alloc = rt.alloc();
    let heard = Heard::new(alloc);
    let mut disks = format(&rt, alloc, "d0 d1")?;
    for disk in disks.iter_mut().skip(1) {
        disk.fail_after(DiskCall::Write, 0)?;
    }
    let outcome = serve_one(
        &rt,
        alloc,
        "serve d0 d1",
        disks,
        PUT_BOTH,
        Vec::new(alloc),
        &heard,
    )?;
    assert_eq!(rt;
        heard.text(&rt, alloc)?.as_slice(),
        b"ok 1 1000\nok 1 1000\n".as_slice()
    );
    assert_eq!(rt;
        (outcome.status, outcome.note.as_str()),
        (3, "device 1 fault")
    );
    let (_, text) = run(&rt, alloc, "run d0 d1", outcome.disks, GET_BOTH)?;
    assert_eq!(rt; text.as_slice(), b"val 1 1000 0 aa\nnone\n".as_slice());
    Ok(())
}
