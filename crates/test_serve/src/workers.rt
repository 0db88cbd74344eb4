// The workers of a device beside a client.
use crate::jobs::{format, serve};
use crate::nudges::Noting;
use crate::peers::{Heard, Pace, Peer};
use disk_model::MemDisk;
use io_traits::{Nudge, ParkNudge, PlainNudge};
use node_jobs::Outcome;
use std::alloc::{AllocError, Global};
use std::process::Abort;
use std::sync::Wait;
use std::test::Fail;
use std::thread::Threads;

// How often the client asks for the numbers at most.
const ASKS: usize = 1_000_000;

// The reply once the first of the records is flushed, behind the end of another reply.
const FLUSHED: &[u8] = b"\nstat 2 0 0 14 1 0 0\n";

// So many bytes that two records don't fit in a block.
const PAYLOAD: usize = 11_152;

// Puts the record whose digest is this byte and 19 zeros.
fn put_line(alloc: Global, byte: u8) -> Result<String, AllocError> {
    let mut line = format!(in alloc; "put {byte:02x}")?;
    for _ in 0..19 {
        line.push_str("00")?;
    }
    line.push_str(" 0 * ")?;
    for _ in 0..PAYLOAD {
        line.push_str("aa")?;
    }
    line.push_str("\n")?;
    Ok(line)
}

// Puts two records, and asks for the numbers from then on.
fn lines(alloc: Global) -> Result<Vec<u8>, AllocError> {
    let mut all = Vec::new(alloc);
    for byte in 1..=2 {
        all.extend_from_slice(put_line(alloc, byte)?.as_bytes())?;
    }
    for _ in 0..ASKS {
        all.extend_from_slice(b"stat\n")?;
    }
    Ok(all)
}

// Serves a client who puts two records and asks until the first is flushed.
fn serve_asking<R: Threads + Wait + std::rt::Clock + Sync, N: Nudge + Sync>(
    rt: &R,
    alloc: Global,
    nudge: &N,
    heard: &Heard,
) -> Result<Outcome<MemDisk>, Fail> {
    let mut links = Vec::new(alloc);
    links.push(Peer::new(rt, alloc, lines(alloc)?, Pace::Until(FLUSHED), heard))?;
    let disks = format(rt, alloc, "d0")?;
    serve(
        rt,
        alloc,
        "serve --lwm 0 --links 1 --seats 1 d0",
        disks,
        links,
        Vec::new(alloc),
        nudge,
    )
}

// Serves such a client. Each worker of the device asks the nudge meanwhile.
fn work_beside<R: Threads + Wait + std::rt::Clock + Sync + Abort, N: Nudge + Sync>(
    rt: &R,
    alloc: Global,
    nudge: N,
) -> Result<(), Fail> {
    let nudge = Noting::new(nudge);
    let heard = Heard::new(alloc);
    let outcome = serve_asking(rt, alloc, &nudge, &heard)?;
    assert_eq!(rt; (outcome.status, outcome.note.as_str()), (0, ""));
    let text = heard.text(rt, alloc)?;
    assert!(rt; text.starts_with(b"ok 1 1000\nok 1 1000\nstat 2 0 0 14 "));
    assert!(rt; text.ends_with(FLUSHED));
    for who in 0..4 {
        assert!(rt; nudge.was_asked_by(who), "worker {who}");
    }
    assert!(rt; !nudge.was_asked_by(4));
    assert_eq!(rt; nudge.stops(), 1);
    Ok(())
}

#[test]
fn workers_flush_beside_a_client(rt: HostRuntime) -> Result<(), Fail> {
    work_beside(&rt, rt.alloc(), PlainNudge::new())
}

#[test]
fn workers_that_park_flush_beside_a_client(rt: HostRuntime) -> Result<(), Fail> {
    let nudge = ParkNudge::new(rt.alloc(), 4)?;
    work_beside(&rt, rt.alloc(), nudge)
}
