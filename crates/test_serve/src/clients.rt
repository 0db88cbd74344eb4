// Two clients at the same time.
use crate::jobs::{format, run, serve};
use crate::peers::{Heard, Pace, Peer};
use disk_model::MemDisk;
use io_traits::PlainNudge;
use node_jobs::Outcome;
use std::alloc::{AllocError, Global};
use std::sync::Wait;
use std::test::Fail;
use std::thread::Threads;

// What the clients send who put one record, each with a payload of its own.
const FIRST: &[u8] =
    b"put 000102030405060708090a0b0c0d0e0f10111213 0 0 aa\nget 000102030405060708090a0b0c0d0e0f10111213\nraid\n";

const SECOND: &[u8] =
    b"put 000102030405060708090a0b0c0d0e0f10111213 0 0 bb\nget 000102030405060708090a0b0c0d0e0f10111213\nraid\n";

const GET: &[u8] = b"get 000102030405060708090a0b0c0d0e0f10111213\n";

// Serves two links over a new device, by so many seats. Each goes on behind its first line once there was a reply at the other.
fn meet<R: Threads + Wait + std::rt::Clock + Sync>(
    rt: &R,
    alloc: Global,
    words: &str,
    inputs: [&[u8]; 2],
    first: &Heard,
    second: &Heard,
) -> Result<Outcome<MemDisk>, Fail> {
    let [one, other] = inputs;
    let mut links = Vec::new(alloc);
    links.push(Peer::new(rt, alloc, one.to_vec(alloc)?, Pace::Behind(second), first))?;
    links.push(Peer::new(rt, alloc, other.to_vec(alloc)?, Pace::Behind(first), second))?;
    let disks = format(rt, alloc, "d0")?;
    serve(
        rt,
        alloc,
        words,
        disks,
        links,
        Vec::new(alloc),
        &PlainNudge::new(),
    )
}

// What a client hears who puts, gets and asks for a raid, where its put is answered so, and the record has this payload.
fn replies(alloc: Global, put: &str, payload: &str) -> Result<String, AllocError> {
    format!(in alloc; "{put}\nval 1 1000 0 {payload}\nerr mode\n")
}

// Each client puts a record that isn't to be there yet. One of them is the first.
#[test]
fn one_of_two_clients_makes_the_record(rt: HostRuntime) -> Result<(), Fail> {
    let alloc = rt.alloc();
    let first = Heard::new(alloc);
    let second = Heard::new(alloc);
    let outcome = meet(
        &rt,
        alloc,
        "serve --lwm 0 --links 2 --seats 2 d0",
        [FIRST, SECOND],
        &first,
        &second,
    )?;
    assert_eq!(rt; (outcome.status, outcome.note.as_str()), (0, ""));
    assert_eq!(rt; (first.unmet(), second.unmet()), (0, 0));
    let heard = first.text(&rt, alloc)?;
    let (winner, loser, payload) = if heard.starts_with(b"ok") {
        (heard, second.text(&rt, alloc)?, "aa")
    } else {
        (second.text(&rt, alloc)?, heard, "bb")
    };
    assert_eq!(rt;
        winner.as_slice(),
        replies(alloc, "ok 1 1000", payload)?.as_bytes()
    );
    assert_eq!(rt;
        loser.as_slice(),
        replies(alloc, "err gen 1", payload)?.as_bytes()
    );
    let (_, text) = run(&rt, alloc, "run --lwm 0 d0", outcome.disks, GET)?;
    let kept = format!(in alloc; "val 1 1000 0 {payload}\n")?;
    assert_eq!(rt; text.as_slice(), kept.as_bytes());
    Ok(())
}

// Serves two clients of two lines each. How many replies each heard, and how often it waited in vain.
fn counts<R: Threads + Wait + std::rt::Clock + Sync>(
    rt: &R,
    alloc: Global,
    words: &str,
) -> Result<[(u64, u64); 2], Fail> {
    let first = Heard::new(alloc);
    let second = Heard::new(alloc);
    let outcome = meet(
        rt,
        alloc,
        words,
        [b"stat\nstat\n", b"stat\nquit\n"],
        &first,
        &second,
    )?;
    if outcome.status != 0 {
        return Err(Fail::new("it didn't end well"));
    }
    Ok([
        (first.replies(), first.unmet()),
        (second.replies(), second.unmet()),
    ])
}

// Each client waits with its second line until the other has a reply.
#[test]
fn two_seats_serve_two_clients_at_the_same_time(rt: HostRuntime) -> Result<(), Fail> {
    assert_eq!(rt;
        counts(&rt, rt.alloc(), "serve --lwm 0 --links 2 --seats 2 d0")?,
        [(2, 0), (2, 0)]
    );
    Ok(())
}

#[test]
fn one_seat_serves_one_client_after_the_other(rt: HostRuntime) -> Result<(), Fail> {
    assert_eq!(rt;
        counts(&rt, rt.alloc(), "serve --lwm 0 --links 2 --seats 1 d0")?,
        [(2, 1), (2, 0)]
    );
    Ok(())
}
