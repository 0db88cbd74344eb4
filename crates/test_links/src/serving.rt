// All threads of a server, over links in memory.
ghost use Rattle.std.specs.Prelude.{◌≡◌, [], None, Some};

use io_traits::{
    Both, Ends, ListClock, ListDoor, Nudge, PlainNudge, Sink, SinkFault, Source, SourceFault,
    TextSink, TextSource,
};
use line_proto::{Command, Reply, Store};
use node_serve::{Closed, Duty, serve};
use node_workers::{Chore, Did};
use std::alloc::{AllocError, Global};
use std::process::Abort;
use std::sync::Wait;
use std::sync::atomic::{AtomicU64, Ordering};
use std::test::Fail;
use std::thread::{Threads, yield_now};

// How often a source looks whether its second line may come.
const LOOKS: u64 = 1_000_000;

// A store that has nothing.
#[derive(Drop)]
struct Empty;

impl Store for Empty {
    ghost acts = { λ old command now reply new. Unit {0} };

    ghost tends = { λ old new. Unit {0} };

    fn act(&mut self, _alloc: Global, _command: &Command, _now: u64) -> Reply {
        Reply::Nothing
    }

    fn tend(&mut self, _alloc: Global) {}
}

// A chore in which there is nothing to do.
#[derive(Drop)]
struct Rest;

impl Chore for Rest {
    ghost turns = { λ old now did new. Unit {0} };

    fn turn(&mut self, _alloc: Global, _now: u64) -> Did {
        Did::Idle
    }
}

// A source whose further lines come once a reply was heard at another link. It looks for that so often at most.
#[derive(Drop)]
struct Waiting<'a> {
    source: TextSource,
    line: usize,
    begun: bool,
    heard: &'a AtomicU64,
    unmet: &'a AtomicU64,
}

impl<'a> Waiting<'a> {
    fn await_reply(&self) {
        for _ in 0..LOOKS {
            if self.heard.load(Ordering::SeqCst) > 0 {
                return;
            }
            yield_now();
        }
        self.unmet.fetch_add(1, Ordering::SeqCst);
    }
}

impl<'a> Ends for Waiting<'a> {
    ghost left = { λ _. None };

    ghost taken = { λ s. s.source.gone };

    ghost source_faults = { λ s. s.source.faults };

    ghost written = { λ _. None };

    ghost handed = { λ _. None };

    ghost sink_faults = { λ _. 0 };
}

impl<'a> Source for Waiting<'a> {
    fn read_some(&mut self, out: &mut [u8]) -> Result<usize, SourceFault> {
        if self.begun {
            self.await_reply();
        }
        self.begun = true;
        let most = self.line.clamp(1, out.len());
        self.source.read_some(&mut out[..most])
    }
}

// A sink that tells of each write.
#[derive(Drop)]
struct Telling<'a> {
    sink: TextSink,
    heard: &'a AtomicU64,
}

impl<'a> Ends for Telling<'a> {
    ghost left = { λ _. None };

    ghost taken = { λ _. [] };

    ghost source_faults = { λ _. 0 };

    ghost written = { λ s. Some s.sink.written };

    ghost handed = { λ s. Some s.sink.handed };

    ghost sink_faults = { λ s. s.sink.faults };
}

impl<'a> Sink for Telling<'a> {
    fn write_some(&mut self, bytes: &[u8]) -> Result<usize, SinkFault> {
        self.heard.fetch_add(1, Ordering::SeqCst);
        self.sink.write_some(bytes)
    }

    fn flush(&mut self) -> Result<(), SinkFault> {
        self.sink.flush()
    }
}

// How many replies were heard at two links, and how often one that was waited for didn't come in time.
#[derive(Drop)]
struct Heard {
    first: AtomicU64,
    second: AtomicU64,
    unmet: AtomicU64,
}

impl Heard {
    fn new() -> Heard {
        Heard {
            first: AtomicU64::new(0),
            second: AtomicU64::new(0),
            unmet: AtomicU64::new(0),
        }
    }

    fn counts(&self) -> (u64, u64, u64) {
        (
            self.first.load(Ordering::SeqCst),
            self.second.load(Ordering::SeqCst),
            self.unmet.load(Ordering::SeqCst),
        )
    }
}

type Peer<'a> = Both<Waiting<'a>, Telling<'a>>;

// A link of lines of 5 bytes, which waits for a reply where the first count says, and tells of its own in the second.
fn peer_of<'a>(
    alloc: Global,
    input: &[u8],
    awaited: &'a AtomicU64,
    told: &'a AtomicU64,
    unmet: &'a AtomicU64,
) -> Result<Peer<'a>, Fail> {
    Ok(Both {
        source: Waiting {
            source: TextSource::new(input.to_vec(alloc)?, Vec::new(alloc)),
            line: 5,
            begun: false,
            heard: awaited,
            unmet,
        },
        sink: Telling {
            sink: TextSink::new(alloc, Vec::new(alloc)),
            heard: told,
        },
    })
}

// A nudge that notes which workers asked it, and how often it was stopped.
#[derive(Drop)]
struct Noting {
    nudge: PlainNudge,
    asked: [AtomicU64; 3],
    stops: AtomicU64,
}

impl Noting {
    fn new() -> Noting {
        Noting {
            nudge: PlainNudge::new(),
            asked: [AtomicU64::new(0), AtomicU64::new(0), AtomicU64::new(0)],
            stops: AtomicU64::new(0),
        }
    }

    fn asked_by(&self, who: usize) -> bool {
        self.asked
            .get(who)
            .is_some_and(|count| count.load(Ordering::SeqCst) > 0)
    }
}

impl Nudge for Noting {
    ghost tells = { λ nudge who idle goes_on. Unit {0} };

    fn pause<R: Wait + std::rt::Clock>(&self, rt: &R, who: u8, idle: bool) -> bool {
        if let Some(count) = self.asked.get(usize::from(who)) {
            count.fetch_add(1, Ordering::SeqCst);
        }
        self.nudge.pause(rt, who, idle)
    }

    fn stop(&self) {
        self.stops.fetch_add(1, Ordering::SeqCst);
        self.nudge.stop();
    }
}

// Two workers, and so many seats.
fn duties_of(alloc: Global, seats: u8) -> Result<Vec<Duty<Empty, Rest, ListClock>>, Fail> {
    let mut duties = Vec::new(alloc);
    for who in 0..2 {
        duties.push(Duty::Worker {
            chore: Rest,
            clock: ListClock::new([1000].to_vec(alloc)?),
            who,
        })?;
    }
    for _ in 0..seats {
        duties.push(Duty::Seat {
            store: Empty,
            clock: ListClock::new([1000].to_vec(alloc)?),
        })?;
    }
    Ok(duties)
}

// Serves the links with so many seats, where the door's calls of these numbers fail. Each worker asked the nudge, which was stopped once.
fn serve_all<R: Threads + Wait + Abort + std::rt::Clock + Sync, L: Source + Sink + Send>(
    rt: &R,
    alloc: Global,
    links: Vec<L>,
    fails: Vec<u64>,
    seats: u8,
) -> Result<Closed, Fail> {
    let nudge = Noting::new();
    let door = ListDoor::new(links, fails);
    let mut duties = duties_of(alloc, seats)?;
    let (_door, closed) = serve(rt, alloc, door, &nudge, &mut duties);
    assert_eq!(rt; nudge.stops.load(Ordering::SeqCst), 1);
    assert!(rt; nudge.asked_by(0) && nudge.asked_by(1) && !nudge.asked_by(2));
    Ok(closed.ok_or(AllocError)?)
}

// Serves two links, of which each waits with its second line for a reply at the other.
fn meet<R: Threads + Wait + Abort + std::rt::Clock + Sync>(
    rt: &R,
    alloc: Global,
    heard: &Heard,
    seats: u8,
) -> Result<Closed, Fail> {
    let mut links = Vec::new(alloc);
    links.push(peer_of(
        alloc,
        b"stat\nstat\n",
        &heard.second,
        &heard.first,
        &heard.unmet,
    )?)?;
    links.push(peer_of(
        alloc,
        b"stat\nquit\n",
        &heard.first,
        &heard.second,
        &heard.unmet,
    )?)?;
    serve_all(rt, alloc, links, Vec::new(alloc), seats)
}

// Serves two links of one line, of which none waits for the other, where the door's calls of these numbers fail.
fn pass_by<R: Threads + Wait + Abort + std::rt::Clock + Sync>(
    rt: &R,
    alloc: Global,
    heard: &Heard,
    fails: Vec<u64>,
    seats: u8,
) -> Result<Closed, Fail> {
    let mut links = Vec::new(alloc);
    for told in [&heard.first, &heard.second] {
        links.push(peer_of(alloc, b"stat\n", told, told, &heard.unmet)?)?;
    }
    serve_all(rt, alloc, links, fails, seats)
}

#[test]
fn two_links_are_served_at_the_same_time(rt: HostRuntime) -> Result<(), Fail> {
    let heard = Heard::new();
    assert_eq!(rt; meet(&rt, rt.alloc(), &heard, 2)?, Closed::Ended);
    assert_eq!(rt; heard.counts(), (2, 2, 0));
    Ok(())
}

// The first link waits in vain: for its second line, and for its end.
#[test]
fn one_seat_serves_one_link_after_the_other(rt: HostRuntime) -> Result<(), Fail> {
    let heard = Heard::new();
    assert_eq!(rt; meet(&rt, rt.alloc(), &heard, 1)?, Closed::Ended);
    assert_eq!(rt; heard.counts(), (2, 2, 2));
    Ok(())
}

#[test]
fn no_seat_asks_a_door_that_has_failed(rt: HostRuntime) -> Result<(), Fail> {
    let alloc = rt.alloc();
    let heard = Heard::new();
    let fails = [1u64].to_vec(alloc)?;
    let closed = pass_by(&rt, alloc, &heard, fails, 3)?;
    assert_eq!(rt; closed, Closed::Failed);
    assert_eq!(rt; heard.counts(), (1, 0, 0));
    Ok(())
}

// Without a seat the workers are told to end at once, and no link is served.
#[test]
fn a_server_without_seats_ends(rt: HostRuntime) -> Result<(), Fail> {
    let alloc = rt.alloc();
    let heard = Heard::new();
    let closed = pass_by(&rt, alloc, &heard, Vec::new(alloc), 0)?;
    assert_eq!(rt; closed, Closed::Ended);
    assert_eq!(rt; heard.counts(), (0, 0, 0));
    Ok(())
}
