// Sessions over connections of this machine.
use io_halt::Halt;
use io_traits::{Door, ListClock, Sink, Source};
use line_proto::{Command, Reply, Store};
use net_link::TcpDoor;
use node_session::{Ended, session};
use std::alloc::{AllocError, Global};
use std::io::{self, Read, Write};
use std::net::{Ipv4Addr, SocketAddr, TcpListener, TcpStream};
use std::os::fd::AsRawFd;
use std::os::unix::net::UnixStream;
use std::test::Fail;
use std::thread::join;
use std::time::{Duration, Instant};

// How many milliseconds a peer may be silent where that is limited.
const SILENCE: u64 = 300;

// A store that has nothing.
#[derive(Drop)]
struct Empty {
    tended: u64,
}

impl Store for Empty {
    ghost acts = { λ old command now reply new. Unit {0} };

    ghost tends = { λ old new. Unit {0} };

    fn act(&mut self, _alloc: Global, _command: &Command, _now: u64) -> Reply {
        Reply::Nothing
    }

    fn tend(&mut self, _alloc: Global) {
        self.tended = self.tended.saturating_add(1);
    }
}

fn listen(rt: &HostRuntime) -> io::Result<TcpListener> {
    TcpListener::bind(rt, SocketAddr::from((Ipv4Addr::LOCALHOST, 0)))
}

// Sends some bytes, and gives back what comes until the connection ends.
fn ask(rt: &HostRuntime, addr: SocketAddr, input: &[u8]) -> io::Result<Vec<u8>> {
    let mut stream = TcpStream::connect(rt, addr)?;
    stream.write_all(input)?;
    hear(rt.alloc(), stream)
}

// What comes until the connection ends.
fn hear(alloc: Global, mut stream: TcpStream) -> io::Result<Vec<u8>> {
    let mut all = Vec::new(alloc);
    stream.read_to_end(&mut all)?;
    Ok(all)
}

// A session over a link, which goes then.
fn serve_link<L: Source + Sink>(alloc: Global, mut link: L) -> Result<Ended, AllocError> {
    let mut clock = ListClock::new([1000].to_vec(alloc)?);
    Ok(session(
        alloc,
        &mut Empty { tended: 0 },
        &mut link,
        &mut clock,
        1 << 40,
    ))
}

// A session over the next link of a door.
fn serve_next<D: Door>(alloc: Global, door: &mut D) -> Result<Ended, Fail> {
    let Ok(Some(link)) = door.next_link() else {
        return Err(Fail::new("no link"));
    };
    Ok(serve_link(alloc, link)?)
}

#[test]
fn a_session_is_served_over_a_connection(rt: HostRuntime) -> Result<(), Fail> {
    let listener = listen(&rt)?;
    let addr = listener.local_addr()?;
    let mut door = TcpDoor::new(listener, Some(1), Halt::never(), None);
    let (heard, ended) = join(
        &rt,
        || ask(&rt, addr, b"stat\nfrob\nquit\n"),
        || serve_next(rt.alloc(), &mut door),
    );
    let ended = ended?;
    assert_eq!(rt; heard?.as_slice(), b"none\nerr line\nbye\n".as_slice());
    assert_eq!(rt; ended, Ended::Quit { lines: 3 });
    assert!(rt; matches!(door.next_link(), Ok(None)));
    Ok(())
}

#[test]
fn a_client_that_goes_away_ends_its_session_alone(rt: HostRuntime) -> Result<(), Fail> {
    let alloc = rt.alloc();
    let listener = listen(&rt)?;
    let addr = listener.local_addr()?;
    let mut door = TcpDoor::new(listener, None, Halt::never(), None);
    let mut near = TcpStream::connect(&rt, addr)?;
    near.write_all(b"stat\nst")?;
    drop(near);
    let first = serve_next(alloc, &mut door)?;
    assert!(rt; !matches!(first, Ended::Quit { lines: _ }));
    let (heard, ended) = join(
        &rt,
        || ask(&rt, addr, b"quit\n"),
        || serve_next(alloc, &mut door),
    );
    let ended = ended?;
    assert_eq!(rt; heard?.as_slice(), b"bye\n".as_slice());
    assert_eq!(rt; ended, Ended::Quit { lines: 1 });
    Ok(())
}

#[test]
fn a_link_that_its_peer_has_closed_ends_and_then_fails(rt: HostRuntime) -> Result<(), Fail> {
    let listener = listen(&rt)?;
    let addr = listener.local_addr()?;
    let mut door = TcpDoor::new(listener, Some(1), Halt::never(), None);
    let mut near = TcpStream::connect(&rt, addr)?;
    let Ok(Some(mut link)) = door.next_link() else {
        return Err(Fail::new("no link"));
    };
    near.write_all(b"ab")?;
    drop(near);
    let mut out = [0; 8];
    assert_eq!(rt; link.read_some(&mut out), Ok(2));
    assert_eq!(rt; &out[..2], b"ab".as_slice());
    assert_eq!(rt; link.read_some(&mut out), Ok(0));
    let mut failed = false;
    for _ in 0..1000 {
        failed = failed || link.write_some(&[0; 1000]).is_err();
    }
    assert!(rt; failed);
    Ok(())
}

#[test]
fn a_halt_ends_the_links_and_the_door(rt: HostRuntime) -> Result<(), Fail> {
    let listener = listen(&rt)?;
    let addr = listener.local_addr()?;
    let (near_end, far_end) = UnixStream::pair(&rt)?;
    let mut door = TcpDoor::new(listener, None, Halt::by(near_end.as_raw_fd()), None);
    let mut near = TcpStream::connect(&rt, addr)?;
    let Ok(Some(mut link)) = door.next_link() else {
        return Err(Fail::new("no link"));
    };
    near.write_all(b"ab")?;
    let mut out = [0; 8];
    assert_eq!(rt; link.read_some(&mut out), Ok(2));
    near.write_all(b"cd")?;
    drop(far_end);
    assert_eq!(rt; link.read_some(&mut out), Ok(0));
    assert!(rt; matches!(door.next_link(), Ok(None)));
    Ok(())
}

#[test]
fn a_silent_client_is_closed_beside_one_that_is_served(rt: HostRuntime) -> Result<(), Fail> {
    let alloc = rt.alloc();
    let listener = listen(&rt)?;
    let addr = listener.local_addr()?;
    let limit = Duration::from_millis(SILENCE);
    let mut door = TcpDoor::new(listener, Some(2), Halt::never(), Some(limit));
    let silent = TcpStream::connect(&rt, addr)?;
    let mut asking = TcpStream::connect(&rt, addr)?;
    asking.write_all(b"stat\nquit\n")?;
    let (Ok(Some(first)), Ok(Some(second))) = (door.next_link(), door.next_link()) else {
        return Err(Fail::new("no link"));
    };
    let start = Instant::now(&rt)?;
    let (closed, served) = join(
        &rt,
        || serve_link(alloc, first),
        || serve_link(alloc, second),
    );
    let closed = closed?;
    let served = served?;
    assert!(rt; start.elapsed(&rt)? >= limit);
    assert_eq!(rt; closed, Ended::Finish { lines: 0 });
    assert_eq!(rt; served, Ended::Quit { lines: 2 });
    assert_eq!(rt; hear(alloc, silent)?.as_slice(), b"".as_slice());
    assert_eq!(rt; hear(alloc, asking)?.as_slice(), b"none\nbye\n".as_slice());
    Ok(())
}
