// The door of the program: of `serve` the connections of a port of this machine, and of every other command none.
use crate::devices::{Undone, Unfit};
use io_halt::Halt;
use net_link::TcpDoor;
use node_progress::{Announced, Progress};
use node_words::{Job, Request, Serving, read_words};
use std::alloc::Global;
use std::io::IsTerminal;
use std::net::{Ipv4Addr, Net, SocketAddr, TcpListener, TcpStream};
use std::time::Duration;

/// The door that tells on standard error when its connections are served.
pub type ProgramDoor<'p, E> = Announced<'p, TcpDoor, E>;

/// How many workers there are of so many devices, four of each.
pub fn workers_of(devices: usize) -> u8 {
    u8::try_from(devices).unwrap_or(u8::MAX).saturating_mul(4)
}

// What is told once connections are served: the devices and where they are served.
fn words_of(alloc: Global, names: &[String], port: u16) -> Result<String, Undone> {
    let mut words = String::from_str(alloc, "serving")?;
    for name in names {
        words.push_str(" ")?;
        words.push_str(name.as_str())?;
    }
    words.push_str(" on 127.0.0.1:")?;
    words.push_str(itoa::Buffer::new().format(port))?;
    Ok(words)
}

// The listener at a port of this machine.
fn listener_at<R: Net<Listener = TcpListener, Stream = TcpStream>>(
    rt: &R,
    alloc: Global,
    port: u16,
) -> Result<TcpListener, Undone> {
    match TcpListener::bind(rt, SocketAddr::from((Ipv4Addr::LOCALHOST, port))) {
        Ok(listener) => Ok(listener),
        Err(error) => {
            let name = String::from_str(alloc, itoa::Buffer::new().format(port))?;
            Err(Undone::Unmade {
                name,
                why: Unfit::Port(error),
            })
        }
    }
}

// The door of `serve` for these devices.
fn door_for<'p, E: Eprint + IsTerminal + Drop, R: Net<Listener = TcpListener, Stream = TcpStream>>(
    rt: &R,
    alloc: Global,
    names: &[String],
    serving: Serving,
    progress: &'p Progress<E>,
    halt: Halt,
) -> Result<ProgramDoor<'p, E>, Undone> {
    let listener = listener_at(rt, alloc, serving.port)?;
    let links = Some(serving.links).filter(|links| *links > 0);
    let idle = Some(serving.idle).filter(|idle| *idle > 0);
    let door = TcpDoor::new(
        listener,
        links,
        halt,
        idle.map(|seconds| Duration::from_secs(u64::from(seconds))),
    );
    let words = words_of(alloc, names, serving.port)?;
    Ok(Announced::new(door, progress, words))
}

/// The door of what the words ask for, which the halt ends. It gives no link where they don't ask for `serve`.
pub fn door_of<
    'p,
    E: Eprint + IsTerminal + Drop,
    R: Net<Listener = TcpListener, Stream = TcpStream>,
>(
    rt: &R,
    alloc: Global,
    words: &[String],
    progress: &'p Progress<E>,
    halt: Halt,
) -> Result<ProgramDoor<'p, E>, Undone> {
    match read_words(words) {
        Some(
            Request {
                job: Job::Serve { serving, .. },
                names,
            },
        ) => door_for(rt, alloc, names, serving, progress, halt),
        _ => Ok(Announced::shut(progress)),
    }
}
