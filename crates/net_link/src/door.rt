// Where connections come from.
ghost use Rattle.std.specs.Prelude.{◌≡◌, ◌+◌, ◌⊎◌, false, None, Some, Ok, IsTrue, IfOk, IfSome, is_ok, if◌then◌else◌};
ghost use Rattle.model_faults.specs.Counts.{one_more};
ghost use Rattle.io_traits.specs.Door.{gave_none, links_given};
ghost use Rattle.net_link.specs.View.{fresh_link, none_left, one_fewer, gave_link};

use crate::TcpLink;
use http_server::Log;
use io_halt::Halt;
use io_traits::{Door, DoorFault};
use std::io::{self, ErrorKind};
use std::marker::Model;
use std::net::{TcpListener, TcpStream};
use std::os::fd::AsRawFd;
use std::time::Duration;

// How long a peer that takes no reply is waited for, in seconds. Its link then fails.
const PATIENCE: u64 = 10;

/// The connections that a listener accepts, so many at most where they are bounded, until a halt comes, which also ends each link. A link
/// whose peer takes no reply for ten seconds fails, and one whose peer is silent for longer than it may is at its end; where that isn't limited
/// the peer is waited for.
#[derive(Drop)]
pub struct TcpDoor {
    listener: TcpListener,
    halt: Halt,
    idle: Option<Duration>,
    left: Option<u32>,
    given: Log<(), ()>,
    faults: u64,
    ended: bool,
}

impl Model for TcpDoor {
    ghost use Rattle.std.specs.Prelude.{length};
    ghost use Rattle.net_link.specs.View.{DoorState};

    ghost Value = { DoorState };

    ghost view = { λ d. record { left = d.left; given = length d.given.items; halt = d.halt; idle = d.idle; faults = d.faults; ended = d.ended } };
}

impl TcpDoor {
    /// A door of so many links, or of any number where none is given, whose peers may be silent for so long, or for ever.
    pub fn new(
        listener: TcpListener,
        links: Option<u32>,
        halt: Halt,
        idle: Option<Duration>,
    ) -> TcpDoor
        ensures { result ≡ record { left = links; given = 0; halt = halt; idle = idle; faults = 0; ended = false } }
    {
        TcpDoor {
            listener,
            halt,
            idle,
            left: links,
            given: Log::new(),
            faults: 0,
            ended: false,
        }
    }
}

// Accepts a connection, and the next where one was given up before it was taken.
fn accept(listener: &TcpListener) -> io::Result<TcpStream> {
    for _ in 0..u64::MAX {
        match listener.accept() {
            Ok((stream, _)) => return Ok(stream),
            Err(error) if error.kind() == ErrorKind::ConnectionAborted => {}
            Err(error) => return Err(error),
        }
    }
    Err(ErrorKind::ConnectionAborted.into())
}

// The link over a connection that was accepted. No small write waits for an answer to the one before it. Where that or the limit of its
// writes can't be had, the link goes without.
fn link_over(stream: TcpStream, halt: Halt, idle: Option<Duration>) -> TcpLink
    ensures { result ≡ fresh_link halt idle }
{
    let _ = stream.set_nodelay(true);
    let _ = stream.set_write_timeout(Some(Duration::from_secs(PATIENCE)));
    TcpLink::new(stream, halt, idle)
}

impl Door for TcpDoor {
    type Link = TcpLink;

    ghost faults = { λ d. d.faults };

    ghost ended = { λ d. d.ended };

    ghost given = { λ d. d.given };

    ghost may_give = { λ d link. link ≡ fresh_link d.halt d.idle };

    fn next_link(&mut self) -> Result<Option<TcpLink>, DoorFault>
        // It ends where all its links were given, for good, and else only by a halt that may come.
        ensures all { IsTrue (none_left self.old.left) → result ≡ Ok None }
        ensures stays { IsTrue self.old.ended → result ≡ Ok None }
        ensures never { self.old.halt ≡ None → IsTrue (gave_none result) → IsTrue self.old.ended ⊎ IsTrue (none_left self.old.left) }
        ensures last { self.new.ended ≡ gave_none result }

        // A link is one through which nothing went yet, and which this door's halt ends, or a peer that is silent for as long as the door says.
        ensures fresh { IfOk result (λ given. IfSome given (λ link. link ≡ fresh_link self.old.halt self.old.idle)) }
        ensures left { self.new.left ≡ (if gave_link result then one_fewer self.old.left else self.old.left) }
        ensures given { self.new.given ≡ self.old.given + links_given result }

        // A fault is counted.
        ensures faults { self.new.faults ≡ (if is_ok result then self.old.faults else one_more self.old.faults) }
        ensures same { (self.new.halt ≡ self.old.halt) × (self.new.idle ≡ self.old.idle) }
    {
        self.ended = self.ended
            || self.left == Some(0)
            || self.halt.comes_first(self.listener.as_raw_fd());
        if self.ended {
            return Ok(None);
        }
        let Ok(stream) = accept(&self.listener) else {
            self.faults = self.faults.saturating_add(1);
            return Err(DoorFault);
        };
        self.left = self.left.map(|left| left.saturating_sub(1));
        self.given = self.given.and(&(), &());
        Ok(Some(link_over(stream, self.halt, self.idle)))
    }
}
