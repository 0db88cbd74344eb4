// What ends a source from outside. No clause tells when it comes: what the system answers of a descriptor is outside of all proofs.
ghost use Rattle.std.specs.Prelude.{◌≡◌, ◌≢◌, ◌/◌, min, pos, None, IfSome, IsFalse};
ghost use Rattle.std.specs.Duration.{as_nanos};

use libc::net::{POLLIN, POLLNVAL, poll};
use libc::types::pollfd;
use std::marker::Model;
use std::os::fd::RawFd;
use std::time::Duration;

// Waits without a limit.
const FOREVER: i32 = -1;

// Looks, and doesn't wait.
const AT_ONCE: i32 = 0;

// How often a wait begins again where it fails, as where a signal interrupts it.
const TRIES: u32 = 1_000;

// The number of no descriptor, of which the system tells nothing.
const NOTHING: RawFd = -1;

/// What came first of a halt and of a descriptor that was waited for.
#[derive(Clone, Copy, Debug, PartialEq, Eq, Drop)]
pub enum First {
    /// The halt, with the other or alone.
    Halt,
    /// Something is to be had from the descriptor, or the system doesn't let it be waited for.
    Input,
    /// Neither, within the limit.
    Late,
}

/// What ends a source from outside: a descriptor that comes to its end, as a pipe does whose other end is closed, or that has something
/// to be read. Nothing is ever read from it. There may be none, and then nothing ends the source so.
#[derive(Clone, Copy, Drop)]
pub struct Halt {
    descriptor: Option<RawFd>,
}

impl Model for Halt {
    ghost use Rattle.std.specs.Prelude.{ℤ, Option};

    ghost Value = { Option ℤ };

    ghost view = { λ h. h.descriptor };

    ghost inverse = { λ d. record { descriptor = d } };
}

impl Halt {
    /// A halt that never comes.
    pub fn never() -> Halt
        ensures { result ≡ None }
    {
        Halt { descriptor: None }
    }

    /// A halt that comes through this descriptor. Where it isn't open the halt never comes.
    pub fn by(descriptor: RawFd) -> Halt
        ensures { IfSome result (λ d. d ≡ descriptor) }
    {
        if is_open(descriptor) {
            Halt {
                descriptor: Some(descriptor),
            }
        } else {
            Halt::never()
        }
    }

    /// Whether the halt is there once there is something to be had from this descriptor, or before: it waits for the first of the two. A
    /// halt that never comes isn't waited for, and neither is one that can't be waited for.
    pub fn comes_first(&self, input: RawFd) -> bool
        ensures { self.now ≡ None → IsFalse result }
    {
        self.first_of(input, None) == First::Halt
    }

    /// Which is there first: the halt, something to be had from this descriptor, or the end of the limit, where there is one. A limit counts
    /// in whole milliseconds, at most 2^31 - 1 of them, and anew where a signal interrupts the wait. Without one a halt that never comes isn't
    /// waited for.
    pub fn first_of(&self, input: RawFd, limit: Option<Duration>) -> First
        ensures never { self.now ≡ None → result ≢ First.Halt }
        ensures unlimited { limit ≡ None → result ≢ First.Late }
    {
        if self.descriptor.is_none() && limit.is_none() {
            return First::Input;
        }
        let mut asked = [
            asked_of(self.descriptor.unwrap_or(NOTHING)),
            asked_of(input),
        ];
        for _ in 0..TRIES {
            match poll(&mut asked, timeout_of(limit)) {
                0 if limit.is_some() => return First::Late,
                0.. if self.descriptor.is_some() && asked[0].revents != 0 => return First::Halt,
                0.. => return First::Input,
                _ => {}
            }
        }
        First::Input
    }
}

// The milliseconds of a limit, as the system takes them.
fn timeout_of(limit: Option<Duration>) -> i32
    ensures { IfSome limit (λ l. result ≡ pos (min (as_nanos l / 1000000) 2147483647)) }
{
    match limit {
        Some(limit) => i32::try_from(limit.as_millis()).unwrap_or(i32::MAX),
        None => FOREVER,
    }
}

// Whether the system has something open under this number.
fn is_open(descriptor: RawFd) -> bool {
    let mut asked = [asked_of(descriptor)];
    descriptor >= 0 && poll(&mut asked, AT_ONCE) >= 0 && asked[0].revents & POLLNVAL == 0
}

// Asks whether there is something to be had from a descriptor. Of its end and of failures the system tells unasked.
fn asked_of(descriptor: RawFd) -> pollfd {
    pollfd {
        fd: descriptor,
        events: POLLIN,
        revents: 0,
    }
}
