// A connection as a source and a sink.
ghost use Rattle.std.specs.Prelude.{◌≡◌, ◌≢◌, ◌<◌, ◌≤◌, length, None, Some, Ok, IfOk, IsSome, is_ok, if◌then◌else◌};
ghost use Rattle.model_faults.specs.Counts.{one_more};
ghost use Rattle.io_traits.specs.Source.{ReadGives};
ghost use Rattle.io_traits.specs.Sink.{WriteGives};
ghost use Rattle.net_link.specs.View.{fresh_link};

use http_server::Log;
use io_halt::{First, Halt};
use io_traits::{Ends, Sink, SinkFault, Source, SourceFault, remember};
use std::io::{self, ErrorKind, Read, Write};
use std::marker::Model;
use std::net::TcpStream;
use std::os::fd::AsRawFd;
use std::time::Duration;

/// What ended a link on this side.
#[derive(Clone, Copy, Debug, PartialEq, Eq, Drop)]
pub enum Stop {
    /// Its halt came.
    Halted,
    /// Its peer was silent for too long.
    Idle,
}

/// A connection, with the history of the bytes that were taken from it and of those that the system took. It is at its end where its peer
/// ends it, once its halt has come, or once its peer was silent for longer than it may, where that is limited: before each read it waits for
/// the first of these, or for something to be had from the peer. It keeps nothing back, so what the system took is handed on.
#[derive(Drop)]
pub struct TcpLink {
    stream: TcpStream,
    gone: Log<u8, ()>,
    written: Log<u8, ()>,
    source_faults: u64,
    sink_faults: u64,
    halt: Halt,
    idle: Option<Duration>,
    stopped: Option<Stop>,
}

impl Model for TcpLink {
    ghost use Rattle.io_traits.specs.Memory.{logged_bytes};
    ghost use Rattle.net_link.specs.View.{LinkState};

    ghost Value = { LinkState };

    ghost view = { λ s. record { gone = logged_bytes s.gone.items; written = logged_bytes s.written.items; source_faults = s.source_faults; sink_faults = s.sink_faults; halt = s.halt; idle = s.idle; stopped = s.stopped } };
}

impl TcpLink {
    /// The link over a connection, of which nothing was taken and to which nothing was written, until the halt comes or the peer is silent
    /// for so long, where that is limited.
    pub fn new(stream: TcpStream, halt: Halt, idle: Option<Duration>) -> TcpLink
        ensures { result ≡ fresh_link halt idle }
    {
        TcpLink {
            stream,
            gone: Log::new(),
            written: Log::new(),
            source_faults: 0,
            sink_faults: 0,
            halt,
            idle,
            stopped: None,
        }
    }

    // Waits for the peer until the halt comes or the peer was silent for too long, where neither was so before.
    fn await_peer(&mut self)
        ensures stays { IsSome self.old.stopped → self.new.stopped ≡ self.old.stopped }
        ensures never { self.old.halt ≡ None → self.old.stopped ≢ Some Stop.Halted → self.new.stopped ≢ Some Stop.Halted }
        ensures unlimited { self.old.idle ≡ None → self.old.stopped ≢ Some Stop.Idle → self.new.stopped ≢ Some Stop.Idle }
        ensures rest { self.new ≡ record self.old { stopped = self.new.stopped } }
    {
        if self.stopped.is_some() {
            return;
        }
        self.stopped = match self.halt.first_of(self.stream.as_raw_fd(), self.idle) {
            First::Halt => Some(Stop::Halted),
            First::Late => Some(Stop::Idle),
            First::Input => None,
        };
    }
}

impl Ends for TcpLink {
    ghost left = { λ _. None };

    ghost taken = { λ s. s.gone };

    ghost source_faults = { λ s. s.source_faults };

    ghost written = { λ s. Some s.written };

    ghost handed = { λ s. Some s.written };

    ghost sink_faults = { λ s. s.sink_faults };
}

// Reads once, and again where a signal interrupts it.
fn read_once<S: Read>(stream: &mut S, out: &mut [u8]) -> io::Result<usize>
    ensures fits { IfOk result (λ n. n ≤ length out.new) }
    ensures room { length out.new ≡ length out.old }
{
    for _ in 0..u64::MAX {
        match stream.read(out) {
            Err(error) if error.kind() == ErrorKind::Interrupted => {}
            answer => return answer,
        }
    }
    Err(ErrorKind::Interrupted.into())
}

// Writes once, and again where a signal interrupts it.
fn write_once<S: Write>(stream: &mut S, bytes: &[u8]) -> io::Result<usize>
    ensures { IfOk result (λ n. n ≤ length bytes.now) }
{
    for _ in 0..u64::MAX {
        match stream.write(bytes) {
            Err(error) if error.kind() == ErrorKind::Interrupted => {}
            answer => return answer,
        }
    }
    Err(ErrorKind::Interrupted.into())
}

impl Source for TcpLink {
    fn read_some(&mut self, out: &mut [u8]) -> Result<usize, SourceFault>
        requires { 0 < length out.old }

        // Once ended on this side it is at its end for good, without a fault, and nothing is taken.
        ensures stopped { IsSome self.new.stopped → (result ≡ Ok 0) × (self.new.gone ≡ self.old.gone) }
        ensures stays { IsSome self.old.stopped → self.new.stopped ≡ self.old.stopped }

        // It is halted only by a halt that may come, and idle only where its peer's silence is limited.
        ensures never { self.old.halt ≡ None → self.old.stopped ≢ Some Stop.Halted → self.new.stopped ≢ Some Stop.Halted }
        ensures unlimited { self.old.idle ≡ None → self.old.stopped ≢ Some Stop.Idle → self.new.stopped ≢ Some Stop.Idle }

        // Each byte that the system gave is kept, and each fault is counted.
        ensures bytes { ReadGives self.old.gone self.new.gone None None out.new result }
        ensures faults { self.new.source_faults ≡ (if is_ok result then self.old.source_faults else one_more self.old.source_faults) }
        ensures rest { self.new ≡ record self.old { gone = self.new.gone; source_faults = self.new.source_faults; stopped = self.new.stopped } }
    {
        self.await_peer();
        if self.stopped.is_some() {
            return Ok(0);
        }
        let Ok(count) = read_once(&mut self.stream, out) else {
            self.source_faults = self.source_faults.saturating_add(1);
            return Err(SourceFault);
        };
        remember(&mut self.gone, &out[..count]);
        Ok(count)
    }
}

impl Sink for TcpLink {
    fn write_some(&mut self, bytes: &[u8]) -> Result<usize, SinkFault>
        // Each byte that the system took is kept. A fault takes none, and is counted.
        ensures bytes { WriteGives (Some self.old.written) (Some self.new.written) self.old.sink_faults self.new.sink_faults bytes.now result }
        ensures faults { self.new.sink_faults ≡ (if is_ok result then self.old.sink_faults else one_more self.old.sink_faults) }
        ensures rest { self.new ≡ record self.old { written = self.new.written; sink_faults = self.new.sink_faults } }
    {
        match write_once(&mut self.stream, bytes) {
            Ok(count) if count > 0 || bytes.is_empty() => {
                remember(&mut self.written, &bytes[..count]);
                Ok(count)
            }
            _ => {
                self.sink_faults = self.sink_faults.saturating_add(1);
                Err(SinkFault)
            }
        }
    }

    fn flush(&mut self) -> Result<(), SinkFault>
        ensures faults { self.new.sink_faults ≡ (if is_ok result then self.old.sink_faults else one_more self.old.sink_faults) }
        ensures rest { self.new ≡ record self.old { sink_faults = self.new.sink_faults } }
    {
        if self.stream.flush().is_err() {
            self.sink_faults = self.sink_faults.saturating_add(1);
            return Err(SinkFault);
        }
        Ok(())
    }
}
