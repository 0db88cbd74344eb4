// The standard streams of the system. Each method makes one call and keeps in mind, for clauses alone, what was asked and what came of it.
ghost use Rattle.std.specs.Prelude.{◌≡◌, []};

use crate::{InputStream, OutputStream};
use call_history::History;
use std::io;
use std::io::{Print, Read};
use std::marker::Model;
use std::rt::{Stdin, Stdout};

/// The standard input of the system.
#[derive(Drop)]
pub struct SystemInput {
    stream: Stdin,
    history: History,
}

impl Model for SystemInput {
    ghost use Rattle.std.specs.Prelude.{List};
    ghost use Rattle.io_traits.specs.Streams.{Reading, kept_readings};

    ghost Value = { List Reading };

    ghost view = { λ s. kept_readings s.history.notes };
}

impl SystemInput {
    /// The standard input, of which nothing was read.
    pub fn new(stream: Stdin) -> SystemInput
        ensures { result ≡ [] }
    {
        SystemInput {
            stream,
            history: History::new(),
        }
    }
}

impl InputStream for SystemInput {
    ghost reads = { λ reads. reads };

    fn read_once(&mut self, out: &mut [u8]) -> io::Result<usize> {
        let answer = self.stream.read(out);
        let count = answer.unwrap_or(0);
        self.history.note(
            &[out.len() as u64, u64::from(answer.is_ok())],
            &out[..count],
        );
        answer
    }
}

/// The standard output of the system.
#[derive(Drop)]
pub struct SystemOutput {
    stream: Stdout,
    history: History,
}

impl Model for SystemOutput {
    ghost use Rattle.std.specs.Prelude.{List};
    ghost use Rattle.io_traits.specs.Streams.{Writing, kept_writings};

    ghost Value = { List Writing };

    ghost view = { λ s. kept_writings s.history.notes };
}

impl SystemOutput {
    /// The standard output, to which nothing was written.
    pub fn new(stream: Stdout) -> SystemOutput
        ensures { result ≡ [] }
    {
        SystemOutput {
            stream,
            history: History::new(),
        }
    }
}

impl OutputStream for SystemOutput {
    ghost writes = { λ writes. writes };

    fn write_once(&mut self, bytes: &[u8]) -> io::Result<usize> {
        let answer = self.stream.write_some(bytes);
        let count = answer.unwrap_or(0);
        self.history
            .note(&[count as u64, u64::from(answer.is_ok())], bytes);
        answer
    }
}
