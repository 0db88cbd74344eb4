// Links in memory whose peers go on by what was replied.
ghost use Rattle.std.specs.Prelude.{◌≡◌, None};

use io_traits::{Ends, Sink, SinkFault, Source, SourceFault, TextSource};
use std::alloc::{AllocError, Global};
use std::sync::atomic::{AtomicU64, Ordering};
use std::sync::{Mutex, Wait};
use std::thread::yield_now;

// How often a peer looks whether its next line may come.
const LOOKS: u64 = 1_000_000;

/// What was replied at a link.
#[derive(Drop)]
pub struct Heard {
    text: Mutex<Vec<u8>>,
    replies: AtomicU64,
    // How often the peer waited in vain.
    unmet: AtomicU64,
}

impl Heard {
    pub fn new(alloc: Global) -> Heard {
        Heard {
            text: Mutex::new(Vec::new(alloc)),
            replies: AtomicU64::new(0),
            unmet: AtomicU64::new(0),
        }
    }

    /// All of it.
    pub fn text<R: Wait>(&self, rt: &R, alloc: Global) -> Result<Vec<u8>, AllocError> {
        self.text.lock(rt).to_vec(alloc)
    }

    /// How many replies there were.
    pub fn replies(&self) -> u64 {
        self.replies.load(Ordering::SeqCst)
    }

    /// How often the peer waited in vain.
    pub fn unmet(&self) -> u64 {
        self.unmet.load(Ordering::SeqCst)
    }

    fn ends_with<R: Wait>(&self, rt: &R, reply: &[u8]) -> bool {
        self.text.lock(rt).ends_with(reply)
    }

    // Where there is no memory for a piece, it stays behind.
    fn note<R: Wait>(&self, rt: &R, bytes: &[u8]) {
        let _ = self.text.lock(rt).extend_from_slice(bytes);
        let ends = bytes.iter().filter(|byte| **byte == b'\n').count();
        self.replies.fetch_add(ends as u64, Ordering::SeqCst);
    }
}

/// When a peer goes on with another line.
#[derive(Drop)]
pub enum Pace<'a> {
    /// Once there was a reply at this other link. It looks for that so often, and then gives up to wait.
    Behind(&'a Heard),
    /// Until this was replied last. Then its input ends.
    Until(&'a [u8]),
}

/// A link whose peer sends one byte at a time, and which tells what is replied.
#[derive(Drop)]
pub struct Peer<'a, R> {
    rt: &'a R,
    source: TextSource,
    // Whether a line was sent, and nothing behind it.
    is_between: bool,
    pace: Pace<'a>,
    heard: &'a Heard,
}

impl<'a, R: Wait> Peer<'a, R> {
    /// The link of these lines.
    pub fn new(rt: &'a R, alloc: Global, lines: Vec<u8>, pace: Pace<'a>, heard: &'a Heard) -> Self {
        Peer {
            rt,
            source: TextSource::new(lines, Vec::new(alloc)),
            is_between: false,
            pace,
            heard,
        }
    }

    fn wait_for(&self, other: &Heard) {
        if self.heard.unmet() > 0 {
            return;
        }
        for _ in 0..LOOKS {
            if other.replies() > 0 {
                return;
            }
            yield_now();
        }
        self.heard.unmet.fetch_add(1, Ordering::SeqCst);
    }

    // Whether another line comes.
    fn goes_on(&self) -> bool {
        match &self.pace {
            Pace::Behind(other) => {
                self.wait_for(other);
                true
            }
            Pace::Until(reply) => {
                yield_now();
                !self.heard.ends_with(self.rt, reply)
            }
        }
    }
}

impl<'a, R> Ends for Peer<'a, R> {
    ghost left = { λ _. None };

    ghost taken = { λ p. p.source.gone };

    ghost source_faults = { λ p. p.source.faults };

    ghost written = { λ _. None };

    ghost handed = { λ _. None };

    ghost sink_faults = { λ _. 0 };
}

impl<'a, R: Wait> Source for Peer<'a, R> {
    fn read_some(&mut self, out: &mut [u8]) -> Result<usize, SourceFault> {
        if self.is_between && !self.goes_on() {
            return Ok(0);
        }
        let count = self.source.read_some(&mut out[..1])?;
        self.is_between = count == 1 && out[0] == b'\n';
        Ok(count)
    }
}

impl<'a, R: Wait> Sink for Peer<'a, R> {
    fn write_some(&mut self, bytes: &[u8]) -> Result<usize, SinkFault> {
        self.heard.note(self.rt, bytes);
        Ok(bytes.len())
    }

    fn flush(&mut self) -> Result<(), SinkFault> {
        Ok(())
    }
}
