// One line of a terminal that tells how far work is. No clause says what is written to a terminal.
use disk_file::Watch;
use sprig_advice::{Advice, Teller, better};
use std::io::IsTerminal;
use std::sync::Mutex;
use std::sync::atomic::{AtomicBool, Ordering};

// Writes spaces over what a line shows, and goes back to its start.
const CLEARED: &str = "\r                    \r";

// What is told once lines are served.
const READY: &str = "ready: one command a line; quit or Ctrl-D ends the run\n";

// What the line shows.
#[derive(Clone, Copy, PartialEq, Eq, Drop)]
struct Shown {
    what: &'static str,
    percent: u64,
}

/// One line of a terminal, which is written over and cleared at the end. To what is no terminal nothing is written. Threads may share it:
/// what one tells while another writes is passed over.
#[derive(Drop)]
pub struct Progress<E: Eprint + IsTerminal + Drop> {
    to: E,
    is_terminal: bool,
    shown: Mutex<Option<Shown>>,
    begun: AtomicBool,
    greets: AtomicBool,
}

// How many of a hundred parts are done; 0 where there is nothing to do.
fn percent_of(done: u64, whole: u64) -> u64 {
    done.min(whole).saturating_mul(100) / whole.max(1)
}

impl<E: Eprint + IsTerminal + Drop> Progress<E> {
    /// Nothing is told yet.
    pub fn new(to: E) -> Progress<E> {
        let is_terminal = to.is_terminal();
        Progress {
            to,
            is_terminal,
            shown: Mutex::new(None),
            begun: AtomicBool::new(false),
            greets: AtomicBool::new(false),
        }
    }

    /// Shows what is at work, a word of at most 8 letters, and how much of the whole is done. It writes only where the word or the
    /// percentage is another than the line shows.
    pub fn tell(&self, what: &'static str, done: u64, whole: u64) {
        if !self.is_terminal {
            return;
        }
        let Some(mut shown) = self.shown.try_lock() else {
            return;
        };
        let percent = percent_of(done, whole);
        let now = Some(Shown { what, percent });
        if *shown != now {
            *shown = now;
            let _ = self.to.eprint(format_args!("\r{what:<8} {percent:>3} %"));
        }
    }

    /// Clears the line, where it shows something.
    pub fn end(&self) {
        let Some(mut shown) = self.shown.try_lock() else {
            return;
        };
        if shown.take().is_some() {
            let _ = self.to.eprint(CLEARED);
        }
    }

    /// What is asked for is served from here on, so the calls of a watched disk are told no more.
    pub fn begin(&self) {
        if !self.has_begun() {
            self.begun.store(true, Ordering::SeqCst);
        }
    }

    /// Whether it has begun.
    pub fn has_begun(&self) -> bool {
        self.begun.load(Ordering::SeqCst)
    }

    /// A person types the lines: `ready` is to tell when they are served.
    pub fn greet(&self) {
        self.greets.store(self.is_terminal, Ordering::SeqCst);
    }

    /// The devices are started, and lines are waited for. The first time that is told, where it was asked for.
    pub fn ready(&self) {
        if self.greets.load(Ordering::SeqCst) {
            self.greets.store(false, Ordering::SeqCst);
            let _ = self.to.eprint(READY);
        }
    }

    /// The devices are started, and links are served: tells these words on a line of their own, also to what is no terminal.
    pub fn announce(&self, words: &str) {
        self.end();
        self.begin();
        let _ = self.to.eprint(format_args!("{words}\n"));
    }

    /// What tells how far a new file is.
    pub fn making(&self) -> Making<'_, E> {
        Making { progress: self }
    }
}

// A terminal is told where another number of sprigs would take a third less memory.
impl<E: Eprint + IsTerminal + Drop> Teller for Progress<E> {
    fn started(&self, entries: u64, sprigs: u32) {
        if !self.is_terminal {
            return;
        }
        let Some(
            Advice {
                sprigs: other,
                bytes,
                fewer,
            },
        ) = better(entries, sprigs)
        else {
            return;
        };
        self.end();
        let _ = self.to.eprint(format_args!(
            "hint: with --sprigs {sprigs} the index takes about {bytes} bytes for each of {entries} records; with --sprigs {other} it would take about {fewer}\n"
        ));
    }
}

/// Tells how far a new file is.
#[derive(Drop)]
pub struct Making<'a, E: Eprint + IsTerminal + Drop> {
    progress: &'a Progress<E>,
}

impl<'a, E: Eprint + IsTerminal + Drop> Watch for Making<'a, E> {
    fn tell(&mut self, done: u64, whole: u64) {
        self.progress.tell("making", done, whole);
    }

    fn end(&mut self) {
        self.progress.end();
    }
}
