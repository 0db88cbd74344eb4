// A disk whose calls are told.
ghost use Rattle.std.specs.Prelude.{◌≡◌};

use crate::Progress;
use disk_model::{Disk, DiskFault};
use std::io::IsTerminal;
use std::marker::Model;

// A read of no more bytes is of a header or a gate, and isn't told.
const SHORT_BYTES: usize = 4_096;

/// A disk that tells how far its reads and writes are, each by the place at which it ends. In clauses it is the disk below.
#[derive(Drop)]
pub struct Watched<'a, D: Disk, E: Eprint + IsTerminal + Drop> {
    disk: D,
    progress: &'a Progress<E>,
}

impl<'a, D: Disk, E: Eprint + IsTerminal + Drop> Model for Watched<'a, D, E> {
    ghost Value = { D };

    ghost view = { λ w. w.disk };
}

impl<'a, D: Disk, E: Eprint + IsTerminal + Drop> Watched<'a, D, E> {
    /// The disk, which tells its calls until what is asked for is served.
    pub fn new(disk: D, progress: &'a Progress<E>) -> Watched<'a, D, E>
        ensures { result ≡ disk }
    {
        Watched { disk, progress }
    }

    /// The disk below.
    pub fn into_disk(self) -> D
        ensures { result ≡ self.entry }
    {
        let Watched { disk, .. } = self;
        disk
    }

    // Tells a call that went well over so many bytes from a place on.
    fn tell(&self, what: &'static str, place: u64, count: usize) {
        if !self.progress.has_begun() {
            let done = place.saturating_add(count as u64);
            self.progress.tell(what, done, self.disk.len());
        }
    }
}

impl<'a, D: Disk, E: Eprint + IsTerminal + Drop> Disk for Watched<'a, D, E> {
    ghost view = { λ d. D.view d };

    ghost is_disk = { λ d. D.is_disk d };

    fn len(&self) -> u64 {
        self.disk.len()
    }

    fn read_at(&mut self, place: u64, out: &mut [u8]) -> Result<(), DiskFault> {
        let answer = self.disk.read_at(place, out);
        if answer.is_ok() && out.len() > SHORT_BYTES {
            self.tell("reading", place, out.len());
        }
        answer
    }

    fn write_at(&mut self, place: u64, bytes: &[u8]) -> Result<(), DiskFault> {
        let answer = self.disk.write_at(place, bytes);
        if answer.is_ok() {
            self.tell("writing", place, bytes.len());
        }
        answer
    }

    fn sync(&mut self) -> Result<(), DiskFault> {
        self.disk.sync()
    }
}
