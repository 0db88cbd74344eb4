// Disks and a clock that note when each line began.
ghost use Rattle.std.specs.Prelude.{◌≡◌};

use crate::program::Begun;
use disk_model::{Disk, DiskFault, MemDisk};
use io_traits::{Clock, NoMemory};
use scenario_text::Trouble;
use std::alloc::Global;
use std::cell::RefCell;
use std::marker::Model;

/// How many moments each disk has had, and when each line began. Where there is no memory for a note it is left out.
#[derive(Drop)]
pub struct Notes {
    alloc: Global,
    moments: RefCell<Vec<u64>>,
    begun: RefCell<Vec<Begun>>,
}

impl Notes {
    pub fn new(alloc: Global, disks: &[MemDisk]) -> Result<Notes, Trouble> {
        let mut moments = Vec::new(alloc);
        for disk in disks {
            moments.push(disk.moments())?;
        }
        Ok(Notes {
            alloc,
            moments: RefCell::new(moments),
            begun: RefCell::new(Vec::new(alloc)),
        })
    }

    // The disk at this place has one more moment.
    fn count(&self, place: usize) {
        if let Ok(mut moments) = self.moments.try_borrow_mut()
            && let Some(count) = moments.get_mut(place)
        {
            *count = count.saturating_add(1);
        }
    }

    /// A line begins at this time.
    pub fn begin(&self, now: u64) {
        if let Ok(moments) = self.moments.try_borrow()
            && let Ok(moments) = moments.to_vec(self.alloc)
            && let Ok(mut begun) = self.begun.try_borrow_mut()
        {
            let _ = begun.push(Begun { now, moments });
        }
    }

    /// What was noted.
    pub fn into_begun(self) -> Vec<Begun> {
        let Notes { begun, .. } = self;
        begun.into_inner()
    }
}

/// A disk whose moments are counted. In clauses it is the disk below.
#[derive(Drop)]
pub struct Noted<'n, D: Disk> {
    disk: D,
    place: usize,
    notes: &'n Notes,
}

impl<'n, D: Disk> Model for Noted<'n, D> {
    ghost Value = { D };

    ghost view = { λ n. n.disk };
}

impl<'n, D: Disk> Noted<'n, D> {
    /// The disk of this place.
    pub fn new(disk: D, place: usize, notes: &'n Notes) -> Noted<'n, D>
        ensures { result ≡ disk }
    {
        Noted { disk, place, notes }
    }

    pub fn into_disk(self) -> D
        ensures { result ≡ self.entry }
    {
        let Noted { disk, .. } = self;
        disk
    }
}

impl<'n, D: Disk> Disk for Noted<'n, D> {
    ghost view = { λ n. D.view n };

    ghost is_disk = { λ n. D.is_disk n };

    fn len(&self) -> u64 {
        self.disk.len()
    }

    fn read_at(&mut self, place: u64, out: &mut [u8]) -> Result<(), DiskFault> {
        self.disk.read_at(place, out)
    }

    fn write_at(&mut self, place: u64, bytes: &[u8]) -> Result<(), DiskFault> {
        self.notes.count(self.place);
        self.disk.write_at(place, bytes)
    }

    fn sync(&mut self) -> Result<(), DiskFault> {
        let answer = self.disk.sync();
        if answer.is_ok() {
            self.notes.count(self.place);
        }
        answer
    }
}

/// A clock that is read when a line begins. In clauses it is the clock below.
#[derive(Drop)]
pub struct NotedClock<'n, C: Clock> {
    clock: C,
    // It is none in a fork, which notes nothing.
    notes: Option<&'n Notes>,
}

impl<'n, C: Clock> Model for NotedClock<'n, C> {
    ghost Value = { C };

    ghost view = { λ c. c.clock };
}

impl<'n, C: Clock> NotedClock<'n, C> {
    pub fn new(clock: C, notes: &'n Notes) -> NotedClock<'n, C>
        ensures { result ≡ clock }
    {
        NotedClock {
            clock,
            notes: Some(notes),
        }
    }
}

impl<'n, C: Clock> Clock for NotedClock<'n, C> {
    ghost times = { λ c. C.times c };

    fn now_ms(&mut self) -> u64 {
        let now = self.clock.now_ms();
        if let Some(notes) = self.notes {
            notes.begin(now);
        }
        now
    }

    fn fork(&self, alloc: Global) -> Result<Self, NoMemory> {
        Ok(NotedClock {
            clock: self.clock.fork(alloc)?,
            notes: None,
        })
    }
}
