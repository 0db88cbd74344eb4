// The flusher.
ghost use Rattle.std.specs.Prelude.{◌≡◌};
ghost use Rattle.live_node.specs.Lives.{IsPassAt};

use crate::station::Station;
use disk_model::Disk;
use live_node::{Live, LivePass};
use node_workers::{Chore, Did};
use std::alloc::Global;
use std::sync::Wait;

/// Flushes buffers. In each turn it seals what is due where few blocks are free, and flushes the sealed buffer of the lowest number.
#[derive(Drop)]
pub struct FlushChore<'a, R, D: Disk> {
    station: Station<'a, R, D>,
}

impl<'a, R, D: Disk> FlushChore<'a, R, D> {
    ghost use Rattle.live_chores.specs.Stations.{live_at, pass_at};
    ghost use Rattle.live_chores.specs.Flushes.{flusher};

    /// A flusher of a device, with a pass of its own.
    pub fn new(rt: &'a R, live: &'a Live<D>, pass: LivePass<D>) -> FlushChore<'a, R, D>
        requires pass { IsPassAt live.now pass }
        ensures live { live_at (flusher result) ≡ live.now }
        ensures pass { pass_at (flusher result) ≡ pass }
    {
        FlushChore {
            station: Station { rt, live, pass },
        }
    }

    /// Gives its pass back, to be joined.
    pub fn into_pass(self) -> LivePass<D>
        ensures pass { result ≡ pass_at (flusher self.entry) }
        ensures at { IsPassAt (live_at (flusher self.entry)) result }
    {
        self.station.pass
    }
}

impl<'a, R: Wait, D: Disk> Chore for FlushChore<'a, R, D> {
    ghost use Rattle.live_chores.specs.Flushes.{flusher, FlushesOnce};

    ghost turns = { λ old now did new. FlushesOnce D.view (flusher old) did (flusher new) };

    fn turn(&mut self, _alloc: Global, _now: u64) -> Did {
        let at = &mut self.station;
        match at.live.flush_next(at.rt, &mut at.pass) {
            Ok(0) => Did::Idle,
            Ok(_) => Did::Worked,
            Err(_) => Did::Refused,
        }
    }
}
