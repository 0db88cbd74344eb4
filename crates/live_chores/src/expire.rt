// The expirer.
ghost use Rattle.std.specs.Prelude.{◌≡◌, ◌<◌, ◌≤◌, ◌^◌};
ghost use Rattle.model_device.specs.Steps.{part_total};
ghost use Rattle.live_node.specs.Opening.{setup_at};
ghost use Rattle.live_node.specs.Lives.{opening_at, IsPassAt};

use crate::station::Station;
use disk_model::Disk;
use live_node::{Live, LivePass};
use node_workers::{Chore, Did};
use shard_core::WriteRefusal;
use std::alloc::Global;
use std::sync::Wait;

// In how many turns an expirer that finds nothing comes round, at most.
const ROUND: u32 = 4096;

/// Removes what is expired, part after part. In each turn it looks at its part and the next ones, so many at most that it comes round in 4,096
/// turns, and removes the first entry that it finds expired. Where that is refused it goes on with the next part, so that no entry holds up those
/// of other parts. Behind the last part comes the first.
#[derive(Drop)]
pub struct ExpireChore<'a, R, D: Disk> {
    station: Station<'a, R, D>,
    part: u32,
    ghost there: { part < part_total (setup_at (opening_at station.live.now)) },
}

impl<'a, R, D: Disk> ExpireChore<'a, R, D> {
    ghost use Rattle.live_chores.specs.Stations.{live_at, pass_at, opened_at};
    ghost use Rattle.live_chores.specs.Expires.{expirer, looks_at, part_behind, most_looks};

    /// An expirer of a device, with a pass of its own. It looks at the first part first.
    pub fn new(rt: &'a R, live: &'a Live<D>, pass: LivePass<D>) -> ExpireChore<'a, R, D>
        requires pass { IsPassAt live.now pass }
        ensures live { live_at (expirer result) ≡ live.now }
        ensures pass { pass_at (expirer result) ≡ pass }
        ensures part { looks_at result ≡ 0 }
    {
        // A device has a first part.
        let _parts = live.parts();
        ExpireChore {
            station: Station { rt, live, pass },
            part: 0,
        }
    }

    /// Gives its pass back, to be joined.
    pub fn into_pass(self) -> LivePass<D>
        ensures pass { result ≡ pass_at (expirer self.entry) }
        ensures at { IsPassAt (live_at (expirer self.entry)) result }
    {
        self.station.pass
    }

    // How many parts are looked at in one turn, at most.
    fn looks(&self) -> u32
        ensures looks { result ≡ most_looks (opened_at (expirer self.now)) }
    {
        self.station.live.parts() / ROUND + 1
    }

    // The part behind the one that it looks at.
    fn next_part(&self) -> u32
        ensures part { result ≡ part_behind (opening_at (live_at (expirer self.now))) (looks_at self.now) 1 }
        ensures there { result < part_total (setup_at (opening_at (live_at (expirer self.now)))) }
    {
        let parts = self.station.live.parts();
        let next = self.part + 1;
        if next < parts { next } else { 0 }
    }
}

impl<'a, R: Wait, D: Disk> ExpireChore<'a, R, D> {
    ghost use Rattle.live_chores.specs.Stations.{opened_at, known_at, Stays};
    ghost use Rattle.live_chores.specs.Expires.{expirer, looks_at, Looks};

    // Looks at its part, and removes the first entry that is expired there. Where there is none it goes on to the next part, and nothing is
    // answered; behind a refusal it goes on too.
    fn look(&mut self, alloc: Global, now: u64) -> Option<Did>
        requires now { now ≤ 2 ^ 61 }
        ensures stays { Stays (expirer self.old) (expirer self.new) }
        ensures looks { Looks D.view (opened_at (expirer self.old)) (known_at (expirer self.old)) (known_at (expirer self.new)) now (looks_at self.old) (looks_at self.new) result }
    {
        let at = &mut self.station;
        match at
            .live
            .expire_next(alloc, at.rt, &mut at.pass, self.part, now)
        {
            Ok(true) => Some(Did::Worked),
            Ok(false) => {
                self.part = self.next_part();
                None
            }
            Err(WriteRefusal::Memory) => {
                self.part = self.next_part();
                Some(Did::Memory)
            }
            Err(_) => {
                self.part = self.next_part();
                Some(Did::Refused)
            }
        }
    }
}

impl<'a, R: Wait, D: Disk> Chore for ExpireChore<'a, R, D> {
    ghost use Rattle.live_chores.specs.Expires.{expirer, looks_at, ExpiresOnce};

    ghost turns = { λ old now did new. ExpiresOnce D.view (expirer old) (looks_at old) now did (expirer new) (looks_at new) };

    fn turn(&mut self, alloc: Global, now: u64) -> Did {
        let looks = self.looks();
        for _look in 0..looks {
            if let Some(did) = self.look(alloc, now) {
                return did;
            }
        }
        Did::Idle
    }
}
