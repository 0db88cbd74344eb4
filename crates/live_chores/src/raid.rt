// The tomb raider.
ghost use Rattle.std.specs.Prelude.{◌≡◌, None};
ghost use Rattle.live_node.specs.Lives.{IsPassAt};

use crate::station::Station;
use disk_model::Disk;
use live_node::{Live, LivePass};
use node_workers::{Chore, Did};
use shard_core::{Raid, RaidDid, RaidRefusal};
use std::alloc::Global;
use std::sync::Wait;

/// Raids tombs, one turn of a raid in each of its own. Behind a raid, and behind one that was refused, it rests for the device's raid age; and
/// it begins none where the device has neither a tombstone nor a covered record.
#[derive(Drop)]
pub struct RaidChore<'a, R, D: Disk> {
    station: Station<'a, R, D>,
    raid: Option<Raid>,
    // When the last raid ended, in milliseconds.
    ended: Option<u64>,
}

impl<'a, R, D: Disk> RaidChore<'a, R, D> {
    ghost use Rattle.live_chores.specs.Stations.{live_at, pass_at};
    ghost use Rattle.live_chores.specs.Raids.{raider, rest_at, raiding_of, is_resting};

    /// A raider of a device, with a pass of its own. It has no raid, and doesn't rest.
    pub fn new(rt: &'a R, live: &'a Live<D>, pass: LivePass<D>) -> RaidChore<'a, R, D>
        requires pass { IsPassAt live.now pass }
        ensures live { live_at (raider result) ≡ live.now }
        ensures pass { pass_at (raider result) ≡ pass }
        ensures none { raiding_of result ≡ record { raid = None; ended = None } }
    {
        RaidChore {
            station: Station { rt, live, pass },
            raid: None,
            ended: None,
        }
    }

    /// Gives its pass back, to be joined.
    pub fn into_pass(self) -> LivePass<D>
        ensures pass { result ≡ pass_at (raider self.entry) }
        ensures at { IsPassAt (live_at (raider self.entry)) result }
    {
        self.station.pass
    }

    // Whether it rests behind a raid.
    fn is_resting(&self, now: u64) -> bool
        ensures { result ≡ is_resting (rest_at (raider self.now)) (raiding_of self.now).ended now }
    {
        match self.ended {
            Some(ended) => now.saturating_sub(ended) < self.station.live.raid_age() * 1000,
            None => false,
        }
    }
}

impl<'a, R: Wait, D: Disk> RaidChore<'a, R, D> {
    ghost use Rattle.live_chores.specs.Stations.{opened_at, known_at, Stays};
    ghost use Rattle.live_chores.specs.Raids.{raider, rest_at, raiding_of, StartsRaid, StepsRaid};

    // A raid is begun, where it doesn't rest and there is something that a raid may take.
    fn begin(&mut self, now: u64) -> Did
        requires none { (raiding_of self.old).raid ≡ None }
        ensures stays { Stays (raider self.old) (raider self.new) }
        ensures starts { StartsRaid D.view (opened_at (raider self.old)) (known_at (raider self.old)) (known_at (raider self.new)) (rest_at (raider self.old)) now (raiding_of self.old) result (raiding_of self.new) }
    {
        if self.is_resting(now) {
            return Did::Idle;
        }
        let at = &mut self.station;
        let counts = at.live.counts(at.rt, &mut at.pass);
        if counts.tombstones == 0 && counts.covered == 0 {
            return Did::Idle;
        }
        self.raid = at.live.raid_begin(at.rt, &mut at.pass);
        match &self.raid {
            Some(_) => Did::Worked,
            None => Did::Idle,
        }
    }

    // The next turn of a raid is taken. Behind its end, and behind a refusal, it has none.
    fn step(&mut self, alloc: Global, mut raid: Raid, now: u64) -> Did
        requires none { (raiding_of self.old).raid ≡ None }
        ensures stays { Stays (raider self.old) (raider self.new) }
        ensures steps { StepsRaid D.view (opened_at (raider self.old)) (known_at (raider self.old)) (known_at (raider self.new)) (rest_at (raider self.old)) now (raiding_of self.old) result (raiding_of self.new) raid }
    {
        let at = &mut self.station;
        let did = match at
            .live
            .raid_step(alloc, at.rt, &mut at.pass, &mut raid, now)
        {
            Ok(RaidDid::Done) => Did::Idle,
            Ok(_) => {
                self.raid = Some(raid);
                return Did::Worked;
            }
            Err(RaidRefusal::Memory) => Did::Memory,
            Err(_) => Did::Refused,
        };
        self.ended = Some(now);
        did
    }
}

impl<'a, R: Wait, D: Disk> Chore for RaidChore<'a, R, D> {
    ghost use Rattle.live_chores.specs.Raids.{raider, raiding_of, RaidsOnce};

    ghost turns = { λ old now did new. RaidsOnce D.view (raider old) (raiding_of old) now did (raider new) (raiding_of new) };

    fn turn(&mut self, alloc: Global, now: u64) -> Did {
        match self.raid.take() {
            Some(raid) => self.step(alloc, raid, now),
            None => self.begin(now),
        }
    }
}
