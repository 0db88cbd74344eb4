// What a worker of a device does.
use disk_model::Disk;
use live_chores::{DefragChore, ExpireChore, FlushChore, RaidChore};
use live_node::LivePass;
use node_workers::{Chore, Did};
use std::alloc::Global;
use std::sync::Wait;

/// The chore of a worker: one of the four of each device.
#[derive(Drop)]
pub enum LiveChore<'a, R, D: Disk> {
    Flush(FlushChore<'a, R, D>),
    Defrag(DefragChore<'a, R, D>),
    Expire(ExpireChore<'a, R, D>),
    Raid(RaidChore<'a, R, D>),
}

impl<'a, R, D: Disk> LiveChore<'a, R, D> {
    ghost use Rattle.std.specs.Prelude.{◌≡◌};
    ghost use Rattle.live_node.specs.Lives.{IsPassAt};
    ghost use Rattle.live_chores.specs.Stations.{live_at, pass_at};
    ghost use Rattle.live_crew.specs.Chores.{station_of};

    /// Gives its pass back, to be joined.
    pub fn into_pass(self) -> LivePass<D>
        ensures pass { result ≡ pass_at (station_of self.entry) }
        ensures at { IsPassAt (live_at (station_of self.entry)) result }
    {
        match self {
            LiveChore::Flush(chore) => chore.into_pass(),
            LiveChore::Defrag(chore) => chore.into_pass(),
            LiveChore::Expire(chore) => chore.into_pass(),
            LiveChore::Raid(chore) => chore.into_pass(),
        }
    }
}

impl<'a, R: Wait, D: Disk> Chore for LiveChore<'a, R, D> {
    ghost use Rattle.live_crew.specs.Chores.{TurnsAny};

    ghost turns = { TurnsAny D.view };

    fn turn(&mut self, alloc: Global, now: u64) -> Did {
        match self {
            LiveChore::Flush(chore) => chore.turn(alloc, now),
            LiveChore::Defrag(chore) => chore.turn(alloc, now),
            LiveChore::Expire(chore) => chore.turn(alloc, now),
            LiveChore::Raid(chore) => chore.turn(alloc, now),
        }
    }
}
