// How a raid begins, and takes its turns.
ghost use Rattle.std.specs.Prelude.{◌≡◌, ◌<◌, ℕ, Some};
ghost use Rattle.model_device.specs.Steps.{part_total};
ghost use Rattle.model_device.specs.Events.{begin_call, raid_numbered};
ghost use Rattle.model_device.specs.Passes.{turn_part};
ghost use Rattle.raid_book.specs.Turns.{turn_of};
ghost use Rattle.shard_raid.specs.Raids.{number_of};
ghost use Rattle.turn_table.specs.Passes.{view, KeepsNumbers};
ghost use Rattle.live_node.specs.Opening.{setup_at};
ghost use Rattle.live_node.specs.Calls.{AnswersOnce};
ghost use Rattle.live_node.specs.Lives.{opening_at, IsPassAt};
ghost use Rattle.live_node.specs.Raids.{TakesRaidTurn};

use crate::live::Live;
use crate::machine::LivePass;
use crate::steps::{EventCall, HubStep};
use block_shelf::Shelf;
use disk_model::Disk;
use raid_book::RaidNext;
use shard_core::{Raid, RaidDid, RaidRefusal};
use shard_raid::{part_turn, raid_begin, shelf_turn};
use std::alloc::Global;
use std::sync::Wait;

#[derive(Drop)]
pub(crate) struct Begin;

impl EventCall for Begin {
    ghost use Rattle.std.specs.Prelude.{◌≡◌};
    ghost use Rattle.model_device.specs.Events.{begin_call, raid_numbered};
    ghost use Rattle.shard_raid.specs.Raids.{number_of};

    type Answer = Option<Raid>;

    ghost call = { λ c. begin_call };

    ghost answers = { λ c result answer. answer ≡ raid_numbered (number_of result) };
}

impl<D: Disk> HubStep<D> for Begin {
    ghost use Rattle.std.specs.Prelude.{refl};

    fn step(&self, shelf: &mut Shelf<D>) -> Option<Raid> {
        raid_begin(shelf)
    }

    ghost named = { λ c setup. refl };

    ghost own = { λ c setup. tt };
}

// The next turn of a raid.
#[derive(Drop)]
struct Turn {
    number: u64,
    next: RaidNext,
    now: u64,
}

impl EventCall for Turn {
    ghost use Rattle.std.specs.Prelude.{◌≡◌};
    ghost use Rattle.model_device.specs.Events.{turn_call};
    ghost use Rattle.raid_book.specs.Turns.{turn_of};
    ghost use Rattle.shard_raid.specs.Turns.{turn_answer};

    type Answer = Result<RaidDid, RaidRefusal>;

    ghost call = { λ c. turn_call c.number (turn_of c.next) c.now };

    ghost answers = { λ c result answer. answer ≡ turn_answer result };
}

impl<D: Disk> Live<D> {
    /// Begins a raid, as `Shard::raid_begin` does. It is one event of the device; where none begins nothing changes.
    pub fn raid_begin<R: Wait>(&self, rt: &R, pass: &mut LivePass<D>) -> Option<Raid>
        requires pass { IsPassAt self.now pass.old }
        ensures pass { IsPassAt self.now pass.new }
        ensures numbers { KeepsNumbers pass.old pass.new }
        ensures once { AnswersOnce D.view (opening_at self.now) (view pass.old) (view pass.new) begin_call (raid_numbered (number_of result)) }
    {
        self.hub_turn(rt, pass, &Begin)
    }

    /// Takes the next turn of a raid, as `Shard::raid_step` does, and answers what it did. `now` is in milliseconds. It is one event of the
    /// device. It takes the sprig of the turn's part, if it is at one that the device has, and then the shelf.
    ///
    /// # Errors
    ///
    /// Another raid has begun since, or it was given up, or somebody else took its turn: it is stale, changes nothing, and the handle stays.
    /// After any other refusal, which only the scan of a block has, the raid is given up, with its marks and what it found, and nothing else
    /// has changed.
    pub fn raid_step<R: Wait>(
        &self,
        alloc: Global,
        rt: &R,
        pass: &mut LivePass<D>,
        raid: &mut Raid,
        now: u64,
    ) -> Result<RaidDid, RaidRefusal>
        requires pass { IsPassAt self.now pass.old }
        ensures pass { IsPassAt self.now pass.new }
        ensures numbers { KeepsNumbers pass.old pass.new }
        ensures turn { TakesRaidTurn D.view (opening_at self.now) (view pass.old) (view pass.new) now raid.old raid.new result }
    {
        match raid.part() {
            Some(part) if part < self.parts() => self.turn_at(rt, pass, part, raid, now),
            _ => self.turn_aside(alloc, rt, pass, raid, now),
        }
    }
}

impl<D: Disk> Live<D> {
    // A turn at a part: over its sprig and the shelf.
    fn turn_at<R: Wait>(
        &self,
        rt: &R,
        pass: &mut LivePass<D>,
        part: u32,
        raid: &mut Raid,
        now: u64,
    ) -> Result<RaidDid, RaidRefusal>
        requires pass { IsPassAt self.now pass.old }
        requires part { turn_part (turn_of raid.old.next) ≡ Some part }
        requires there { part < part_total (setup_at (opening_at self.now)) }
        ensures pass { IsPassAt self.now pass.new }
        ensures numbers { KeepsNumbers pass.old pass.new }
        ensures turn { TakesRaidTurn D.view (opening_at self.now) (view pass.old) (view pass.new) now raid.old raid.new result }
    {
        self.known();
        let turn = next_turn(raid, now);
        let mut sprig = self.take_part(rt, pass, part);
        let mut hub = self.take_hub(rt, pass);
        let before = sprig.tally();
        let answer = part_turn(&mut sprig, &mut *hub.shelf, raid, self.set.raid_age, now);
        *hub.tally = hub.tally.minus(before).plus(sprig.tally());
        self.give_step(pass, hub, &sprig, part, &turn, &answer);
        self.give_part(pass, sprig, part);
        answer
    }

    // A turn at no part of the device: over the shelf alone.
    fn turn_aside<R: Wait>(
        &self,
        alloc: Global,
        rt: &R,
        pass: &mut LivePass<D>,
        raid: &mut Raid,
        now: u64,
    ) -> Result<RaidDid, RaidRefusal>
        requires pass { IsPassAt self.now pass.old }
        requires aside { (part : ℕ) → turn_part (turn_of raid.old.next) ≡ Some part → part < part_total (setup_at (opening_at self.now)) → ⊥ }
        ensures pass { IsPassAt self.now pass.new }
        ensures numbers { KeepsNumbers pass.old pass.new }
        ensures turn { TakesRaidTurn D.view (opening_at self.now) (view pass.old) (view pass.new) now raid.old raid.new result }
    {
        self.known();
        let turn = next_turn(raid, now);
        let mut hub = self.take_hub(rt, pass);
        // By its book's shape the turn that is next is one at a part of the device, if it is at a part.
        let shelf = &mut *hub.shelf;
        let _next = shelf.raid().next();
        let answer = shelf_turn(alloc, shelf, raid);
        self.give_alone(pass, hub, &turn, &answer);
        answer
    }
}

// The next turn of a raid, as an event has it.
fn next_turn(raid: &Raid, now: u64) -> Turn
    ensures { result ≡ record { number = raid.now.number; next = raid.now.next; now = now } }
{
    Turn {
        number: raid.number(),
        next: raid.next(),
        now,
    }
}
