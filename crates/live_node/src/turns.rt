// How a pass takes what a call needs, and gives it back.
ghost use Rattle.std.specs.Prelude.{◌≡◌, ℕ, ◌<◌, [], true, false, Some, None};
ghost use Rattle.rec_format.specs.declared.version.Digest.{Digest};
ghost use Rattle.model_device.specs.Device.{part_of};
ghost use Rattle.law_sprig.specs.Parts.{NamesOwn};
ghost use Rattle.sprig_tree.specs.State.{SprigState};
ghost use Rattle.turn_table.specs.Passes.{view, found_out, held_part, KeepsNumbers};
ghost use Rattle.live_node.specs.Opening.{IsOwn, setup_at};
ghost use Rattle.live_node.specs.Fits.{HubFits, PartFits, Is};
ghost use Rattle.live_node.specs.Calls.{seen_by, AnswersBy, IsRight};
ghost use Rattle.live_node.specs.Lives.{opening_at, shelf_slot, IsOver, Holds, IsPassAt};

use crate::hub::Hub;
use crate::live::Live;
use crate::machine::LivePass;
use crate::steps::{HubStep, Step};
use arena_sprig::Sprig;
use disk_model::Disk;
use partition_map::part_number;
use rec_format::Digest;
use std::alloc::Global;
use std::sync::Wait;

impl<D: Disk> Live<D> {
    // The part of a digest of the device.
    pub(crate) fn part_of(&self, digest: &Digest) -> u32
        requires own { IsOwn (opening_at self.now) digest.now }
        ensures part { result ≡ part_of (setup_at (opening_at self.now)) digest.now }
        ensures there { result < shelf_slot self.now }
    {
        part_number(digest, self.set.sprigs, self.geometry.devices)
    }

    // What holds of each device under its table. It does nothing.
    pub(crate) fn known(&self)
        ensures { IsOver self.now }
    {
        let _ = &self.table;
    }

    // Takes the sprig of a part, and waits as long as it is out.
    pub(crate) fn take_part<R: Wait>(&self, rt: &R, pass: &mut LivePass<D>, part: u32) -> Sprig
        requires pass { IsPassAt self.now pass.old }
        requires part { part < shelf_slot self.now }
        ensures pass { Holds self.now (Some part) false pass.new }
        ensures numbers { KeepsNumbers pass.old pass.new }
        ensures right { IsRight D.view (opening_at self.now) (view pass.old) (view pass.new) [] }
        ensures fits { PartFits (opening_at self.now) (seen_by (view pass.new)) part result }
    {
        self.table.take_part(rt, pass, part)
    }

    // Takes the hub, and waits as long as it is out. What fitted as the part that the pass holds fits still.
    pub(crate) fn take_hub<R: Wait>(&self, rt: &R, pass: &mut LivePass<D>) -> Hub<D>
        requires pass { Holds self.now (held_part pass.old) false pass.old }
        ensures pass { Holds self.now (held_part pass.old) true pass.new }
        ensures numbers { KeepsNumbers pass.old pass.new }
        ensures right { IsRight D.view (opening_at self.now) (view pass.old) (view pass.new) [] }
        ensures fits { HubFits D.view (opening_at self.now) (seen_by (view pass.new)) result.shelf.value result.tally.value }
        ensures still { (k : ℕ) (p : SprigState) → held_part pass.old ≡ Some k → PartFits (opening_at self.now) (seen_by (view pass.old)) k p → PartFits (opening_at self.now) (seen_by (view pass.new)) k p }
    {
        self.table.take_hub(rt, pass)
    }

    // Gives the hub back with no event.
    pub(crate) fn give_back(&self, pass: &mut LivePass<D>, hub: Hub<D>)
        requires pass { Holds self.now None true pass.old }
        requires fits { HubFits D.view (opening_at self.now) (seen_by (view pass.old)) hub.shelf.value hub.tally.value }
        ensures pass { IsPassAt self.now pass.new }
        ensures numbers { KeepsNumbers pass.old pass.new }
        ensures right { IsRight D.view (opening_at self.now) (view pass.old) (view pass.new) [] }
        ensures seen { seen_by (view pass.new) ≡ seen_by (view pass.old) }
    {
        self.table.give_hub_back(pass, hub);
    }

    // Gives back the sprig of the part that the pass holds.
    pub(crate) fn give_part(&self, pass: &mut LivePass<D>, sprig: Sprig, part: u32)
        requires pass { Holds self.now (Some part) false pass.old }
        requires fits { PartFits (opening_at self.now) (seen_by (view pass.old)) part sprig }
        ensures pass { IsPassAt self.now pass.new }
        ensures numbers { KeepsNumbers pass.old pass.new }
        ensures found { found_out pass.new ≡ found_out pass.old }
        ensures right { IsRight D.view (opening_at self.now) (view pass.old) (view pass.new) [] }
        ensures seen { seen_by (view pass.new) ≡ seen_by (view pass.old) }
    {
        let _ = part;
        self.table.give_part(pass, sprig);
    }

    // A call over the sprig of its part and the shelf: it is one event. What it reads of a payload takes the room.
    pub(crate) fn turn<R: Wait, C: Step<D>>(
        &self,
        alloc: Global,
        room: &mut Vec<u8>,
        rt: &R,
        pass: &mut LivePass<D>,
        part: u32,
        call: &C,
    ) -> C::Answer
        requires pass { IsPassAt self.now pass.old }
        requires there { part < shelf_slot self.now }
        requires asks { C.asks call.now }
        requires own { NamesOwn (setup_at (opening_at self.now)) (C.call call.now) }
        requires part { part ≡ C.part call.now (setup_at (opening_at self.now)) }
        ensures pass { IsPassAt self.now pass.new }
        ensures numbers { KeepsNumbers pass.old pass.new }
        ensures once { AnswersBy D.view (opening_at self.now) (view pass.old) (view pass.new) (Is (C.call call.now) (C.answers call.now result)) }
    {
        let mut sprig = self.take_part(rt, pass, part);
        let hub = self.take_hub(rt, pass);
        let answer = self.enter(alloc, room, pass, hub, &mut sprig, part, call);
        self.give_part(pass, sprig, part);
        answer
    }

    // A call over the shelf alone: it is one event.
    pub(crate) fn hub_turn<R: Wait, C: HubStep<D>>(
        &self,
        rt: &R,
        pass: &mut LivePass<D>,
        call: &C,
    ) -> C::Answer
        requires pass { IsPassAt self.now pass.old }
        ensures pass { IsPassAt self.now pass.new }
        ensures numbers { KeepsNumbers pass.old pass.new }
        ensures once { AnswersBy D.view (opening_at self.now) (view pass.old) (view pass.new) (Is (C.call call.now) (C.answers call.now result)) }
    {
        let hub = self.take_hub(rt, pass);
        self.enter_alone(pass, hub, call)
    }
}
