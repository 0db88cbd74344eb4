// How a call's step is entered into the list of the device's events.
ghost use Rattle.std.specs.Prelude.{◌≡◌, true, false, Some, None};
ghost use Rattle.law_sprig.specs.Parts.{NamesOwn};
ghost use Rattle.turn_table.specs.Passes.{view, found_out, KeepsNumbers};
ghost use Rattle.live_node.specs.Opening.{setup_at};
ghost use Rattle.live_node.specs.Fits.{PartEvent, HubFits, PartFits, Is, StepFits, HubStepFits};
ghost use Rattle.live_node.specs.Calls.{seen_by, AnswersBy};
ghost use Rattle.live_node.specs.Lives.{opening_at, Holds, IsPassAt};

use crate::hub::Hub;
use crate::live::Live;
use crate::machine::LivePass;
use crate::noted::{HubNotes, HubStepped, StepNotes, Stepped};
use crate::steps::{EventCall, HubStep, Step};
use arena_sprig::Sprig;
use disk_model::Disk;
use std::alloc::Global;
use turn_table::Noted;

impl<D: Disk> Live<D> {
    // Takes the step of a call over the hub and the sprig of its part, and gives the hub back with its event. The pass keeps the part.
    pub(crate) fn enter<C: Step<D>>(
        &self,
        alloc: Global,
        room: &mut Vec<u8>,
        pass: &mut LivePass<D>,
        mut hub: Hub<D>,
        sprig: &mut Sprig,
        part: u32,
        call: &C,
    ) -> C::Answer
        requires pass { Holds self.now (Some part) true pass.old }
        requires asks { C.asks call.now }
        requires own { NamesOwn (setup_at (opening_at self.now)) (C.call call.now) }
        requires part { part ≡ C.part call.now (setup_at (opening_at self.now)) }
        requires hub { HubFits D.view (opening_at self.now) (seen_by (view pass.old)) hub.shelf.value hub.tally.value }
        requires sprig { PartFits (opening_at self.now) (seen_by (view pass.old)) part sprig.old }
        ensures pass { Holds self.now (Some part) false pass.new }
        ensures numbers { KeepsNumbers pass.old pass.new }
        ensures found { found_out pass.new ≡ found_out pass.old }
        ensures once { (by : AnswersBy D.view (opening_at self.now) (view pass.old) (view pass.new) (Is (C.call call.now) (C.answers call.now result))) × (by.past ≡ seen_by (view pass.old)) }
        ensures sprig { PartFits (opening_at self.now) (seen_by (view pass.new)) part sprig.new }
    {
        let before = sprig.tally();
        let answer = call.step(alloc, room, sprig, &mut *hub.shelf, &self.set);
        *hub.tally = hub.tally.minus(before).plus(sprig.tally());
        self.give_step(pass, hub, sprig, part, call, &answer);
        answer
    }

    // Gives the hub back with the event of a step. The pass keeps the part, whose sprig is this.
    pub(crate) fn give_step<C: EventCall>(
        &self,
        pass: &mut LivePass<D>,
        hub: Hub<D>,
        sprig: &Sprig,
        part: u32,
        call: &C,
        answer: &C::Answer,
    )
        requires pass { Holds self.now (Some part) true pass.old }
        requires made { (e : PartEvent) × StepFits D.view (opening_at self.now) (seen_by (view pass.old)) (Is (C.call call.now) (C.answers call.now answer.now)) part hub.shelf.value hub.tally.value sprig.now e }
        ensures pass { Holds self.now (Some part) false pass.new }
        ensures numbers { KeepsNumbers pass.old pass.new }
        ensures found { found_out pass.new ≡ found_out pass.old }
        ensures once { (by : AnswersBy D.view (opening_at self.now) (view pass.old) (view pass.new) (Is (C.call call.now) (C.answers call.now answer.now))) × (by.past ≡ seen_by (view pass.old)) }
        ensures hub { HubFits D.view (opening_at self.now) (seen_by (view pass.new)) hub.shelf.value hub.tally.value }
        ensures sprig { PartFits (opening_at self.now) (seen_by (view pass.new)) part sprig.now }
    {
        let event = Noted::about::<Stepped<D, C, C::Answer>, StepNotes<C>>(&Stepped {
            pass: &*pass,
            hub: &hub,
            sprig,
            part,
            call,
            answer,
        });
        self.table.give_hub(pass, hub, event);
    }

    // Takes the step of a call over the hub alone, and gives the hub back with its event.
    pub(crate) fn enter_alone<C: HubStep<D>>(
        &self,
        pass: &mut LivePass<D>,
        mut hub: Hub<D>,
        call: &C,
    ) -> C::Answer
        requires pass { Holds self.now None true pass.old }
        requires hub { HubFits D.view (opening_at self.now) (seen_by (view pass.old)) hub.shelf.value hub.tally.value }
        ensures pass { IsPassAt self.now pass.new }
        ensures numbers { KeepsNumbers pass.old pass.new }
        ensures once { AnswersBy D.view (opening_at self.now) (view pass.old) (view pass.new) (Is (C.call call.now) (C.answers call.now result)) }
    {
        self.known();
        let answer = call.step(&mut *hub.shelf);
        self.give_alone(pass, hub, call, &answer);
        answer
    }

    // Gives the hub back with the event of a step over it alone.
    pub(crate) fn give_alone<C: EventCall>(
        &self,
        pass: &mut LivePass<D>,
        hub: Hub<D>,
        call: &C,
        answer: &C::Answer,
    )
        requires pass { Holds self.now None true pass.old }
        requires made { (e : PartEvent) × HubStepFits D.view (opening_at self.now) (seen_by (view pass.old)) (Is (C.call call.now) (C.answers call.now answer.now)) hub.shelf.value hub.tally.value e }
        ensures pass { IsPassAt self.now pass.new }
        ensures numbers { KeepsNumbers pass.old pass.new }
        ensures once { (by : AnswersBy D.view (opening_at self.now) (view pass.old) (view pass.new) (Is (C.call call.now) (C.answers call.now answer.now))) × (by.past ≡ seen_by (view pass.old)) }
        ensures hub { HubFits D.view (opening_at self.now) (seen_by (view pass.new)) hub.shelf.value hub.tally.value }
    {
        let event = Noted::about::<HubStepped<D, C, C::Answer>, HubNotes<C>>(&HubStepped {
            pass: &*pass,
            hub: &hub,
            call,
            answer,
        });
        self.table.give_hub(pass, hub, event);
    }
}
