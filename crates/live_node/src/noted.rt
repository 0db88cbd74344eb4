// What a step left and what was answered, for the event that is noted of it.
use crate::hub::Hub;
use crate::machine::{Happening, LivePass};
use crate::steps::EventCall;
use arena_sprig::Sprig;
use disk_model::Disk;
use std::marker::PhantomData;
use turn_table::Notes;

/// A step over hub and sprig, as it left them.
pub(crate) struct Stepped<'a, D: Disk, C, A> {
    pub pass: &'a LivePass<D>,
    pub hub: &'a Hub<D>,
    pub sprig: &'a Sprig,
    pub part: u32,
    pub call: &'a C,
    pub answer: &'a A,
}

impl<'a, D: Disk, C, A> Drop for Stepped<'a, D, C, A> {
    fn drop(self) {
        let Self {
            pass: _,
            hub: _,
            sprig: _,
            part: _,
            call: _,
            answer: _,
        } = self;
    }
}

// The event of a step may follow what the pass has seen, and hub and sprig fit with it.
pub(crate) struct StepNotes<C> {
    call: PhantomData<C>,
}

impl<'a, D: Disk, C: EventCall> Notes<Stepped<'a, D, C, C::Answer>, Happening> for StepNotes<C> {
    ghost use Rattle.std.specs.Prelude.{IsSomeAnd};
    ghost use Rattle.turn_table.specs.Passes.{view};
    ghost use Rattle.live_node.specs.Fits.{Is, StepFits};
    ghost use Rattle.live_node.specs.Calls.{seen_by};

    ghost may_note = { λ a e. IsSomeAnd (view a.pass.now).opening (λ o. StepFits D.view o (seen_by (view a.pass.now)) (Is (C.call a.call.now) (C.answers a.call.now a.answer.now)) a.part a.hub.now.shelf.value a.hub.now.tally.value a.sprig.now e) };
}

/// A step over the hub alone, as it left it.
pub(crate) struct HubStepped<'a, D: Disk, C, A> {
    pub pass: &'a LivePass<D>,
    pub hub: &'a Hub<D>,
    pub call: &'a C,
    pub answer: &'a A,
}

impl<'a, D: Disk, C, A> Drop for HubStepped<'a, D, C, A> {
    fn drop(self) {
        let Self {
            pass: _,
            hub: _,
            call: _,
            answer: _,
        } = self;
    }
}

// The event of such a step may follow, and the hub fits with it.
pub(crate) struct HubNotes<C> {
    call: PhantomData<C>,
}

impl<'a, D: Disk, C: EventCall> Notes<HubStepped<'a, D, C, C::Answer>, Happening> for HubNotes<C> {
    ghost use Rattle.std.specs.Prelude.{IsSomeAnd};
    ghost use Rattle.turn_table.specs.Passes.{view};
    ghost use Rattle.live_node.specs.Fits.{Is, HubStepFits};
    ghost use Rattle.live_node.specs.Calls.{seen_by};

    ghost may_note = { λ a e. IsSomeAnd (view a.pass.now).opening (λ o. HubStepFits D.view o (seen_by (view a.pass.now)) (Is (C.call a.call.now) (C.answers a.call.now a.answer.now)) a.hub.now.shelf.value a.hub.now.tally.value e) };
}
