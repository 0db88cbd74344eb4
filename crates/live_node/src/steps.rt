// What a call does with the sprig of a part and the shelf, or with the shelf alone, and which event that is.
ghost use Rattle.std.specs.Prelude.{◌≡◌, ℕ, Some, None};
ghost use Rattle.disk_model.specs.Disk.{IsHonest};
ghost use Rattle.model_device.specs.Book.{Setup};
ghost use Rattle.model_device.specs.Device.{State};
ghost use Rattle.model_device.specs.Events.{Call, Answer as EventAnswer};
ghost use Rattle.model_device.specs.Passes.{part_named};
ghost use Rattle.law_sprig.specs.Parts.{NamesOwn};
ghost use Rattle.block_shelf.specs.View.{IsSetupOf};
ghost use Rattle.law_steps.specs.Standing.{ShelfStands, StandTogether};
ghost use Rattle.law_steps.specs.Events.{MakesEvent, StepMakes};
ghost use Rattle.shard_core.specs.View.{IsSettings, IsSetupBy, setup_for};

use arena_sprig::Sprig;
use block_shelf::Shelf;
use disk_model::Disk;
use shard_core::Settings;
use std::alloc::Global;

/// A call that is one event of the device.
pub(crate) trait EventCall {
    /// What it answers.
    type Answer;

    // The call as an event has it.
    ghost call: { Self → Call };

    // What the event answers, where this is answered.
    ghost answers: { Self → Self.Answer → EventAnswer → Type 0 };
}

/// A call whose step is over the sprig of one part and the shelf.
pub(crate) trait Step<D: Disk>: EventCall {
    // What the caller keeps to.
    ghost asks: { Self → Type 0 };

    // The part that the call names.
    ghost part: { Self → Setup → ℕ };

    // What is read of a payload takes the room.
    fn step(
        &self,
        alloc: Global,
        room: &mut Vec<u8>,
        sprig: &mut Sprig,
        shelf: &mut Shelf<D>,
        set: &Settings,
    ) -> Self::Answer
        requires asks { asks self.now }
        requires own { NamesOwn (setup_for shelf.old.geometry set.now) (Self.call self.now) }
        requires settings { IsSettings set.now }
        requires stand { (setup : Setup) × (s : State) × IsSetupBy set.now setup shelf.old × StandTogether setup (part self.now setup) sprig.old shelf.old s }
        ensures makes { (setup : Setup) (s : State) → IsSetupBy set.now setup shelf.old → StandTogether setup (part self.now setup) sprig.old shelf.old s
            → (answer : EventAnswer) × Self.answers self.now result answer × StepMakes D.view setup (part self.now setup) (Self.call self.now) answer shelf.old s sprig.new shelf.new }
        ensures honest { IsHonest (D.view shelf.old.disk) → IsHonest (D.view shelf.new.disk) }
        ensures shape { (shelf.new.geometry ≡ shelf.old.geometry) × (shelf.new.limits ≡ shelf.old.limits) };

    ghost named: { (c : Self) (setup : Setup) → part_named setup (Self.call c) ≡ Some (part c setup) };
}

/// A call whose step is over the shelf alone. It names no part.
pub(crate) trait HubStep<D: Disk>: EventCall {
    fn step(&self, shelf: &mut Shelf<D>) -> Self::Answer
        ensures makes { (setup : Setup) (s : State) → IsSetupOf setup shelf.old → ShelfStands setup shelf.old s
            → (answer : EventAnswer) × Self.answers self.now result answer × MakesEvent D.view setup (Self.call self.now) answer shelf.old s shelf.new (ShelfStands setup shelf.new) }
        ensures honest { IsHonest (D.view shelf.old.disk) → IsHonest (D.view shelf.new.disk) }
        ensures shape { (shelf.new.geometry ≡ shelf.old.geometry) × (shelf.new.limits ≡ shelf.old.limits) };

    ghost named: { (c : Self) (setup : Setup) → part_named setup (Self.call c) ≡ None };

    ghost own: { (c : Self) (setup : Setup) → NamesOwn setup (Self.call c) };
}
