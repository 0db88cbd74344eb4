// A heal, which is one event over the shelf alone.
ghost use Rattle.std.specs.Prelude.{◌≡◌};
ghost use Rattle.model_device.specs.Events.{heal_call};
ghost use Rattle.shard_core.specs.Calls.{flush_answer};
ghost use Rattle.turn_table.specs.Passes.{view, KeepsNumbers};
ghost use Rattle.live_node.specs.Calls.{AnswersOnce};
ghost use Rattle.live_node.specs.Lives.{opening_at, IsPassAt};

use crate::live::Live;
use crate::machine::LivePass;
use crate::steps::{EventCall, HubStep};
use block_shelf::Shelf;
use disk_model::{Disk, DiskFault};
use shard_core::heal_shelf;
use std::sync::Wait;

// The gates of which it isn't known whether they are closed are closed, but for those of pending buffers.
#[derive(Drop)]
struct HealGates;

impl EventCall for HealGates {
    ghost use Rattle.std.specs.Prelude.{◌≡◌};
    ghost use Rattle.model_device.specs.Events.{heal_call};
    ghost use Rattle.shard_core.specs.Calls.{flush_answer};

    type Answer = Result<u64, DiskFault>;

    ghost call = { λ c. heal_call };

    ghost answers = { λ c result answer. answer ≡ flush_answer result };
}

impl<D: Disk> HubStep<D> for HealGates {
    ghost use Rattle.std.specs.Prelude.{refl};

    fn step(&self, shelf: &mut Shelf<D>) -> Result<u64, DiskFault> {
        heal_shelf(shelf)
    }

    ghost named = { λ c setup. refl };

    ghost own = { λ c setup. tt };
}

impl<D: Disk> Live<D> {
    /// Answers how many gates it closed, of those of which it wasn't known whether they are closed, as `Shard::heal` does. It takes the shelf alone
    /// and stops at the first fault; what it closed before stays closed. It is one event of the device.
    pub fn heal<R: Wait>(&self, rt: &R, pass: &mut LivePass<D>) -> Result<u64, DiskFault>
        requires pass { IsPassAt self.now pass.old }
        ensures pass { IsPassAt self.now pass.new }
        ensures numbers { KeepsNumbers pass.old pass.new }
        ensures once { AnswersOnce D.view (opening_at self.now) (view pass.old) (view pass.new) heal_call (flush_answer result) }
    {
        self.hub_turn(rt, pass, &HealGates)
    }
}
