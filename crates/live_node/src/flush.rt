// Flushes, each of which is one event over the shelf alone.
ghost use Rattle.std.specs.Prelude.{◌≡◌};
ghost use Rattle.model_device.specs.Events.{flush_call, flush_sealed_call, flush_next_call};
ghost use Rattle.shard_core.specs.Calls.{flush_answer};
ghost use Rattle.turn_table.specs.Passes.{view, KeepsNumbers};
ghost use Rattle.live_node.specs.Calls.{AnswersOnce};
ghost use Rattle.live_node.specs.Lives.{opening_at, IsPassAt};

use crate::live::Live;
use crate::machine::LivePass;
use crate::steps::{EventCall, HubStep};
use block_shelf::Shelf;
use disk_model::{Disk, DiskFault};
use shard_core::{flush_low, flush_next, flush_shelf};
use std::sync::Wait;

// All buffers are flushed.
#[derive(Drop)]
struct FlushAll;

// What is due is sealed where few blocks are free, and all that is sealed is flushed.
#[derive(Drop)]
struct FlushSealed;

// What is due is sealed where few blocks are free, and the sealed buffer of the lowest number is flushed.
#[derive(Drop)]
struct FlushOne;

impl EventCall for FlushAll {
    ghost use Rattle.std.specs.Prelude.{◌≡◌};
    ghost use Rattle.model_device.specs.Events.{flush_call};
    ghost use Rattle.shard_core.specs.Calls.{flush_answer};

    type Answer = Result<u64, DiskFault>;

    ghost call = { λ c. flush_call };

    ghost answers = { λ c result answer. answer ≡ flush_answer result };
}

impl EventCall for FlushSealed {
    ghost use Rattle.std.specs.Prelude.{◌≡◌};
    ghost use Rattle.model_device.specs.Events.{flush_sealed_call};
    ghost use Rattle.shard_core.specs.Calls.{flush_answer};

    type Answer = Result<u64, DiskFault>;

    ghost call = { λ c. flush_sealed_call };

    ghost answers = { λ c result answer. answer ≡ flush_answer result };
}

impl EventCall for FlushOne {
    ghost use Rattle.std.specs.Prelude.{◌≡◌};
    ghost use Rattle.model_device.specs.Events.{flush_next_call};
    ghost use Rattle.shard_core.specs.Calls.{flush_answer};

    type Answer = Result<u64, DiskFault>;

    ghost call = { λ c. flush_next_call };

    ghost answers = { λ c result answer. answer ≡ flush_answer result };
}

impl<D: Disk> HubStep<D> for FlushAll {
    ghost use Rattle.std.specs.Prelude.{refl};

    fn step(&self, shelf: &mut Shelf<D>) -> Result<u64, DiskFault> {
        flush_shelf(shelf)
    }

    ghost named = { λ c setup. refl };

    ghost own = { λ c setup. tt };
}

impl<D: Disk> HubStep<D> for FlushSealed {
    ghost use Rattle.std.specs.Prelude.{refl};

    fn step(&self, shelf: &mut Shelf<D>) -> Result<u64, DiskFault> {
        flush_low(shelf)
    }

    ghost named = { λ c setup. refl };

    ghost own = { λ c setup. tt };
}

impl<D: Disk> HubStep<D> for FlushOne {
    ghost use Rattle.std.specs.Prelude.{refl};

    fn step(&self, shelf: &mut Shelf<D>) -> Result<u64, DiskFault> {
        flush_next(shelf)
    }

    ghost named = { λ c setup. refl };

    ghost own = { λ c setup. tt };
}

impl<D: Disk> Live<D> {
    /// Seals the buffers that are being filled, and flushes all that is sealed, in rising number, as `Shard::flush` does. It is one event of
    /// the device. After a fault those are sealed, those before the one that failed are flushed, and the others wait.
    pub fn flush<R: Wait>(&self, rt: &R, pass: &mut LivePass<D>) -> Result<u64, DiskFault>
        requires pass { IsPassAt self.now pass.old }
        ensures pass { IsPassAt self.now pass.new }
        ensures numbers { KeepsNumbers pass.old pass.new }
        ensures once { AnswersOnce D.view (opening_at self.now) (view pass.old) (view pass.new) flush_call (flush_answer result) }
    {
        self.hub_turn(rt, pass, &FlushAll)
    }

    /// Seals what is due where few blocks are free, and flushes the sealed buffer of the lowest number, if there is one: it answers 1, or 0
    /// where none was sealed. So a flusher gives the shelf back between any two buffers. It is one event of the device. After a fault what was
    /// due is sealed, and the buffer waits.
    pub fn flush_next<R: Wait>(&self, rt: &R, pass: &mut LivePass<D>) -> Result<u64, DiskFault>
        requires pass { IsPassAt self.now pass.old }
        ensures pass { IsPassAt self.now pass.new }
        ensures numbers { KeepsNumbers pass.old pass.new }
        ensures once { AnswersOnce D.view (opening_at self.now) (view pass.old) (view pass.new) flush_next_call (flush_answer result) }
    {
        self.hub_turn(rt, pass, &FlushOne)
    }

    // Seals what is due where few blocks are free, and flushes all that is sealed, as a tending does first. It is one event of the device.
    pub(crate) fn flush_sealed<R: Wait>(
        &self,
        rt: &R,
        pass: &mut LivePass<D>,
    ) -> Result<u64, DiskFault>
        requires pass { IsPassAt self.now pass.old }
        ensures pass { IsPassAt self.now pass.new }
        ensures numbers { KeepsNumbers pass.old pass.new }
        ensures once { AnswersOnce D.view (opening_at self.now) (view pass.old) (view pass.new) flush_sealed_call (flush_answer result) }
    {
        self.hub_turn(rt, pass, &FlushSealed)
    }
}
