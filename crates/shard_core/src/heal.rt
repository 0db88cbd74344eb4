// How the gates are closed of which it isn't known whether they are.
ghost use Rattle.std.specs.Prelude.{◌≡◌, ◌<◌, ◌≤◌, ◌^◌, ℕ, false, IfOk, OnOk, OnErr, MatchResult};
ghost use Rattle.std.specs.List.{AllByRecursion};
ghost use Rattle.model_faults.specs.Counts.{Rose};
ghost use Rattle.disk_model.specs.Disk.{IsHonest};
ghost use Rattle.model_device.specs.Book.{Setup};
ghost use Rattle.model_device.specs.Device.{State};
ghost use Rattle.model_device.specs.Events.{heal_call};
ghost use Rattle.block_shelf.specs.Disks.{IsLater};
ghost use Rattle.block_shelf.specs.Sure.{StaysSure};
ghost use Rattle.block_shelf.specs.Heals.{HealsBelow, StopsHealing, is_to_heal, to_heal_below};
ghost use Rattle.block_shelf.specs.View.{AreSure, IsSetupOf, SameShape, has_begun};
ghost use Rattle.law_steps.specs.Standing.{ShelfStands};
ghost use Rattle.law_steps.specs.Events.{MakesEvent};
ghost use Rattle.shard_core.specs.View.{SameSetup};
ghost use Rattle.shard_core.specs.Stands.{Agrees};
ghost use Rattle.shard_core.specs.Calls.{Makes, flush_answer};

use crate::Shard;
use block_shelf::Shelf;
use disk_model::{Disk, DiskFault};

/// At `Ok` each gate is closed of which it wasn't known whether it is, but those of blocks that a pending buffer has, and it answers how
/// many: one write and one sync for each, and no call of the disk where there is none. After the first fault those before it stay closed,
/// and that one stays unsure. Call it behind a flush: where both answer `Ok` no gate is unsure, so the next raid of a sound device removes
/// all that may go. No record and no free block changes, and it takes no memory.
pub fn heal_shelf<D: Disk>(shelf: &mut Shelf<D>) -> Result<u64, DiskFault>
    ensures makes { (setup : Setup) (s : State) → IsSetupOf setup shelf.old → ShelfStands setup shelf.old s
        → MakesEvent D.view setup heal_call (flush_answer result) shelf.old s shelf.new (ShelfStands setup shelf.new) }
    ensures healed { MatchResult result (λ n. (n ≡ to_heal_below shelf.old.geometry.blocks shelf.old) × HealsBelow shelf.old.geometry.blocks shelf.old shelf.new) (λ fault. StopsHealing shelf.old shelf.new) }
    ensures few { IfOk result (λ n. n < 2 ^ 60) }
    ensures most { IfOk result (λ n. n ≤ shelf.old.geometry.blocks) }
    ensures quiet { ((block : ℕ) → is_to_heal shelf.old block ≡ false) → shelf.new ≡ shelf.old }
    ensures kept { shelf.new ≡ record shelf.old { disk = shelf.new.disk; gates = shelf.new.gates } }

    // Where the write of no pending buffer's gate has begun, no gate is unsure then.
    ensures known { AllByRecursion (λ b. has_begun b.phase ≡ false) shelf.old.buffers → OnOk result (AreSure shelf.new.gates) }
    ensures cause { OnErr result (Rose (D.view shelf.old.disk).faults (D.view shelf.new.disk).faults) }
    ensures sure { StaysSure D.view shelf.old shelf.new }
    ensures later { IsLater (D.view shelf.old.disk) (D.view shelf.new.disk) }
    ensures honest { IsHonest (D.view shelf.old.disk) → IsHonest (D.view shelf.new.disk) }
    ensures shape { SameShape shelf.old shelf.new }
{
    shelf.heal()
}

impl<D: Disk> Shard<D> {
    /// At `Ok` each gate is closed of which it wasn't known whether it is, but those of blocks that a pending buffer has, and it answers
    /// how many: one write and one sync for each, and no call of the disk where there is none. After the first fault those before it stay
    /// closed, and that one stays unsure. Call it behind a flush: where both answer `Ok` no gate is unsure, so the next raid of a sound
    /// device removes all that may go. No record and no free block changes, and it takes no memory.
    pub fn heal(&mut self) -> Result<u64, DiskFault>
        ensures makes { (s : State) → Agrees self.old s → Makes D.view heal_call (flush_answer result) self.old s self.new }
        ensures healed { MatchResult result (λ n. (n ≡ to_heal_below self.old.shelf.geometry.blocks self.old.shelf) × HealsBelow self.old.shelf.geometry.blocks self.old.shelf self.new.shelf) (λ fault. StopsHealing self.old.shelf self.new.shelf) }
        ensures few { IfOk result (λ n. n < 2 ^ 60) }
        ensures most { IfOk result (λ n. n ≤ self.old.shelf.geometry.blocks) }
        ensures quiet { ((block : ℕ) → is_to_heal self.old.shelf block ≡ false) → self.new ≡ self.old }
        ensures kept { self.new ≡ record self.old { shelf = record self.old.shelf { disk = self.new.shelf.disk; gates = self.new.shelf.gates } } }

        // Where the write of no pending buffer's gate has begun, no gate is unsure then.
        ensures known { AllByRecursion (λ b. has_begun b.phase ≡ false) self.old.shelf.buffers → OnOk result (AreSure self.new.shelf.gates) }
        ensures cause { OnErr result (Rose (D.view self.old.shelf.disk).faults (D.view self.new.shelf.disk).faults) }
        ensures sure { StaysSure D.view self.old.shelf self.new.shelf }
        ensures later { IsLater (D.view self.old.shelf.disk) (D.view self.new.shelf.disk) }
        ensures honest { IsHonest (D.view self.old.shelf.disk) → IsHonest (D.view self.new.shelf.disk) }
        ensures shape { SameSetup self.old self.new }
    {
        heal_shelf(&mut self.shelf)
    }
}
