// How the gates are closed of which it isn't known whether they are.
ghost use Rattle.std.specs.Prelude.{◌≡◌, ◌<◌, ◌≤◌, ℕ, [], false, IfOk, OnOk, OnErr, MatchResult};
ghost use Rattle.std.specs.List.{AllByRecursion};
ghost use Rattle.model_faults.specs.Counts.{Rose};
ghost use Rattle.disk_model.specs.Disk.{IsHonest};
ghost use Rattle.model_device.specs.Book.{Setup};
ghost use Rattle.model_device.specs.Device.{State};
ghost use Rattle.block_shelf.specs.Disks.{IsLater};
ghost use Rattle.block_shelf.specs.View.{IsShelf, AreSure, has_begun};
ghost use Rattle.block_shelf.specs.Sure.{StaysSure};
ghost use Rattle.block_shelf.specs.Standing.{StandsFor};
ghost use Rattle.block_shelf.specs.Calls.{Goes};
ghost use Rattle.block_shelf.specs.Heals.{Covers, HealsBlock, HealsBelow, StopsHealing, is_to_heal, to_heal_below};

use crate::Shelf;
use crate::close::cover_unsure;
use crate::let_go::has_block;
use block_format::Gate;
use disk_model::{Disk, DiskFault};

impl<D: Disk> Shelf<D> {
    /// At `Ok` each gate is closed of which it wasn't known whether it is, but those of blocks that a pending buffer has, and it answers how
    /// many: one write and one sync for each, in rising number of their blocks, and no call of the disk where there is none. Then no gate is
    /// unsure but where the write of a pending buffer's gate has begun. After the first fault those before it stay closed, and all others
    /// stay unsure, with a closed gate written over them where the disk took it, so that the next try finds nothing lost on its way. No
    /// record and no free block changes, and it takes no memory.
    pub fn heal(&mut self) -> Result<u64, DiskFault>
        ensures healed { MatchResult result (λ n. (n ≡ to_heal_below self.old.geometry.blocks self.old) × HealsBelow self.old.geometry.blocks self.old self.new) (λ fault. StopsHealing self.old self.new) }
        ensures few { IfOk result (λ n. n ≤ self.old.geometry.blocks) }
        ensures goes { (setup : Setup) (s : State) → StandsFor setup self.old s → Goes D.view setup [] self.old s self.new }
        ensures quiet { ((block : ℕ) → is_to_heal self.old block ≡ false) → self.new ≡ self.old }
        ensures rest { self.new ≡ record self.old { disk = self.new.disk; gates = self.new.gates } }

        // Where the write of no pending buffer's gate has begun, no gate is unsure then.
        ensures known { AllByRecursion (λ b. has_begun b.phase ≡ false) self.old.buffers → OnOk result (AreSure self.new.gates) }
        ensures sure { StaysSure D.view self.old self.new }
        ensures whole { IsShelf D.view self.old }
        ensures cause { OnErr result (Rose (D.view self.old.disk).faults (D.view self.new.disk).faults) }
        ensures later { IsLater (D.view self.old.disk) (D.view self.new.disk) }
        ensures honest { IsHonest (D.view self.old.disk) → IsHonest (D.view self.new.disk) }
    {
        match self.heal_each() {
            Ok(closed) => Ok(closed),
            Err(fault) => {
                self.cover_each();
                Err(fault)
            }
        }
    }
}

impl<D: Disk> Shelf<D> {
    // Closes them one after the other, up to the first fault.
    fn heal_each(&mut self) -> Result<u64, DiskFault>
        ensures healed { MatchResult result (λ n. (n ≡ to_heal_below self.old.geometry.blocks self.old) × HealsBelow self.old.geometry.blocks self.old self.new) (λ fault. StopsHealing self.old self.new) }
        ensures few { IfOk result (λ n. n ≤ self.old.geometry.blocks) }
        ensures goes { (setup : Setup) (s : State) → StandsFor setup self.old s → Goes D.view setup [] self.old s self.new }
        ensures quiet { ((block : ℕ) → is_to_heal self.old block ≡ false) → self.new ≡ self.old }
        ensures rest { self.new ≡ record self.old { disk = self.new.disk; gates = self.new.gates } }

        // Where the write of no pending buffer's gate has begun, no gate is unsure then.
        ensures known { AllByRecursion (λ b. has_begun b.phase ≡ false) self.old.buffers → OnOk result (AreSure self.new.gates) }
        ensures sure { StaysSure D.view self.old self.new }
        ensures whole { IsShelf D.view self.old }
        ensures cause { OnErr result (Rose (D.view self.old.disk).faults (D.view self.new.disk).faults) }
        ensures later { IsLater (D.view self.old.disk) (D.view self.new.disk) }
        ensures honest { IsHonest (D.view self.old.disk) → IsHonest (D.view self.new.disk) }
    {
        let blocks = self.geometry().blocks;
        let mut closed = 0;
        for block in 0..blocks {
            if self.heal_block(block)? {
                closed += 1;
            }
        }
        Ok(closed)
    }

    // A closed gate is written over each that isn't healed, without a sync, whatever comes of it. Where the disk is a file, no sync goes well
    // before all is written again that an earlier one lost: without this a gate of a later block would keep those before it from being
    // closed, whenever it is tried.
    fn cover_each(&mut self)
        ensures { Covers D.view self.old self.new }
    {
        let blocks = self.geometry().blocks;
        for block in 0..blocks {
            self.cover_block(block);
        }
    }

    // The same of one block.
    fn cover_block(&mut self, block: u32)
        requires block { block < self.old.geometry.blocks }
        ensures { Covers D.view self.old self.new }
    {
        if self.gate(block) == Gate::Unsure && !has_block(&self.buffers, block) {
            cover_unsure(&mut self.disk, &self.geometry, block);
        }
    }

    // The gate of a block is closed and synced, if it is unsure and no pending buffer has the block; answers whether it was.
    fn heal_block(&mut self, block: u32) -> Result<bool, DiskFault>
        requires block { block < self.old.geometry.blocks }
        ensures { HealsBlock D.view block self.old self.new result }
    {
        if has_block(&self.buffers, block) {
            return Ok(false);
        }
        self.close_unsure(block)
    }
}
