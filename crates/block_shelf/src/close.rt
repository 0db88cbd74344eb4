// How the gate of a block is closed, before the block is used again, or where it isn't known whether it is closed.
ghost use Rattle.std.specs.Prelude.{◌≡◌, ◌≢◌, ◌<◌, ◌≤◌, length, slice_set, MatchResult, OnErr};
ghost use Rattle.std.specs.List.{AllByRecursion};
ghost use Rattle.model_faults.specs.Counts.{Rose};
ghost use Rattle.disk_model.specs.Disk.{IsHonest, TellsTorn, TornFrom, meanwhile};
ghost use Rattle.block_format.specs.declared.geometry.Gate.TheVariants.{Shut, Unsure};
ghost use Rattle.block_format.specs.Layout.{IsGeometry, block_place, device_end};
ghost use Rattle.law_images.specs.Gates.{GateStands};
ghost use Rattle.block_shelf.specs.Disks.{IsLater};
ghost use Rattle.block_shelf.specs.View.{gate_at};
ghost use Rattle.block_shelf.specs.Heals.{ClosesUnsure};

use crate::Shelf;
use block_flusher::{close_gate, cover_gate};
use block_format::{Gate, Geometry};
use disk_model::{Disk, DiskFault};

// Closes the gate of a block, unless it is known to be shut: one write and one sync, without a look. After a fault it is unsure.
pub(crate) fn shut_gate<D: Disk>(
    disk: &mut D,
    geometry: &Geometry,
    gates: &mut [Gate],
    block: u32,
) -> Result<(), DiskFault>
    requires geometry { IsGeometry geometry.now }
    requires block { block < geometry.now.blocks }
    requires gates { length gates.old ≡ geometry.now.blocks }
    requires room { device_end geometry.now ≤ (D.view disk.old).extent }
    requires stands { IsHonest (D.view disk.old) → GateStands geometry.now (D.view disk.old).may_leave block (gate_at gates.old block) }
    ensures known { MatchResult result (λ done. gates.new ≡ slice_set gates.old block Shut) (λ fault. gates.new ≡ slice_set gates.old block Unsure) }
    ensures stands { IsHonest (D.view disk.new) → GateStands geometry.now (D.view disk.new).may_leave block (gate_at gates.new block) }
    ensures images { IsHonest (D.view disk.old) → TornFrom (block_place geometry.now block) 4096 (D.view disk.old).may_leave (meanwhile (D.view disk.old) (D.view disk.new)) }
    ensures bytes { TellsTorn (block_place geometry.now block) 4096 (D.view disk.old) (D.view disk.new) }
    ensures quiet { gate_at gates.old block ≡ Shut → disk.new ≡ disk.old }
    ensures unshut { OnErr result (gate_at gates.old block ≢ Shut) }
    ensures cause { OnErr result (Rose (D.view disk.old).faults (D.view disk.new).faults) }
    ensures later { IsLater (D.view disk.old) (D.view disk.new) }
    ensures honest { IsHonest (D.view disk.old) → IsHonest (D.view disk.new) }
    ensures was_honest { IsHonest (D.view disk.new) → IsHonest (D.view disk.old) }
    ensures was_told { (D.view disk.new).tells → (D.view disk.old).tells }
{
    if gates[block as usize] == Gate::Shut {
        return Ok(());
    }
    match close_gate(disk, geometry, block) {
        Ok(()) => {
            gates[block as usize] = Gate::Shut;
            Ok(())
        }
        Err(fault) => {
            gates[block as usize] = Gate::Unsure;
            Err(fault)
        }
    }
}

// Writes a closed gate over one of which it isn't known whether it is closed, without a sync, and whatever comes of it. That stays unknown.
pub(crate) fn cover_unsure<D: Disk>(disk: &mut D, geometry: &Geometry, block: u32)
    requires geometry { IsGeometry geometry.now }
    requires block { block < geometry.now.blocks }
    requires room { device_end geometry.now ≤ (D.view disk.old).extent }
    requires stands { IsHonest (D.view disk.old) → GateStands geometry.now (D.view disk.old).may_leave block Unsure }
    ensures stands { IsHonest (D.view disk.new) → GateStands geometry.now (D.view disk.new).may_leave block Unsure }
    ensures images { IsHonest (D.view disk.old) → TornFrom (block_place geometry.now block) 4096 (D.view disk.old).may_leave (meanwhile (D.view disk.old) (D.view disk.new)) }
    ensures bytes { TellsTorn (block_place geometry.now block) 4096 (D.view disk.old) (D.view disk.new) }
    ensures later { IsLater (D.view disk.old) (D.view disk.new) }
    ensures honest { IsHonest (D.view disk.old) → IsHonest (D.view disk.new) }
    ensures was_honest { IsHonest (D.view disk.new) → IsHonest (D.view disk.old) }
    ensures was_told { (D.view disk.new).tells → (D.view disk.old).tells }
{
    let _done = cover_gate(disk, geometry, block);
}

impl<D: Disk> Shelf<D> {
    // What is known of the gate of a block.
    pub(crate) fn gate(&self, block: u32) -> Gate
        requires { block < self.now.geometry.blocks }
        ensures { result ≡ gate_at self.now.gates block }
    {
        self.gates[block as usize]
    }

    // The gate of a block without a buffer is closed and synced, if it is unsure; answers whether it was.
    pub(crate) fn close_unsure(&mut self, block: u32) -> Result<bool, DiskFault>
        requires block { block < self.old.geometry.blocks }
        requires unbuffered { AllByRecursion (λ b. b.block ≢ block) self.old.buffers }
        ensures { ClosesUnsure D.view block self.old self.new result }
    {
        if self.gate(block) != Gate::Unsure {
            return Ok(false);
        }
        shut_gate(&mut self.disk, &self.geometry, &mut self.gates, block)?;
        Ok(true)
    }
}
