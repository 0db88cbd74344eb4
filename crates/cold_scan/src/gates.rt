// The gates of a device, block by block.
ghost use Rattle.std.specs.Prelude.{◌≡◌, ◌<◌, ◌≤◌, ℕ, List, length, take, option_map, IfOk, IfErr, slice_get};
ghost use Rattle.std.specs.List.{AllByRecursion};
ghost use Rattle.block_format.specs.Layout.{IsGeometry, device_end};
ghost use Rattle.block_shelf.specs.Disks.{OnlyRead};
ghost use Rattle.cold_scan.specs.Starting.{FaultRose};
ghost use Rattle.cold_scan.specs.Found.{is_set, IsSure, TellsSector, AreGates, IsStopped};

use crate::StartCause;
use block_flusher::start_of_block;
use block_format::{GATE_BYTES, Gate, Geometry, is_open};
use disk_model::Disk;
use std::alloc::Global;

// What the first bytes of a gate tell of it, where the only image of the disk is what it reads.
fn gate_of(bytes: &[u8; GATE_BYTES]) -> Gate
    ensures sure { IsSure result }
    ensures told { (sector : List ℕ) → take 16 bytes.now ≡ take 16 sector → TellsSector result sector }
{
    if is_open(bytes) {
        Gate::Set
    } else {
        Gate::Shut
    }
}

/// Which gates are open, block by block.
pub(crate) fn read_gates<D: Disk>(
    alloc: Global,
    disk: &mut D,
    geometry: &Geometry,
) -> Result<Vec<Gate>, StartCause>
    requires geometry { IsGeometry geometry.now }
    requires room { device_end geometry.now ≤ (D.view disk.old).extent }
    ensures read { OnlyRead (D.view disk.old) (D.view disk.new) }
    ensures all { IfOk result (λ gates. length gates.items ≡ geometry.now.blocks) }
    ensures sure { IfOk result (λ gates. AllByRecursion IsSure gates.items) }
    ensures gates { (D.view disk.old).tells → IfOk result (λ gates. AreGates geometry.now (D.view disk.old).seen gates.items) }
    ensures stopped { IfErr result (λ cause. IsStopped geometry.now (D.view disk.old).seen cause) }
    ensures cause { IfErr result (λ cause. FaultRose cause (D.view disk.old).faults (D.view disk.new).faults) }
{
    let mut gates = Vec::new(alloc);
    for block in 0..geometry.blocks {
        let mut gate = [0; GATE_BYTES];
        let Ok(()) = disk.read_at(start_of_block(geometry, block), &mut gate) else {
            return Err(StartCause::Fault);
        };
        let Ok(()) = gates.push(gate_of(&gate)) else {
            return Err(StartCause::Memory);
        };
    }
    Ok(gates)
}

/// Whether the block has an open gate.
pub(crate) fn is_opened(gates: &[Gate], block: u32) -> bool
    requires { block < length gates.now }
    ensures { option_map is_set (slice_get gates.now block) ≡ Some result }
{
    gates[block as usize] == Gate::Set
}
