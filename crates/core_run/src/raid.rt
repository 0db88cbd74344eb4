// Whole raids: of a device, and of each device of a node.
ghost use Rattle.std.specs.Prelude.{◌≡◌, ◌≤◌, ◌^◌, length, IfOk};
ghost use Rattle.model_node.specs.Commands.{fault_of};
ghost use Rattle.shard_raid.specs.Scans.{cause_of};
ghost use Rattle.core_run.specs.Raids.{ended_by};
ghost use Rattle.core_run.specs.Turns.{RaidsOn, RaidsEach};

use disk_model::Disk;
use line_proto::LineFault;
use shard_core::{RaidDid, RaidRefusal, Shard};
use std::alloc::Global;

// Why a turn was refused, as a line tells it.
fn raid_fault(refusal: RaidRefusal) -> LineFault
    ensures { result ≡ fault_of (cause_of refusal) }
{
    match refusal {
        RaidRefusal::Stale { .. } => LineFault::Mode,
        RaidRefusal::Damaged { .. } => LineFault::Damaged,
        RaidRefusal::Memory => LineFault::Memory,
        RaidRefusal::Fault => LineFault::Fault,
    }
}

// How many tombstones a turn removed and how many covers it cleared; none where the raid is over.
fn ended_by(did: RaidDid) -> Option<(u64, u64)>
    ensures { result ≡ ended_by did }
{
    match did {
        RaidDid::Dropped { removed, cleared } => Some((removed, cleared)),
        RaidDid::Done => None,
        _ => Some((0, 0)),
    }
}

// A whole raid of a device: it begins, and takes each of its turns. Answers how many tombstones it removed, and how many covers it cleared.
fn raid<D: Disk>(alloc: Global, shard: &mut Shard<D>, now: u64) -> Result<(u64, u64), LineFault>
    ensures raids { RaidsOn D.view now result shard.old shard.new }
    ensures few { IfOk result (λ sums. (sums.0 ≤ 2 ^ 52) × (sums.1 ≤ 2 ^ 52)) }
{
    // Each digest of the device is of one of its parts.
    let _parts = shard.parts();
    let Some(mut raid) = shard.raid_begin() else {
        return Err(LineFault::Spent);
    };
    let mut removed = 0;
    let mut cleared = 0;
    loop {
        let did = match shard.raid_step(alloc, &mut raid, now) {
            Ok(did) => did,
            Err(refusal) => return Err(raid_fault(refusal)),
        };
        let Some((gone, bare)) = ended_by(did) else {
            return Ok((removed, cleared));
        };
        removed += gone;
        cleared += bare;
    }
}

/// At `Ok` each device has had a whole raid, and it answers how many tombstones they removed, and how many covers they cleared; on a
/// sound device without an unsure gate these are just the ones that may go. `now` is in milliseconds. It stops at the first device that
/// is refused, and those behind that are as before.
pub fn raid_each<D: Disk>(
    alloc: Global,
    shards: &mut [Shard<D>],
    now: u64,
) -> Result<(u64, u64), LineFault>
    requires few { length shards.old ≤ 16 }
    ensures { RaidsEach D.view now result shards.old shards.new }
{
    let mut removed = 0;
    let mut cleared = 0;
    for shard in shards.iter_mut() {
        let one = raid(alloc, shard, now)?;
        removed += one.0;
        cleared += one.1;
    }
    Ok((removed, cleared))
}
