// Calls over all devices of a node, one after another.
ghost use Rattle.std.specs.Prelude.{◌≡◌, ◌≤◌, ◌<◌, ◌^◌, ℕ, length, IfOk};
ghost use Rattle.disk_model.specs.declared.disk.DiskFault.{DiskFault};
ghost use Rattle.model_node.specs.Commands.{Node, node_counts};
ghost use Rattle.core_run.specs.Standing.{Each, StandsOn};
ghost use Rattle.node_replies.specs.Through.{Through};
ghost use Rattle.core_run.specs.Turns.{TendTurn, CloseTurn, DefragsOn, DefragsEach, ExpiresOn, ExpiresAll, FlushesEach, HealsEach};

use disk_model::{Disk, DiskFault};
use node_replies::{NO_COUNTS, plus};
use rec_format::Counts;
use shard_core::{DefragCause, Shard, WriteRefusal};
use std::alloc::Global;

/// At `Ok` nothing is pending on any device, and it answers how many buffers were flushed; what a crash leaves from then on is as with
/// `Shard::flush`. It stops at the first device that fails, and those behind that are as before.
pub fn flush_each<D: Disk>(shards: &mut [Shard<D>]) -> Result<u64, DiskFault>
    requires few { length shards.old ≤ 16 }
    ensures { FlushesEach D.view result shards.old shards.new }
{
    let mut flushed = 0;
    for shard in shards.iter_mut() {
        flushed += shard.flush()?;
    }
    Ok(flushed)
}

/// At `Ok` it is known of each gate whether it is set, but of those whose write had begun, and it answers how many gates were closed for it. It
/// stops at the first device that fails, and those behind that are as before.
pub fn heal_each<D: Disk>(shards: &mut [Shard<D>]) -> Result<u64, DiskFault>
    requires few { length shards.old ≤ 16 }
    ensures { HealsEach D.view result shards.old shards.new }
{
    let mut healed = 0;
    for shard in shards.iter_mut() {
        healed += shard.heal()?;
    }
    Ok(healed)
}

// Vacates blocks of a device, one after another, until none waits, or as many are vacated as waited at its start. Answers how many records
// it moved, and out of how many blocks.
fn defrag<D: Disk>(alloc: Global, shard: &mut Shard<D>) -> Result<(u64, u64), DefragCause>
    ensures defrags { DefragsOn D.view result shard.old shard.new }
    ensures few { IfOk result (λ sums. (sums.0 < 2 ^ 48) × (sums.1 < 2 ^ 32)) }
{
    let queued = shard.counts().queued;
    let mut moved = 0;
    let mut vacated = 0;
    while vacated < queued {
        match shard.defrag_one(alloc) {
            Ok(Some(one)) => {
                moved += u64::from(one.moved);
                vacated += 1;
            }
            Ok(None) => break,
            Err(refusal) => return Err(refusal.cause),
        }
    }
    Ok((moved, vacated))
}

/// At `Ok` each device has vacated blocks until none waited, or as many as waited at first, and it answers how many records they moved,
/// and out of how many blocks; what a crash leaves is as with `Shard::defrag_one`. It stops at the first device that is refused, and
/// those behind that are as before.
pub fn defrag_each<D: Disk>(
    alloc: Global,
    shards: &mut [Shard<D>],
) -> Result<(u64, u64), DefragCause>
    requires few { length shards.old ≤ 16 }
    ensures { DefragsEach D.view result shards.old shards.new }
{
    let mut moved = 0;
    let mut vacated = 0;
    for shard in shards.iter_mut() {
        let one = defrag(alloc, shard)?;
        moved += one.0;
        vacated += one.1;
    }
    Ok((moved, vacated))
}

// Removes the expired entries of a device, part by part, and answers how many.
fn expire<D: Disk>(alloc: Global, shard: &mut Shard<D>, now: u64) -> Result<u64, WriteRefusal>
    requires time { now ≤ 2 ^ 61 }
    ensures expires { ExpiresOn D.view now result shard.old shard.new }
    ensures few { IfOk result (λ removed. removed ≤ 2 ^ 52) }
{
    let mut removed = 0;
    for part in 0..shard.parts() {
        match shard.expire_part(alloc, part, now) {
            Ok(here) => removed += here,
            Err(refused) => return Err(refused.cause),
        }
    }
    Ok(removed)
}

/// At `Ok` the entries that were expired at `now`, in milliseconds, are removed on each device, and it answers how many; what a crash
/// leaves is as with `Shard::expire_part`. It stops at the first device that is refused, and those behind that are as before.
pub fn expire_each<D: Disk>(
    alloc: Global,
    shards: &mut [Shard<D>],
    now: u64,
) -> Result<u64, WriteRefusal>
    requires few { length shards.old ≤ 16 }
    requires time { now ≤ 2 ^ 61 }
    ensures { ExpiresAll D.view now result shards.old shards.new }
{
    let mut removed = 0;
    for shard in shards.iter_mut() {
        removed += expire(alloc, shard, now)?;
    }
    Ok(removed)
}

/// Makes room on each device, in order, as `Shard::tend` does, and answers nothing.
pub fn tend_each<D: Disk>(alloc: Global, shards: &mut [Shard<D>])
    ensures { Through {A = ℕ} (TendTurn D.view) (length shards.old) 0 shards.old shards.new 0 }
{
    for shard in shards.iter_mut() {
        shard.tend(alloc);
    }
}

/// At `None` nothing is pending on any device; else it answers the first whose disk failed. Each device is flushed, also behind one that
/// fails.
pub fn close_each<D: Disk>(shards: &mut [Shard<D>]) -> Option<u16>
    requires few { length shards.old ≤ 16 }
    ensures { Through (CloseTurn DiskFault D.view) (length shards.old) (0, None) shards.old shards.new (length shards.old, result) }
{
    let mut failed = None;
    for (device, shard) in shards.iter_mut().enumerate() {
        if shard.flush().is_err() && failed.is_none() {
            failed = Some(device as u16);
        }
    }
    failed
}

/// The numbers of all devices together. A sum of at most 16 devices doesn't go around.
pub fn counts_of<D: Disk>(shards: &[Shard<D>]) -> Counts
    requires few { length shards.now ≤ 16 }
    ensures { (node : Node) → Each (StandsOn D.view) shards.now node → result ≡ node_counts node }
{
    let mut sum = NO_COUNTS;
    for shard in shards {
        sum = plus(sum, shard.counts());
    }
    sum
}
