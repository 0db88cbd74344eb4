// Commands over all devices, one after another.
ghost use Rattle.std.specs.Prelude.{◌≡◌, ◌≤◌, ◌^◌, length, map, vec_capacity};
ghost use Rattle.model_device.specs.Steps.{part_total};
ghost use Rattle.model_device.specs.Vacating.{Outcome};
ghost use Rattle.model_node.specs.Commands.{node_counts};
ghost use Rattle.turn_table.specs.Passes.{view, KeepsNumbers};
ghost use Rattle.shard_core.specs.Calls.{flush_answer};
ghost use Rattle.node_replies.specs.Outcomes.{IsDefragged, IsExpired};
ghost use Rattle.live_node.specs.Calls.{AnswersOnce};
ghost use Rattle.live_node.specs.Lives.{opening_at, IsPassAt};
ghost use Rattle.live_node.specs.Vacates.{HasListRoom};
ghost use Rattle.live_store.specs.Pairs.{EachPair};
ghost use Rattle.live_store.specs.Known.{AreDevices, ArePasses, KeepNumbers, known_each, known_of, slot_of};
ghost use Rattle.live_store.specs.Works.{IsCounted, CountsOnce, Defragments, Expires, LooksAt, EachDevice};
ghost use Rattle.live_store.specs.Upkeep.{call_of};

use disk_model::{Disk, DiskFault};
use live_node::{Live, LivePass};
use node_replies::{NO_COUNTS, plus};
use rec_format::{Counts, Digest};
use shard_core::{DefragCause, WriteRefusal};
use std::alloc::Global;
use std::sync::Wait;

/// What is asked of each device, which answers a count.
#[derive(Clone, Copy)]
pub(crate) enum Upkeep {
    /// How many buffers it flushed.
    Flush,
    /// How many unsure gates it closed.
    Heal,
}

// Asks it of one device.
fn keep_up<D: Disk, R: Wait>(
    upkeep: Upkeep,
    rt: &R,
    live: &Live<D>,
    pass: &mut LivePass<D>,
) -> Result<u64, DiskFault>
    requires pass { IsPassAt live.now pass.old }
    ensures pass { IsPassAt live.now pass.new }
    ensures numbers { KeepsNumbers pass.old pass.new }
    ensures once { AnswersOnce D.view (opening_at live.now) (view pass.old) (view pass.new) (call_of upkeep) (flush_answer result) }
{
    match upkeep {
        Upkeep::Flush => live.flush(rt, pass),
        Upkeep::Heal => live.heal(rt, pass),
    }
}

// Asks it of each device, in order, and answers the sum. It stops at the first that fails.
pub(crate) fn keep_up_each<D: Disk, R: Wait>(
    upkeep: Upkeep,
    rt: &R,
    lives: &[Live<D>],
    passes: &mut [LivePass<D>],
) -> Result<u64, DiskFault>
    requires passes { ArePasses lives.now passes.old }
    ensures passes { ArePasses lives.now passes.new }
    ensures numbers { KeepNumbers passes.old passes.new }
    ensures counts { (outcome : Outcome) × IsCounted result outcome × EachDevice (CountsOnce D.view (call_of upkeep)) (known_each lives.now passes.old) (known_each lives.now passes.new) 0 0 outcome }
{
    let mut sum: u64 = 0;
    for (device, live) in lives.iter().enumerate() {
        match keep_up(upkeep, rt, live, &mut passes[device]) {
            Ok(count) => sum = sum.wrapping_add(count),
            Err(fault) => return Err(fault),
        }
    }
    Ok(sum)
}

// Vacates blocks of a device, one after another, until none waits, or as many are vacated as waited at its start. Answers how many records
// it moved, and out of how many blocks.
fn defrag<D: Disk, R: Wait>(
    alloc: Global,
    rt: &R,
    live: &Live<D>,
    pass: &mut LivePass<D>,
    list: &mut Vec<Digest>,
) -> Result<(u64, u64), DefragCause>
    requires pass { IsPassAt live.now pass.old }
    requires room { HasListRoom (opening_at live.now) (vec_capacity list.old) }
    ensures pass { IsPassAt live.now pass.new }
    ensures numbers { KeepsNumbers pass.old pass.new }
    ensures room { vec_capacity list.new ≡ vec_capacity list.old }
    ensures defrags { (outcome : Outcome) × IsDefragged result outcome × Defragments D.view (known_of live.now pass.old) (known_of live.now pass.new) outcome }
{
    let queued = live.counts(rt, pass).queued;
    let mut moved: u64 = 0;
    let mut vacated = 0;
    while vacated < queued {
        match live.defrag_one(alloc, rt, pass, list) {
            Ok(Some(one)) => {
                moved = moved.wrapping_add(u64::from(one.moved));
                vacated += 1;
            }
            Ok(None) => break,
            Err(refusal) => return Err(refusal.cause),
        }
    }
    Ok((moved, vacated))
}

// Vacates blocks of each device, in order, and answers how many records were moved, and out of how many blocks. It stops at the first that is
// refused.
pub(crate) fn defrag_each<D: Disk, R: Wait>(
    alloc: Global,
    rt: &R,
    lives: &[Live<D>],
    passes: &mut [LivePass<D>],
    list: &mut Vec<Digest>,
) -> Result<(u64, u64), DefragCause>
    requires passes { ArePasses lives.now passes.old }
    requires devices { AreDevices (vec_capacity list.old) lives.now }
    ensures passes { ArePasses lives.now passes.new }
    ensures numbers { KeepNumbers passes.old passes.new }
    ensures room { vec_capacity list.new ≡ vec_capacity list.old }
    ensures defrags { (outcome : Outcome) × IsDefragged result outcome × EachDevice (Defragments D.view) (known_each lives.now passes.old) (known_each lives.now passes.new) 0 0 outcome }
{
    let mut moved: u64 = 0;
    let mut vacated: u64 = 0;
    for (device, live) in lives.iter().enumerate() {
        match defrag(alloc, rt, live, &mut passes[device], list) {
            Ok(one) => {
                moved = moved.wrapping_add(one.0);
                vacated = vacated.wrapping_add(one.1);
            }
            Err(cause) => return Err(cause),
        }
    }
    Ok((moved, vacated))
}

// Removes the expired entries of a device, part by part, and answers how many.
fn expire<D: Disk, R: Wait>(
    alloc: Global,
    rt: &R,
    live: &Live<D>,
    pass: &mut LivePass<D>,
    now: u64,
) -> Result<u64, WriteRefusal>
    requires pass { IsPassAt live.now pass.old }
    requires time { now ≤ 2 ^ 61 }
    ensures pass { IsPassAt live.now pass.new }
    ensures numbers { KeepsNumbers pass.old pass.new }
    ensures expires { (outcome : Outcome) × IsExpired result outcome × Expires D.view now (known_of live.now pass.old) (known_of live.now pass.new) outcome }
{
    let mut removed: u64 = 0;
    for part in 0..live.parts() {
        match live.expire_part(alloc, rt, pass, part, now) {
            Ok(here) => removed = removed.wrapping_add(here),
            Err(refusal) => return Err(refusal.cause),
        }
    }
    Ok(removed)
}

// Removes the expired entries of each device, in order, and answers how many. It stops at the first that is refused.
pub(crate) fn expire_each<D: Disk, R: Wait>(
    alloc: Global,
    rt: &R,
    lives: &[Live<D>],
    passes: &mut [LivePass<D>],
    now: u64,
) -> Result<u64, WriteRefusal>
    requires passes { ArePasses lives.now passes.old }
    requires time { now ≤ 2 ^ 61 }
    ensures passes { ArePasses lives.now passes.new }
    ensures numbers { KeepNumbers passes.old passes.new }
    ensures expires { (outcome : Outcome) × IsExpired result outcome × EachDevice (Expires D.view now) (known_each lives.now passes.old) (known_each lives.now passes.new) 0 0 outcome }
{
    let mut removed: u64 = 0;
    for (device, live) in lives.iter().enumerate() {
        match expire(alloc, rt, live, &mut passes[device], now) {
            Ok(here) => removed = removed.wrapping_add(here),
            Err(refusal) => return Err(refusal),
        }
    }
    Ok(removed)
}

// The numbers of all devices together, each as its pass has then seen it.
pub(crate) fn counts_each<D: Disk, R: Wait>(
    rt: &R,
    lives: &[Live<D>],
    passes: &mut [LivePass<D>],
) -> Counts
    requires passes { ArePasses lives.now passes.old }
    requires few { length lives.now ≤ 16 }
    ensures passes { ArePasses lives.now passes.new }
    ensures numbers { KeepNumbers passes.old passes.new }
    ensures looks { EachPair (LooksAt D.view) (known_each lives.now passes.old) (known_each lives.now passes.new) }
    ensures counts { result ≡ node_counts (map (slot_of D.view) (known_each lives.now passes.new)) }
{
    let mut sum = NO_COUNTS;
    for (device, live) in lives.iter().enumerate() {
        sum = plus(sum, live.counts(rt, &mut passes[device]));
    }
    sum
}
