// How the devices of a node are started from their disks, and how the disks are given back.
ghost use Rattle.std.specs.Prelude.{◌≡◌, ◌≤◌, ◌+◌, ◌++◌, [], reverse, vec_len, vec_capacity, MatchResult};
ghost use Rattle.shard_core.specs.View.{IsSettings};
ghost use Rattle.core_run.specs.Views.{AreDevices, disks_served};
ghost use Rattle.core_run.specs.Starts.{StartsEach, StopsAt, RefusesAt};

use disk_model::Disk;
use shard_core::{Asked, Settings, Shard, StartCause, StartRefusal};
use std::alloc::Global;

// Stops each device, the last first, and puts its disk behind those that are there.
fn stop_each<D: Disk>(shards: &mut Vec<Shard<D>>, disks: &mut Vec<D>)
    requires room { vec_len disks.old + vec_len shards.old ≤ vec_capacity disks.old }
    ensures disks { disks.new.items ≡ disks.old.items ++ reverse (disks_served shards.old.items) }
    ensures none { shards.new.items ≡ [] }
    ensures room { (vec_capacity shards.new ≡ vec_capacity shards.old) × (vec_capacity disks.new ≡ vec_capacity disks.old) }
{
    while let Some(shard) = shards.pop() {
        disks.push_reserved(shard.stop());
    }
}

/// Stops each device, and puts its disk in front of those that are there, which are turned around. What the write buffers have is lost,
/// as by a crash.
pub fn stop_all<D: Disk>(shards: &mut Vec<Shard<D>>, disks: &mut Vec<D>)
    requires room { vec_len disks.old + vec_len shards.old ≤ vec_capacity disks.old }
    ensures disks { disks.new.items ≡ disks_served shards.old.items ++ reverse disks.old.items }
    ensures none { shards.new.items ≡ [] }
    ensures room { (vec_capacity shards.new ≡ vec_capacity shards.old) × (vec_capacity disks.new ≡ vec_capacity disks.old) }
{
    stop_each(shards, disks);
    disks.reverse();
}

// Starts a device from each disk, the last disk first, up to one that is refused, which is put back.
fn start_each<D: Disk>(
    alloc: Global,
    disks: &mut Vec<D>,
    shards: &mut Vec<Shard<D>>,
    devices: u16,
    set: Settings,
) -> Result<(), (u16, StartCause)>
    requires none { shards.old.items ≡ [] }
    requires room { vec_len disks.old ≤ vec_capacity shards.old }
    requires few { (vec_len disks.old ≡ devices) × (devices ≤ 16) }
    requires set { IsSettings set }
    ensures starts { MatchResult result (λ _. StartsEach D.view set 0 devices (reverse disks.old.items) shards.new.items × (disks.new.items ≡ []))
        (λ why. StopsAt D.view set why.0 0 devices why.1 (reverse disks.old.items) shards.new.items (reverse disks.new.items)) }
    ensures count { vec_len disks.new + vec_len shards.new ≡ vec_len disks.old }
    ensures room { (vec_capacity shards.new ≡ vec_capacity shards.old) × (vec_capacity disks.new ≡ vec_capacity disks.old) }
{
    while let Some(disk) = disks.pop() {
        let device = shards.len() as u16;
        match Shard::start(alloc, disk, Asked { device, devices }, set) {
            Ok(shard) => shards.push_reserved(shard),
            Err(StartRefusal { disk, cause }) => {
                disks.push_reserved(disk);
                return Err((device, cause));
            }
        }
    }
    Ok(())
}

/// At `Ok` each disk is that of a device in use, in order, and nothing was written. Where one is refused it tells which and why, and
/// gives the disks back.
pub fn start_all<D: Disk>(
    alloc: Global,
    disks: &mut Vec<D>,
    shards: &mut Vec<Shard<D>>,
    set: Settings,
) -> Result<(), (u16, StartCause)>
    requires none { shards.old.items ≡ [] }
    requires room { (vec_len disks.old ≤ vec_capacity shards.old) × (vec_len disks.old ≤ vec_capacity disks.old) }
    requires few { vec_len disks.old ≤ 16 }
    requires set { IsSettings set }
    ensures starts { MatchResult result (λ _. StartsEach D.view set 0 (vec_len disks.old) disks.old.items shards.new.items × (disks.new.items ≡ []))
        (λ why. RefusesAt D.view set why.0 0 (vec_len disks.old) why.1 disks.old.items disks.new.items × (shards.new.items ≡ [])) }
    ensures room { (vec_capacity shards.new ≡ vec_capacity shards.old) × (vec_capacity disks.new ≡ vec_capacity disks.old) }
{
    let devices = disks.len() as u16;
    disks.reverse();
    if let Err(why) = start_each(alloc, disks, shards, devices, set) {
        stop_all(shards, disks);
        return Err(why);
    }
    Ok(())
}
