// How a device is taken into use: what a scan of it found, and the shard that begins with it.
ghost use Rattle.std.specs.Prelude.{◌≡◌, ◌≤◌, List, [], length, IfOk, IfErr, MatchResult};
ghost use Rattle.std.specs.List.{AllByRecursion};
ghost use Rattle.disk_model.specs.Disk.{IsOnly, IsHonest};
ghost use Rattle.block_format.specs.Layout.{IsGeometry, device_end, Body};
ghost use Rattle.law_start.specs.Start.{start_state};
ghost use Rattle.law_start.specs.Sound.{IsSound};
ghost use Rattle.block_shelf.specs.View.{AreSure, GatesStand};
ghost use Rattle.block_shelf.specs.Disks.{OnlyRead};
ghost use Rattle.cold_scan.specs.Starting.{IsRefused, IsByBytes, FaultRose};
ghost use Rattle.cold_scan.specs.Found.{IsSure, FindsOn, IsShaped};
ghost use Rattle.model_device.specs.Device.{State};
ghost use Rattle.shard_core.specs.View.{ShardView, IsSettings, setup_of};
ghost use Rattle.shard_core.specs.Stands.{Agrees, IsSafe};
ghost use Rattle.shard_core.specs.Again.{StartsAgain, IsNoRefusal};
ghost use Rattle.shard_core.specs.Starting.{Begins, StandsForBodies};
ghost use Rattle.shard_core.specs.Finding.{IsFinding, BeginsOver, BeginsBehind};

use crate::counts::tally_sum;
use crate::index::{Finding, index_of};
use crate::sprigs::live_copies;
use crate::{Asked, Settings, Shard, StartCause, StartRefusal};
use block_format::{Gate, Geometry, capacity, most_records};
use block_shelf::{Shelf, ShelfLimits};
use cold_scan::{Finding as Scanned, scan};
use disk_model::Disk;
use std::alloc::Global;

// The shard that begins with what was found.
fn begun<D: Disk>(
    alloc: Global,
    disk: D,
    geometry: Geometry,
    gates: Vec<Gate>,
    set: Settings,
    finding: Finding,
) -> Result<Shard<D>, StartRefusal<D>>
    requires geometry { IsGeometry geometry }
    requires room { device_end geometry ≤ (D.view disk).extent }
    requires settings { IsSettings set }
    requires count { length gates.items ≡ geometry.blocks }
    requires sure { AllByRecursion IsSure gates.items }
    requires stand { IsHonest (D.view disk) → GatesStand geometry (D.view disk).may_leave gates.items }
    requires found { (bodies : List Body) × IsFinding geometry set gates.items geometry.blocks bodies finding }
    ensures sure { IfOk result (λ shard. AreSure shard.shelf.gates) }
    ensures begun { MatchResult result (BeginsOver disk geometry set finding) (λ refusal. (refusal.disk ≡ disk) × (refusal.cause ≡ StartCause.Memory)) }
    ensures behind { IfOk result (λ shard. (bodies : List Body) → IsFinding geometry set gates.items geometry.blocks bodies finding → BeginsBehind D.view disk bodies shard) }
{
    let Finding { sprigs, greatest } = finding;
    let Ok(live) = live_copies(alloc, &sprigs) else {
        return Err(StartRefusal {
            disk,
            cause: StartCause::Memory,
        });
    };
    let most = most_records(capacity(geometry.block_size));
    let Ok(listed) = Vec::with_capacity(alloc, most as usize) else {
        return Err(StartRefusal {
            disk,
            cause: StartCause::Memory,
        });
    };
    let limits = ShelfLimits {
        sprigs: set.sprigs,
        lwm: set.lwm,
        pending: set.pending,
        cache: set.cache,
    };
    match Shelf::new(alloc, disk, geometry, gates, greatest + 1, &live, limits) {
        Ok(shelf) => {
            let tally = tally_sum(&sprigs);
            Ok(Shard {
                shelf,
                set,
                sprigs,
                tally,
                listed,
            })
        }
        Err((disk, _)) => Err(StartRefusal {
            disk,
            cause: StartCause::Memory,
        }),
    }
}

impl<D: Disk> Shard<D> {
    /// At `Ok` the device is served from what its disk holds, of each digest of the device the latest copy; nothing was written, and a
    /// crash leaves just what a read gives, on a disk that tells its bytes. From a sound image of an honest disk the device is sound. It
    /// syncs, and reads the header, then each gate, then the bodies behind the open ones. A refusal tells why, and hands the disk back;
    /// where the bytes are the cause a crash leaves just these, on a disk that tells them.
    pub fn start(
        alloc: Global,
        disk: D,
        asked: Asked,
        set: Settings,
    ) -> Result<Shard<D>, StartRefusal<D>>
        requires { IsSettings set }
        ensures stands { IfOk result (StandsForBodies D.view asked (D.view disk)) }
        ensures begins { (D.view disk).tells → MatchResult result (λ shard. Begins asked (D.view disk).seen shard) (λ refusal. IsRefused asked (D.view disk).seen refusal.cause) }
        ensures safe { IsHonest (D.view disk) → IfOk result (λ shard. (bodies : List Body) → IsSound (setup_of shard) (D.view disk).seen bodies
            → IsSafe D.view shard (start_state (setup_of shard) bodies)) }
        ensures only { (D.view disk).tells → IfOk result (λ shard. IsOnly (D.view disk).seen (D.view shard.shelf.disk).may_leave) }

        // It is known of each gate whether it is set, over every disk.
        ensures sure { IfOk result (λ shard. AreSure shard.shelf.gates) }
        ensures settled { (D.view disk).tells → IfErr result (λ refusal. IsByBytes refusal.cause → IsOnly (D.view disk).seen (D.view refusal.disk).may_leave) }
        ensures again { IsHonest (D.view disk) → (old : ShardView D) (s : State) → old.shelf.disk ≡ disk → old.set ≡ set → old.shelf.geometry.device ≡ asked.device → old.shelf.geometry.devices ≡ asked.devices
            → Agrees old s → IsSafe D.view old s → MatchResult result (StartsAgain D.view old s) (λ refusal. IsNoRefusal refusal.cause) }
        ensures kept { IfOk result (λ shard. shard.shelf.cache ≡ record { kept = []; limit = set.cache }) }
        ensures shape { IfOk result (λ shard. (shard.set ≡ set) × (shard.shelf.geometry.device ≡ asked.device) × (shard.shelf.geometry.devices ≡ asked.devices)) }
        ensures read { MatchResult result (λ shard. OnlyRead (D.view disk) (D.view shard.shelf.disk)) (λ refusal. OnlyRead (D.view disk) (D.view refusal.disk)) }
        ensures cause { IfErr result (λ refusal. FaultRose refusal.cause (D.view disk).faults (D.view refusal.disk).faults) }
    {
        let Scanned {
            disk,
            geometry,
            gates,
            latest,
            next_number,
            copies: _,
        } = scan(alloc, disk, asked)?;
        let Ok(sprigs) = index_of(alloc, &geometry, &set, latest) else {
            return Err(StartRefusal {
                disk,
                cause: StartCause::Memory,
            });
        };
        let finding = Finding {
            sprigs,
            greatest: next_number - 1,
        };
        begun(alloc, disk, geometry, gates, set, finding)
    }
}
