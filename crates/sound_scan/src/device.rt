// A whole device, audited.
ghost use Rattle.std.specs.Prelude.{◌≡◌, ◌≤◌, List, length, IfOk, IfErr, MatchResult};
ghost use Rattle.std.specs.List.{range_with_len};
ghost use Rattle.disk_model.specs.Disk.{IsOnly};
ghost use Rattle.block_format.specs.Layout.{IsGeometry, device_end, Body};
ghost use Rattle.block_format.specs.Copies.{HasBodies, copies_of};
ghost use Rattle.block_shelf.specs.Disks.{OnlyRead};
ghost use Rattle.cold_scan.specs.Starting.{IsRefused, IsByBytes, FaultRose};
ghost use Rattle.cold_scan.specs.Found.{AreGates};
ghost use Rattle.sound_scan.specs.Audited.{IsAudited, IsOf};
ghost use Rattle.sound_scan.specs.Opened.{IsOpened};

use crate::Verdict;
use crate::bodies::tally_of;
use crate::verdict::first_of;
use crate::walk::least_bare;
use block_format::{Gate, Geometry};
use cold_scan::{Asked, Finding, StartCause, StartRefusal, scan};
use disk_model::Disk;
use std::alloc::Global;

/// A device that was audited: its disk, and what its image was found to be.
pub struct Audit<D> {
    pub disk: D,
    pub verdict: Verdict,
}

/// A device that a start would take: its disk, its shape and its gates.
pub(crate) struct Opened<D> {
    pub(crate) disk: D,
    pub(crate) geometry: Geometry,
    pub(crate) gates: Vec<Gate>,
}

// The device as a cold start finds it, without its copies, whose memory is given back.
fn open_device<D: Disk>(alloc: Global, disk: D, asked: Asked) -> Result<Opened<D>, StartRefusal<D>>
    ensures opened { IfOk result (λ opened. IsOpened D.view asked disk opened) }
    ensures refused { (D.view disk).tells → IfErr result (λ refusal. IsRefused asked (D.view disk).seen refusal.cause) }
    ensures cause { IfErr result (λ refusal. FaultRose refusal.cause (D.view disk).faults (D.view refusal.disk).faults) }
    ensures settled { (D.view disk).tells → IfErr result (λ refusal. IsByBytes refusal.cause → IsOnly (D.view disk).seen (D.view refusal.disk).may_leave) }
    ensures read { MatchResult result (λ opened. OnlyRead (D.view disk) (D.view opened.disk)) (λ refusal. OnlyRead (D.view disk) (D.view refusal.disk)) }
{
    match scan(alloc, disk, asked) {
        Ok(
            Finding {
                disk,
                geometry,
                gates,
                latest: _,
                copies: _,
                next_number: _,
            },
        ) => Ok(Opened {
            disk,
            geometry,
            gates,
        }),
        Err(refusal) => Err(refusal),
    }
}

// What the copies behind the open gates are found to be.
fn judge<D: Disk>(
    alloc: Global,
    disk: &mut D,
    geometry: &Geometry,
    gates: &[Gate],
) -> Result<Verdict, StartCause>
    requires geometry { IsGeometry geometry.now }
    requires room { device_end geometry.now ≤ (D.view disk.old).extent }
    requires count { length gates.now ≡ geometry.now.blocks }
    ensures read { OnlyRead (D.view disk.old) (D.view disk.new) }
    ensures judged { (D.view disk.old).tells → AreGates geometry.now (D.view disk.old).seen gates.now → (bodies : List Body)
        → HasBodies geometry.now (D.view disk.old).seen (range_with_len 0 geometry.now.blocks) bodies
        → MatchResult result (IsOf geometry.now (copies_of bodies)) (λ cause. IsByBytes cause → ⊥) }
    ensures cause { IfErr result (λ cause. FaultRose cause (D.view disk.old).faults (D.view disk.new).faults) }
{
    match tally_of(alloc, disk, geometry, gates) {
        Ok(tally) => Ok(first_of(tally.stray, tally.twins, least_bare(&tally.past))),
        Err(cause) => Err(cause),
    }
}

/// At `Ok` what the image of the device was found to be, with its disk: sound, or the least digest at which a rule fails, and the first
/// rule that fails there, of a disk that tells its bytes. Nothing was written, and a crash leaves just what was read then. It reads the
/// device as a cold start does, and one that a start refuses is refused for the same cause, with its disk; then it reads the open bodies
/// once more. It has the memory of two bodies, and some eighty bytes for each digest and stamp that it finds.
pub fn sound_of<D: Disk>(alloc: Global, disk: D, asked: Asked) -> Result<Audit<D>, StartRefusal<D>>
    ensures audited { IfOk result (λ audit. IsAudited asked (D.view disk) audit.verdict) }
    ensures refused { (D.view disk).tells → IfErr result (λ refusal. IsRefused asked (D.view disk).seen refusal.cause) }
    ensures only { (D.view disk).tells → IfOk result (λ audit. IsOnly (D.view disk).seen (D.view audit.disk).may_leave) }
    ensures settled { (D.view disk).tells → IfErr result (λ refusal. IsByBytes refusal.cause → IsOnly (D.view disk).seen (D.view refusal.disk).may_leave) }
    ensures cause { IfErr result (λ refusal. FaultRose refusal.cause (D.view disk).faults (D.view refusal.disk).faults) }
    ensures read { MatchResult result (λ audit. OnlyRead (D.view disk) (D.view audit.disk)) (λ refusal. OnlyRead (D.view disk) (D.view refusal.disk)) }
{
    let Opened {
        mut disk,
        geometry,
        gates,
    } = match open_device(alloc, disk, asked) {
        Ok(opened) => opened,
        Err(refusal) => return Err(refusal),
    };
    match judge(alloc, &mut disk, &geometry, &gates) {
        Ok(verdict) => Ok(Audit { disk, verdict }),
        Err(cause) => Err(StartRefusal { disk, cause }),
    }
}
