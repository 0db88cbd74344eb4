// A cold start's reading of a whole device.
ghost use Rattle.std.specs.Prelude.{IfOk, IfErr, MatchResult};
ghost use Rattle.disk_model.specs.Disk.{IsOnly};
ghost use Rattle.block_shelf.specs.Disks.{OnlyRead};
ghost use Rattle.cold_scan.specs.Starting.{IsRefused, IsByBytes, FaultRose};
ghost use Rattle.cold_scan.specs.Found.{IsShaped, IsScanned, FindsOn};

use crate::bodies::{Taken, open_bodies};
use crate::gates::read_gates;
use crate::header::shape_of;
use crate::{Asked, Kept, StartCause};
use block_format::{Gate, Geometry};
use disk_model::Disk;
use rec_format::Digest;
use std::alloc::Global;
use std::collections::BTreeMap;

/// What a cold start found on a device: its shape and its gates, the latest copy of each digest that belongs to it, how many records
/// the open blocks have, and the number that the next buffer takes.
pub struct Finding<D> {
    pub disk: D,
    pub geometry: Geometry,
    pub gates: Vec<Gate>,
    pub latest: BTreeMap<Digest, Kept>,
    pub copies: u64,
    pub next_number: u64,
}

/// A device that isn't taken into use, with its disk.
#[derive(Drop)]
pub struct StartRefusal<D> {
    pub disk: D,
    pub cause: StartCause,
}

// The shape, the gates, and what the open blocks have.
fn examine<D: Disk>(
    alloc: Global,
    disk: &mut D,
    asked: Asked,
) -> Result<(Geometry, Vec<Gate>, Taken), StartCause>
    ensures read { OnlyRead (D.view disk.old) (D.view disk.new) }
    ensures shape { IfOk result (λ r. IsShaped asked (D.view disk.new).extent r.0) }
    ensures found { IfOk result (λ r. IsScanned asked (D.view disk.old) r.0 r.1.items r.2) }
    ensures refused { (D.view disk.old).tells → IfErr result (λ cause. IsRefused asked (D.view disk.old).seen cause) }
    ensures only { (D.view disk.old).tells → IfOk result (λ r. IsOnly (D.view disk.old).seen (D.view disk.new).may_leave) }
    ensures settled { (D.view disk.old).tells → IfErr result (λ cause. IsByBytes cause → IsOnly (D.view disk.old).seen (D.view disk.new).may_leave) }
    ensures cause { IfErr result (λ cause. FaultRose cause (D.view disk.old).faults (D.view disk.new).faults) }
{
    let Ok(()) = disk.sync() else {
        return Err(StartCause::Fault);
    };
    let geometry = match shape_of(disk, asked) {
        Ok(geometry) => geometry,
        Err(cause) => return Err(cause),
    };
    let gates = match read_gates(alloc, disk, &geometry) {
        Ok(gates) => gates,
        Err(cause) => return Err(cause),
    };
    match open_bodies(alloc, disk, &geometry, &gates) {
        Ok(taken) => Ok((geometry, gates, taken)),
        Err(cause) => Err(cause),
    }
}

/// At `Ok` what a cold start finds on the device: its shape, its gates, and of each digest that belongs to it the latest copy, of equal
/// ones the first; nothing was written, and a crash leaves just what a read gives, of a disk that tells its bytes. It syncs, and reads
/// the header, then each gate, then the bodies behind the open ones, all in rising order. A fault ends it where it occurs. A refusal
/// tells why, and hands the disk back; where the bytes are the cause a crash leaves just these, of a disk that tells them.
pub fn scan<D: Disk>(
    alloc: Global,
    mut disk: D,
    asked: Asked,
) -> Result<Finding<D>, StartRefusal<D>>
    ensures found { IfOk result (λ finding. FindsOn asked (D.view disk) finding) }
    ensures refused { (D.view disk).tells → IfErr result (λ refusal. IsRefused asked (D.view disk).seen refusal.cause) }
    ensures cause { IfErr result (λ refusal. FaultRose refusal.cause (D.view disk).faults (D.view refusal.disk).faults) }
    ensures shape { IfOk result (λ finding. IsShaped asked (D.view finding.disk).extent finding.geometry) }
    ensures only { (D.view disk).tells → IfOk result (λ finding. IsOnly (D.view disk).seen (D.view finding.disk).may_leave) }
    ensures settled { (D.view disk).tells → IfErr result (λ refusal. IsByBytes refusal.cause → IsOnly (D.view disk).seen (D.view refusal.disk).may_leave) }
    ensures read { MatchResult result (λ finding. OnlyRead (D.view disk) (D.view finding.disk)) (λ refusal. OnlyRead (D.view disk) (D.view refusal.disk)) }
{
    match examine(alloc, &mut disk, asked) {
        Ok((geometry, gates, taken)) => Ok(Finding {
            disk,
            geometry,
            gates,
            latest: taken.latest,
            copies: taken.copies,
            next_number: taken.greatest + 1,
        }),
        Err(cause) => Err(StartRefusal { disk, cause }),
    }
}
