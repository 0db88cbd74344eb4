// A whole device, read and counted.
ghost use Rattle.std.specs.Prelude.{IfOk, IfErr, MatchResult};
ghost use Rattle.disk_model.specs.Disk.{IsOnly};
ghost use Rattle.block_shelf.specs.Disks.{OnlyRead};
ghost use Rattle.cold_scan.specs.Starting.{IsRefused, IsByBytes, FaultRose};
ghost use Rattle.device_check.specs.Checked.{ChecksOn};

use crate::DeviceCheck;
use crate::counts::{kinds_of, opened_of};
use cold_scan::{Asked, Finding, StartRefusal, scan};
use disk_model::Disk;
use std::alloc::Global;

/// At `Ok` what is on the device, counted, with its disk; nothing was written, and a crash leaves just what was read, of a disk that tells
/// its bytes. It reads the device as a cold start does, and one that a start refuses is refused for the same cause, with its disk.
pub fn check_device<D: Disk>(
    alloc: Global,
    disk: D,
    asked: Asked,
) -> Result<(D, DeviceCheck), StartRefusal<D>>
    ensures checked { IfOk result (λ r. ChecksOn asked (D.view disk) r.1) }
    ensures refused { (D.view disk).tells → IfErr result (λ refusal. IsRefused asked (D.view disk).seen refusal.cause) }
    ensures only { (D.view disk).tells → IfOk result (λ r. IsOnly (D.view disk).seen (D.view r.0).may_leave) }
    ensures settled { (D.view disk).tells → IfErr result (λ refusal. IsByBytes refusal.cause → IsOnly (D.view disk).seen (D.view refusal.disk).may_leave) }
    ensures cause { IfErr result (λ refusal. FaultRose refusal.cause (D.view disk).faults (D.view refusal.disk).faults) }
    ensures read { MatchResult result (λ r. OnlyRead (D.view disk) (D.view r.0)) (λ refusal. OnlyRead (D.view disk) (D.view refusal.disk)) }
{
    let finding = match scan(alloc, disk, asked) {
        Ok(finding) => finding,
        Err(refusal) => return Err(refusal),
    };
    let opened = opened_of(&finding.gates);
    let (records, tombstones) = kinds_of(&finding.latest);
    let check = DeviceCheck {
        opened,
        copies: finding.copies,
        records,
        tombstones,
    };
    let Finding {
        disk,
        geometry: _,
        gates: _,
        latest: _,
        copies: _,
        next_number: _,
    } = finding;
    Ok((disk, check))
}
