// The body of a block, read from bytes.
ghost use Rattle.std.specs.Prelude.{◌≡◌, ◌+◌, ◌*◌, ◌^◌, ◌<◌, ◌≤◌, ◌↔◌, ℕ, [], length, Some, IfOk, IfErr, IfSome, IfNone, OnOk, OnErr, vec_capacity};
ghost use Rattle.block_format.specs.Layout.{IsHead, most_records};
ghost use Rattle.block_format.specs.declared.body.BodyHead.{BodyHead};
ghost use Rattle.block_format.specs.Readings.{AreThere, AreUnreadBy, AtMostOneBody, AtMostOneFault, HasDigests, HasNoNext, HasRecords, IsListing, IsNext, IsNumbered, IsReading, IsUnreadAt, IsUnreadBy, StopsAt, body_capacity};

use crate::geometry::{BodyRefusal, Found};
use crate::head::{BODY_HEAD_BYTES, head_of};
use rec_format::{Digest, UNIT_BYTES, check_record, u32_at, u64_at};
use std::alloc::Global;

/// Buffer numbers end here.
const TOP_NUMBER: u64 = 1 << 62;

/// The bytes of the largest body: a block of 1 MiB without its gate sector.
pub const MAX_BODY_BYTES: usize = 1_044_480;

/// The units of the largest body.
const MAX_UNITS: u32 = 65_278;

/// What the head of a body tells, but for its block.
#[derive(Clone, Copy)]
struct BodyHead {
    number: u64,
    records: u32,
    units: u32,
}

/// The head of a body of this block; none exactly where there is none at the front of the bytes.
fn read_head(bytes: &[u8], capacity: u32, block: u32) -> Option<BodyHead>
    requires { BODY_HEAD_BYTES ≤ length bytes.now }
    ensures { (h : BodyHead) → (result ≡ Some h)
        ↔ IsHead capacity bytes.now h.number h.records h.units block }
{
    let number = u64_at(bytes, 8);
    let records = u32_at(bytes, 16);
    let units = u32_at(bytes, 20);
    if TOP_NUMBER < number || capacity < units {
        return None;
    }
    // These fields have one head, so that the bytes are compared with it.
    if bytes[..BODY_HEAD_BYTES] != head_of(number, records, units, block)[..] {
        return None;
    }
    Some(BodyHead {
        number,
        records,
        units,
    })
}

/// The head of a body of this block that fills these bytes; none exactly where there is none.
fn head_in(body: &[u8], block: u32) -> Option<BodyHead>
    requires head { BODY_HEAD_BYTES ≤ length body.now }
    requires size { length body.now ≤ MAX_BODY_BYTES }
    ensures head { IfSome result (λ h. IsHead (body_capacity body.now) body.now h.number h.records h.units block) }
    ensures fits { IfSome result (λ h. (32 + 16 * h.units ≤ length body.now) × (h.units ≤ MAX_UNITS)) }
    ensures none { IfNone result (IsUnreadAt body.now block 0) }
{
    let capacity = ((body.len() - BODY_HEAD_BYTES) / UNIT_BYTES) as u32;
    read_head(body, capacity, block)
}

/// The place behind so many units.
fn record_place(used: u32) -> u32
    requires { used ≤ MAX_UNITS }
    ensures { result ≡ 32 + 16 * used }
{
    32 + 16 * used
}

/// The record behind `used` units; none exactly where no record stands there that stays within `units`.
fn next_record(body: &[u8], used: u32, units: u32) -> Option<Found>
    requires body { 32 + 16 * units ≤ length body.now }
    requires used { used ≤ units }
    requires small { units ≤ MAX_UNITS }
    ensures next { IfSome result (IsNext body.now used units) }
    ensures none { IfNone result (HasNoNext body.now used units) }
{
    let rest = &body[record_place(used) as usize..];
    match check_record(rest) {
        Ok((head, taken)) if taken <= units - used => Some(Found {
            head,
            unit: used,
            units: taken,
        }),
        _ => None,
    }
}

/// The heads of the records behind a body's head.
fn read_records(alloc: Global, body: &[u8], head: &BodyHead) -> Result<Vec<Found>, BodyRefusal>
    requires body { 32 + 16 * head.now.units ≤ length body.now }
    requires small { head.now.units ≤ MAX_UNITS }
    ensures found { IfOk result
        (λ found. HasRecords body.now head.now.records head.now.units found.items) }
    ensures refused { IfErr result (AreUnreadBy body.now head.now.records head.now.units) }
{
    let mut found = Vec::new(alloc);
    let mut used = 0;
    for _record in 0..head.records {
        let Some(next) = next_record(body, used, head.units) else {
            return Err(BodyRefusal::Bad {
                place: record_place(used),
            });
        };
        let Ok(()) = found.push(next) else {
            return Err(BodyRefusal::Memory);
        };
        used += next.units;
    }
    if used != head.units {
        return Err(BodyRefusal::Bad {
            place: record_place(used),
        });
    }
    Ok(found)
}

/// Whether the records behind a body's head are there; if not, the place of the first fault.
fn check_records(body: &[u8], head: &BodyHead) -> Result<(), u32>
    requires body { 32 + 16 * head.now.units ≤ length body.now }
    requires small { head.now.units ≤ MAX_UNITS }
    ensures there { OnOk result (AreThere body.now head.now.records head.now.units) }
    ensures refused { IfErr result (StopsAt body.now head.now.records head.now.units) }
{
    let mut used = 0;
    for _record in 0..head.records {
        let Some(next) = next_record(body, used, head.units) else {
            return Err(record_place(used));
        };
        used += next.units;
    }
    if used == head.units {
        Ok(())
    } else {
        Err(record_place(used))
    }
}

/// The digests of the records behind a body's head come behind those that are listed.
fn list_records(body: &[u8], head: &BodyHead, digests: &mut Vec<Digest>) -> Result<(), u32>
    requires body { 32 + 16 * head.now.units ≤ length body.now }
    requires small { head.now.units ≤ MAX_UNITS }
    requires empty { digests.old.items ≡ [] }
    requires room { most_records head.now.units ≤ vec_capacity digests.old }
    ensures listed { OnOk result (HasDigests body.now head.now.records head.now.units digests.new.items) }
    ensures refused { IfErr result (StopsAt body.now head.now.records head.now.units) }
    ensures room { vec_capacity digests.new ≡ vec_capacity digests.old }
{
    let mut used = 0;
    for _record in 0..head.records {
        let Some(next) = next_record(body, used, head.units) else {
            return Err(record_place(used));
        };
        digests.push_reserved(next.head.digest);
        used += next.units;
    }
    if used == head.units {
        Ok(())
    } else {
        Err(record_place(used))
    }
}

/// The body at the front of some bytes: its buffer number, and its records' heads in order. What stands behind it is
/// free.
///
/// `Bad` is the place of the first fault, exactly where no body of this block is there: 0 for the head; a record's
/// place where it isn't one or would pass the units that the head gives; the place behind the last record where their
/// units aren't the head's. Memory is taken for records that were found alone, whatever number the head tells.
pub fn read_body(alloc: Global, body: &[u8], block: u32) -> Result<(u64, Vec<Found>), BodyRefusal>
    requires head { BODY_HEAD_BYTES ≤ length body.now }
    requires size { length body.now ≤ MAX_BODY_BYTES }
    ensures read { IfOk result (λ r. IsReading body.now block r.0 r.1.items) }
    ensures refused { IfErr result (IsUnreadBy body.now block) }
    ensures one_body { AtMostOneBody }
    ensures one_fault { AtMostOneFault }
{
    let Some(head) = head_in(body, block) else {
        return Err(BodyRefusal::Bad { place: 0 });
    };
    match read_records(alloc, body, &head) {
        Ok(found) => Ok((head.number, found)),
        Err(refusal) => Err(refusal),
    }
}

/// The buffer number of the body at the front of some bytes, or the place of the first fault, as `read_body` tells them. It looks at
/// the whole body, and takes no memory.
pub fn check_body(body: &[u8], block: u32) -> Result<u64, u32>
    requires head { BODY_HEAD_BYTES ≤ length body.now }
    requires size { length body.now ≤ MAX_BODY_BYTES }
    ensures there { IfOk result (IsNumbered body.now block) }
    ensures refused { IfErr result (IsUnreadAt body.now block) }
{
    let Some(head) = head_in(body, block) else {
        return Err(0);
    };
    match check_records(body, &head) {
        Ok(()) => Ok(head.number),
        Err(place) => Err(place),
    }
}

/// At `Ok` the list has the digests of the records of the body at the front of some bytes, in their order; else it is empty, and the
/// place of the first fault is told, as `read_body` tells it. It takes no memory: the list has room for the most records of a body.
pub fn digests_of(body: &[u8], block: u32, digests: &mut Vec<Digest>) -> Result<(), u32>
    requires head { BODY_HEAD_BYTES ≤ length body.now }
    requires size { length body.now ≤ MAX_BODY_BYTES }
    requires room { most_records (body_capacity body.now) ≤ vec_capacity digests.old }
    ensures listed { OnOk result (IsListing body.now block digests.new.items) }
    ensures refused { IfErr result (IsUnreadAt body.now block) }
    ensures empty { OnErr result (digests.new.items ≡ []) }
    ensures few { length digests.new.items ≤ most_records (body_capacity body.now) }
    ensures room { vec_capacity digests.new ≡ vec_capacity digests.old }
{
    digests.clear();
    let Some(head) = head_in(body, block) else {
        return Err(0);
    };
    match list_records(body, &head, digests) {
        Ok(()) => Ok(()),
        Err(place) => {
            digests.clear();
            Err(place)
        }
    }
}
