// Records read from bytes.
ghost use Rattle.std.specs.Prelude.{◌≡◌, ◌≤◌, ◌↔◌, false, None, Some, Ok, IfOk, IfErr, OnOk, length};
ghost use Rattle.std.specs.Option.{option_map};
ghost use Rattle.rec_format.specs.RecordFlaws.{IsRefusedBy, flaw_of, has_wrong_flags, has_wrong_length, has_wrong_magic, has_wrong_padding, has_wrong_stamp, head_flaw, head_in, record_flaw};
ghost use Rattle.rec_format.specs.RecordText.{BeginsWith, BeginsWithHead, BeginsWithNone, CanBeHead, NoTextBeginsAnother, head_text};
ghost use Rattle.rec_format.specs.Versions.{version_units};

use crate::bytes::Bytes;
use crate::fields::{u16_at, u32_at, u64_at};
use crate::stamps::TOP_TIME;
use crate::version::{BadRec, Digest, Head, Kind, ParseRefusal, Stamp, Version};
use crate::writing::{HEAD_BYTES, MAGIC, UNIT_BYTES, units_of};
use std::alloc::Global;

fn is_magic_wrong(bytes: &[u8]) -> bool
    requires { HEAD_BYTES ≤ length bytes.now }
    ensures { result ≡ has_wrong_magic bytes.now }
{
    bytes[..4] != MAGIC[..]
}

fn are_flags_wrong(bytes: &[u8]) -> bool
    requires { HEAD_BYTES ≤ length bytes.now }
    ensures { result ≡ has_wrong_flags bytes.now }
{
    let flags = bytes[26];
    if flags != 0 && flags != 2 && flags != 3 || bytes[27] != 0 {
        return true;
    }
    flags == 3 && (u32_at(bytes, 4) != 0 || u64_at(bytes, 16) != 0)
}

fn is_stamp_wrong(bytes: &[u8]) -> bool
    requires { HEAD_BYTES ≤ length bytes.now }
    ensures { result ≡ has_wrong_stamp bytes.now }
{
    let time = u64_at(bytes, 8);
    u16_at(bytes, 24) == 0 || time == 0 || TOP_TIME < time
}

fn is_length_wrong(bytes: &[u8]) -> bool
    requires { HEAD_BYTES ≤ length bytes.now }
    ensures { result ≡ has_wrong_length bytes.now }
{
    bytes.len() < UNIT_BYTES * units_of(u32_at(bytes, 4)) as usize
}

fn is_padding_wrong(bytes: &[u8]) -> bool
    requires head { HEAD_BYTES ≤ length bytes.now }
    requires whole { has_wrong_length bytes.now ≡ false }
    ensures { result ≡ has_wrong_padding bytes.now }
{
    let size = u32_at(bytes, 4);
    let end = HEAD_BYTES + size as usize;
    let whole = UNIT_BYTES * units_of(size) as usize;
    bytes[end..whole].iter().any(|b| *b != 0)
}

/// The fields of a head, whether or not they are right.
fn read_head(bytes: &[u8]) -> Head
    requires { HEAD_BYTES ≤ length bytes.now }
    ensures { result ≡ head_in bytes.now }
{
    let flags = bytes[26];
    let mut digest = [0; 20];
    digest.copy_from_slice(&bytes[28..HEAD_BYTES]);
    Head {
        digest: Digest(digest),
        kind: if flags == 3 { Kind::Tomb } else { Kind::Put },
        stamp: Stamp {
            lut: u64_at(bytes, 8),
            gen_: u16_at(bytes, 24),
        },
        void: u64_at(bytes, 16),
        cover: flags != 0,
        length: u32_at(bytes, 4),
    }
}

/// At `Ok` the fields of 48 bytes as the head of a record, whatever stands behind them. An `Err` is `Magic`, `Flags`
/// or `Stamp`, the first that applies, exactly where they are no head.
pub fn parse_head(bytes: &[u8; HEAD_BYTES]) -> Result<Head, BadRec>
    ensures head { (h : Head) → (result ≡ Ok h) ↔ (CanBeHead h × (bytes.now ≡ head_text h)) }
    ensures bad { IfErr result (λ b. head_flaw bytes.now ≡ Some (flaw_of b)) }
{
    if is_magic_wrong(bytes) {
        return Err(BadRec::Magic);
    }
    if are_flags_wrong(bytes) {
        return Err(BadRec::Flags);
    }
    if is_stamp_wrong(bytes) {
        return Err(BadRec::Stamp);
    }
    Ok(read_head(bytes))
}

/// The first flaw of a record at the front of some bytes.
fn flaw_in(bytes: &[u8]) -> Option<BadRec>
    ensures { option_map flaw_of result ≡ record_flaw bytes.now }
{
    if bytes.len() < HEAD_BYTES {
        return Some(BadRec::Short);
    }
    if is_magic_wrong(bytes) {
        return Some(BadRec::Magic);
    }
    if is_length_wrong(bytes) {
        return Some(BadRec::Length);
    }
    if are_flags_wrong(bytes) {
        return Some(BadRec::Flags);
    }
    if is_padding_wrong(bytes) {
        return Some(BadRec::Padding);
    }
    if is_stamp_wrong(bytes) {
        return Some(BadRec::Stamp);
    }
    None
}

/// At `Ok` the head and the units of the record at the front of some bytes, without its payload and without taking
/// memory. What stands behind the record is free. An `Err` names the first flaw, exactly where no record stands at
/// the front.
pub fn check_record(bytes: &[u8]) -> Result<(Head, u32), BadRec>
    ensures found { IfOk result (λ r. BeginsWithHead bytes.now r.0 r.1) }
    ensures bad { IfErr result (λ b. (record_flaw bytes.now ≡ Some (flaw_of b)) × BeginsWithNone bytes.now) }
{
    if let Some(bad) = flaw_in(bytes) {
        return Err(bad);
    }
    let head = read_head(bytes);
    Ok((head, units_of(head.length)))
}

/// The record at the front of some bytes: its digest, its version and its units. What stands behind it is free.
///
/// `Bad` names the first flaw, exactly where no record stands at the front. Memory is taken for the payload alone, once
/// the whole record has been found.
pub fn parse(alloc: Global, bytes: &[u8]) -> Result<(Digest, Version, u32), ParseRefusal>
    ensures found { IfOk result (λ r. BeginsWith bytes.now r.0 r.1 × (r.2 ≡ version_units r.1)) }
    ensures only { IfOk result (λ r. (d : Digest) (v : Version) → BeginsWith bytes.now d v
        → (d ≡ r.0) × (v ≡ r.1)) }
    ensures flawless { OnOk result (record_flaw bytes.now ≡ None) }
    ensures refused { IfErr result (IsRefusedBy bytes.now) }
    ensures apart { NoTextBeginsAnother }
{
    if let Some(bad) = flaw_in(bytes) {
        return Err(ParseRefusal::Bad(bad));
    }
    let head = read_head(bytes);
    let end = HEAD_BYTES + head.length as usize;
    let Ok(payload) = Vec::from_slice(alloc, &bytes[HEAD_BYTES..end]) else {
        return Err(ParseRefusal::Memory);
    };
    let version = Version {
        kind: head.kind,
        stamp: head.stamp,
        void: head.void,
        cover: head.cover,
        payload: Bytes::from_vec(payload),
    };
    Ok((head.digest, version, units_of(head.length)))
}
