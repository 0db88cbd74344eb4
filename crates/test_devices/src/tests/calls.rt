// Calls on a few digests, with what they were answered.
ghost use Rattle.std.specs.Prelude.{◌≡◌, ◌≤◌, ◌^◌};
ghost use Rattle.test_devices.specs.Trials.{IsAlone, IsShardAlone, IsGiven};

use disk_model::MemDisk;
use live_node::{Live, LivePass};
use rec_format::{Digest, Stamp, Version};
use shard_core::{Shard, WriteRefusal};
use std::alloc::{AllocError, Global};
use std::sync::Wait;

/// How many digests there are. Three at a time have one part.
pub const DIGESTS: u32 = 48;

const PARTS: u32 = 16;

// The longest payload.
const MOST_BYTES: usize = 120;

/// What is asked of a digest. A payload is named by a number.
#[derive(Clone, Copy, PartialEq, Eq)]
pub enum Ask {
    Put { expect: Option<u16>, payload: u32 },
    Get,
    Meta,
    Delete,
    Bury,
}

/// What is answered.
#[derive(Clone, Copy, PartialEq, Eq)]
pub enum Answer {
    Written { stamp: Stamp },
    Read { stamp: Stamp, payload: u32 },
    Known { stamp: Stamp, units: u32 },
    Nothing,
    Gone,
    /// Another generation was seen than the one that was expected, 0 where there is no record.
    Other { seen: u16 },
    /// What no call answers where there are memory and room, and the disk doesn't fail.
    Failed,
}

/// A call on the digest of a number, at a time in milliseconds.
#[derive(Clone, Copy, PartialEq, Eq)]
pub struct Call {
    pub digest: u32,
    pub now: u64,
    pub ask: Ask,
    pub answer: Answer,
}

/// The digest of a number.
pub fn digest_of(number: u32) -> Digest {
    let mut bytes = [0u8; 20];
    bytes[0] = (number % PARTS) as u8;
    bytes[19] = (number / PARTS % 256) as u8;
    Digest(bytes)
}

// How many words of 4 bytes the payload of a number has: 1 to 30.
fn words_of(payload: u32) -> u32
    ensures { result ≤ 30 }
{
    payload % 30 + 1
}

/// The units of the record of a payload, 16 bytes each: a head of 48 bytes and the payload.
pub fn units_of(payload: u32) -> u32 {
    (48 + words_of(payload) * 4).div_ceil(16)
}

// The payload of a number: the number itself, some times over.
fn payload_of(alloc: Global, payload: u32) -> Result<Vec<u8>, AllocError> {
    let mut bytes = Vec::new(alloc);
    for _ in 0..words_of(payload) {
        bytes.extend_from_slice(&payload.to_le_bytes())?;
    }
    Ok(bytes)
}

// The number of a payload, where it is one.
fn number_of(alloc: Global, bytes: &[u8]) -> Option<u32> {
    let first = bytes.first_chunk::<4>()?;
    let number = u32::from_le_bytes(*first);
    let whole = payload_of(alloc, number).ok()?;
    (whole.as_slice() == bytes).then_some(number)
}

fn read_answer(alloc: Global, version: &Version) -> Answer {
    match number_of(alloc, version.payload.as_slice()) {
        Some(payload) => Answer::Read {
            stamp: version.stamp,
            payload,
        },
        None => Answer::Failed,
    }
}

fn write_answer(answer: Result<Stamp, WriteRefusal>) -> Answer {
    match answer {
        Ok(stamp) => Answer::Written { stamp },
        Err(WriteRefusal::Gen { seen }) => Answer::Other { seen },
        Err(_) => Answer::Failed,
    }
}

fn put<R: Wait>(
    alloc: Global,
    rt: &R,
    live: &Live<MemDisk>,
    pass: &mut LivePass<MemDisk>,
    digest: &Digest,
    expect: Option<u16>,
    payload: u32,
    now: u64,
) -> Answer
    requires given { IsGiven live.now pass.old }
    requires alone { IsAlone live.now }
    requires now { now ≤ 2 ^ 61 }
    ensures given { IsGiven live.now pass.new }
{
    match payload_of(alloc, payload) {
        Ok(bytes) if bytes.len() <= MOST_BYTES => {
            write_answer(live.put(alloc, rt, pass, digest, 0, bytes.as_slice(), expect, now))
        }
        _ => Answer::Failed,
    }
}

fn get<R: Wait>(
    alloc: Global,
    rt: &R,
    live: &Live<MemDisk>,
    pass: &mut LivePass<MemDisk>,
    digest: &Digest,
    now: u64,
) -> Answer
    requires given { IsGiven live.now pass.old }
    requires alone { IsAlone live.now }
    requires now { now ≤ 2 ^ 61 }
    ensures given { IsGiven live.now pass.new }
{
    match live.get(alloc, rt, pass, digest, now) {
        Ok(Some(version)) => read_answer(alloc, &version),
        Ok(None) => Answer::Nothing,
        Err(_) => Answer::Failed,
    }
}

fn meta<R: Wait>(
    rt: &R,
    live: &Live<MemDisk>,
    pass: &mut LivePass<MemDisk>,
    digest: &Digest,
    now: u64,
) -> Answer
    requires given { IsGiven live.now pass.old }
    requires alone { IsAlone live.now }
    ensures given { IsGiven live.now pass.new }
{
    match live.meta(rt, pass, digest, now) {
        Some(meta) => Answer::Known {
            stamp: meta.stamp,
            units: meta.units,
        },
        None => Answer::Nothing,
    }
}

fn delete<R: Wait>(
    alloc: Global,
    rt: &R,
    live: &Live<MemDisk>,
    pass: &mut LivePass<MemDisk>,
    digest: &Digest,
    now: u64,
) -> Answer
    requires given { IsGiven live.now pass.old }
    requires alone { IsAlone live.now }
    requires now { now ≤ 2 ^ 61 }
    ensures given { IsGiven live.now pass.new }
{
    match live.delete(alloc, rt, pass, digest, now) {
        Ok(true) => Answer::Gone,
        Ok(false) => Answer::Nothing,
        Err(_) => Answer::Failed,
    }
}

fn bury<R: Wait>(
    alloc: Global,
    rt: &R,
    live: &Live<MemDisk>,
    pass: &mut LivePass<MemDisk>,
    digest: &Digest,
    now: u64,
) -> Answer
    requires given { IsGiven live.now pass.old }
    requires alone { IsAlone live.now }
    requires now { now ≤ 2 ^ 61 }
    ensures given { IsGiven live.now pass.new }
{
    write_answer(live.bury(alloc, rt, pass, digest, now))
}

/// Makes a call on the digest of a number.
pub fn made<R: Wait>(
    alloc: Global,
    rt: &R,
    live: &Live<MemDisk>,
    pass: &mut LivePass<MemDisk>,
    digest: u32,
    ask: Ask,
    now: u64,
) -> Call
    requires given { IsGiven live.now pass.old }
    requires alone { IsAlone live.now }
    requires now { now ≤ 2 ^ 61 }
    ensures given { IsGiven live.now pass.new }
{
    let name = digest_of(digest);
    let answer = match ask {
        Ask::Put { expect, payload } => { put(alloc, rt, live, pass, &name, expect, payload, now) }
        Ask::Get => get(alloc, rt, live, pass, &name, now),
        Ask::Meta => meta(rt, live, pass, &name, now),
        Ask::Delete => delete(alloc, rt, live, pass, &name, now),
        Ask::Bury => bury(alloc, rt, live, pass, &name, now),
    };
    Call {
        digest,
        now,
        ask,
        answer,
    }
}

/// Flushes one buffer, if one is sealed.
pub fn flush_next<R: Wait>(rt: &R, live: &Live<MemDisk>, pass: &mut LivePass<MemDisk>)
    requires given { IsGiven live.now pass.old }
    ensures given { IsGiven live.now pass.new }
{
    let _ = live.flush_next(rt, pass);
}

/// What the device, out of its table, shows of a digest in the end.
pub fn shown(alloc: Global, shard: &mut Shard<MemDisk>, digest: u32, now: u64) -> Call
    requires alone { IsShardAlone shard.old }
    requires now { now ≤ 2 ^ 61 }
    ensures alone { IsShardAlone shard.new }
{
    let answer = match shard.get(alloc, &digest_of(digest), now) {
        Ok(Some(version)) => read_answer(alloc, &version),
        Ok(None) => Answer::Nothing,
        Err(_) => Answer::Failed,
    };
    Call {
        digest,
        now,
        ask: Ask::Get,
        answer,
    }
}
