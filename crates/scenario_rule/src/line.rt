// The words of a line and of its reply.
ghost use Rattle.std.specs.Prelude.{◌<◌};

use crate::history::Write;
use std::alloc::{AllocError, Global};

/// The first word of a text, and what follows.
pub fn split(text: &str) -> (&str, &str) {
    text.split_once(' ').unwrap_or((text, ""))
}

pub fn number_of(text: &str) -> u64 {
    text.parse::<u64>().unwrap_or(0)
}

fn digit_of(byte: u8) -> u64
    ensures { result < 16 }
{
    match byte {
        b'0'..=b'9' => u64::from(byte - b'0'),
        b'a'..=b'f' => u64::from(byte - b'a') + 10,
        b'A'..=b'F' => u64::from(byte - b'A') + 10,
        _ => 0,
    }
}

/// Whether a digest belongs to the device of this number of so many: its partition is the twelve lowest bits of its first two bytes, the
/// first of which is the lower, and the partitions are dealt in turn.
pub fn is_on_device(digest: &str, device: u64, devices: u64) -> bool {
    let [b0, b1, _, b3, ..] = digest.as_bytes() else {
        return false;
    };
    let partition = digit_of(*b0) * 16 + digit_of(*b1) + digit_of(*b3) * 256;
    partition % devices.max(1) == device
}

/// A put as its line and its reply tell it: `ok GEN LUT`.
pub fn put_of(alloc: Global, words: &str, reply: &str, now: u64) -> Result<Write, AllocError> {
    let (ttl, rest) = split(words);
    let (_expect, data) = split(rest);
    let (_ok, stamp) = split(reply);
    let (gen_, lut) = split(stamp);
    let ttl = number_of(ttl);
    let void = if ttl == 0 {
        0
    } else {
        (now / 1000).saturating_add(ttl)
    };
    Ok(Write {
        is_put: true,
        gen_: number_of(gen_),
        lut: number_of(lut),
        void,
        data: String::from_str(alloc, data)?,
        is_covered: false,
        is_flushed: false,
    })
}

/// A tombstone.
pub fn tomb_of(alloc: Global) -> Write {
    Write {
        is_put: false,
        gen_: 0,
        lut: 0,
        void: 0,
        data: String::new(alloc),
        is_covered: true,
        is_flushed: false,
    }
}

/// What a get shows of a write that is seen.
pub fn shown_by_get(alloc: Global, write: &Write) -> Result<String, AllocError> {
    format!(in alloc;
        "val {} {} {} {}",
        write.gen_, write.lut, write.void, write.data
    )
}

// The units of 16 bytes that a record takes whose payload has so many digits.
fn units_of(data: &str) -> u64 {
    let bytes = if data == "-" {
        0
    } else {
        data.len() as u64 / 2
    };
    bytes.saturating_add(63) / 16
}

/// What a meta shows of it.
pub fn shown_by_meta(alloc: Global, write: &Write) -> Result<String, AllocError> {
    format!(in alloc;
        "meta {} {} {} {}",
        write.gen_,
        write.lut,
        write.void,
        units_of(write.data.as_str())
    )
}
