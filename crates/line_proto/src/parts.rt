// The parts of a text.
ghost use Rattle.std.specs.Prelude.{◌≡◌, ◌≢◌, ◌↔◌, ◌<◌, ◌≤◌, ◌^◌, ◌++◌, List, ℕ, Option, Some, IfOk, MatchOption, option_map, decimal, IsErr, codes};
ghost use Rattle.line_proto.specs.Lines.{IsDigestText, IsExpectText, IsDataText};
ghost use Rattle.line_proto.specs.Reading.{IsCut};
ghost use Rattle.rec_format.specs.declared.version.Digest.{Digest};

use crate::NoMemory;
use memchr::memchr;
use rec_format::{Bytes, Digest};
use std::alloc::{AllocError, Global};
use std::mem;

/// What stands before the first such byte, and behind it; none where there is none.
pub fn cut(text: &[u8], separator: u8) -> Option<(&[u8], &[u8])>
    ensures { IsCut separator text.now (option_map (λ parts. (parts.0.now, parts.1.now)) result) }
{
    let at = memchr(separator, text)?;
    Some((&text[..at], &text[at + 1..]))
}

/// The digest that 40 hex digits of either case spell; none exactly where the text is no such digits.
pub fn digest_of(text: &[u8]) -> Option<Digest>
    ensures { (digest : Digest) → (result ≡ Some digest) ↔ IsDigestText text.now digest }
{
    if text.len() != 40 {
        return None;
    }
    let mut bytes = [0; 20];
    match hex_lanes::decode_into(text, &mut bytes) {
        Ok(()) => Some(Digest(bytes)),
        Err(_) => None,
    }
}

// The number whose digits these are, and of other texts none or any.
fn parsed(text: &[u8]) -> Option<u64>
    ensures { (number : ℕ) → number < 2 ^ 64 → text.now ≡ decimal number → result ≡ Some number }
{
    let Ok(digits) = str::from_utf8(text) else {
        return None;
    };
    digits.parse::<u64>().ok()
}

/// The number that decimal digits without a leading zero spell, where it isn't above the greatest; none exactly where
/// the text spells none.
pub fn number_of(text: &[u8], greatest: u64) -> Option<u64>
    ensures { (number : ℕ) → (result ≡ Some number) ↔ ((number ≤ greatest) × (text.now ≡ decimal number)) }
{
    let number = parsed(text)?;
    let mut buffer = itoa::Buffer::new();
    if number > greatest || buffer.format(number).as_bytes() != text {
        return None;
    }
    Some(number)
}

/// The generation that a put expects, where the text spells one or is a star, which expects none; else nothing.
pub fn expect_of(text: &[u8]) -> Option<Option<u16>>
    ensures { (expect : Option ℕ) → (result ≡ Some expect) ↔ IsExpectText text.now expect }
{
    if text == b"*".as_slice() {
        return Some(None);
    }
    match number_of(text, 65_535) {
        Some(number) => Some(Some(number as u16)),
        None => None,
    }
}

/// At `Ok` the bytes that hex digits of either case spell, which take this room with them, no bytes for a dash, and nothing for any
/// other text. An `Err` is want of memory.
pub fn data_of(alloc: Global, text: &[u8], room: &mut Vec<u8>) -> Result<Option<Bytes>, NoMemory>
    ensures read { IfOk result (λ read. (bytes : List ℕ) → (read ≡ Some bytes) ↔ IsDataText text.now bytes) }
    ensures memory { IsErr result → text.now ≢ codes "-" }
{
    if text == b"-".as_slice() {
        return Ok(Some(Bytes::from_vec(Vec::new(alloc))));
    }
    match hex_lanes::decode_over(text, room) {
        Ok(()) if room.is_empty() => Ok(None),
        Ok(()) => Ok(Some(Bytes::from_vec(mem::replace(room, Vec::new(alloc))))),
        Err(hex::FromHexError::OutOfMemory) => Err(AllocError),
        Err(_) => Ok(None),
    }
}
