//! Hex text of bytes and back, sixteen bytes at a time: what the crate `hex` answers, in a fraction of its time.
#![tactic(auto)]

ghost use Rattle.std.specs.Prelude.{◌≡◌, ◌≢◌, ◌+◌, ◌*◌, ◌%◌, ◌^◌, ◌<◌, ◌≤◌, ◌⊎◌, ◌++◌, length, Ok, Err, IfOk, IfErr, IsOk, OnOk, OnErr, MatchResult};
ghost use Rattle.std.specs.String.{string_bytes};
ghost use Rattle.std.specs.Vec.{vec_len, vec_capacity};
ghost use Rattle.hex.specs.Hex.{decode_of, encode_lower};
ghost use Rattle.hex.specs.declared.error.FromHexError.TheVariants.{OddLength, OutOfMemory};

mod lanes;

use crate::lanes::{are_halves, bytes_of, halves_of, text_of};
use hex::FromHexError;
use std::alloc::{AllocError, Global};
use std::simd::prelude::*;

// How many bytes are written or read at a time.
const BYTES: usize = 16;

// How far the second chunk of so many bytes begins behind the first. It laps over the first, so that the last chunk ends where the bytes do.
fn first_step(count: usize) -> usize
    requires { count < 2 ^ 63 }
    ensures { result ≡ (count + 15) % 16 + 1 }
{
    (count + BYTES - 1) % BYTES + 1
}

/// The text is the hex digits of the bytes then, in lower case and the high half of each byte first. Whatever stood in it is gone, and no
/// memory is asked for. It has two bytes for each of them.
#[inline(always)]
pub fn encode_into(bytes: &[u8], text: &mut [u8])
    requires { length text.old ≡ 2 * length bytes.now }
    ensures { text.new ≡ encode_lower bytes.now }
{
    let mut at = 0;
    let mut step = first_step(bytes.len());
    'chunks: while bytes.len() - at >= BYTES {
        text_of(u8x16::from_slice(&bytes[at..])).copy_to_slice(&mut text[2 * at..]);
        at += step;
        step = BYTES;
    }
    if at == bytes.len() {
        return;
    }
    let (_, rest) = text.split_at_mut(2 * at);
    let _ = hex::encode_to_slice(&bytes[at..], rest);
}

// Puts the digits of the bytes behind the text, for which it has room. Zeros are put there first, in less time than digits would be copied.
fn put_digits(bytes: &[u8], text: &mut Vec<u8>)
    requires { vec_len text.old + 2 * length bytes.now ≤ vec_capacity text.old }
    ensures { text.new.items ≡ text.old.items ++ encode_lower bytes.now }
{
    let start = text.len();
    let _ = text.resize(start + 2 * bytes.len(), 0);
    let (_, digits) = text.as_mut_slice().split_at_mut(start);
    encode_into(bytes, digits);
}

/// At `Ok` the hex digits of the bytes stand behind what was in `text`, in lower case and the high half of each byte first.
/// An `Err` is want of memory, comes only where the room was missing, and changes nothing.
pub fn encode_onto(bytes: &[u8], text: &mut Vec<u8>) -> Result<(), AllocError>
    ensures ok { OnOk result (text.new.items ≡ text.old.items ++ encode_lower bytes.now) }
    ensures err { OnErr result (text.new.items ≡ text.old.items) }
    ensures room { vec_len text.old + 2 * length bytes.now ≤ vec_capacity text.old → IsOk result }
{
    let Some(digits) = bytes.len().checked_mul(2) else {
        return Err(AllocError);
    };
    text.reserve(digits)?;
    put_digits(bytes, text);
    Ok(())
}

/// The hex digits of the bytes, in lower case and the high half of each byte first. It fails only where memory does.
pub fn encode(alloc: Global, bytes: &[u8]) -> Result<String, AllocError>
    ensures { IfOk result (λ text. string_bytes text ≡ encode_lower bytes.now) }
{
    let mut text = Vec::new(alloc);
    encode_onto(bytes, &mut text)?;
    Ok(unsafe { String::from_utf8_unchecked(text) })
}

/// At `Ok` the bytes that hex digits of either case spell stand in `bytes`, of which the text has two for each. An `Err` is the first
/// byte of the text that is no digit; `bytes` may hold anything then.
pub fn decode_into(text: &[u8], bytes: &mut [u8]) -> Result<(), FromHexError>
    requires { length text.now ≡ 2 * length bytes.old }
    ensures { MatchResult (decode_of text.now) (λ read. (result ≡ Ok tt) × (bytes.new ≡ read)) (λ e. result ≡ Err e) }
{
    let mut at = 0;
    let mut step = first_step(bytes.len());
    'chunks: while bytes.len() - at >= BYTES {
        let halves = halves_of(u8x32::from_slice(&text[2 * at..]));
        if !are_halves(halves) {
            return hex::decode_to_slice(text, bytes);
        }
        bytes_of(halves).copy_to_slice(&mut bytes[at..]);
        at += step;
        step = BYTES;
    }
    if at == bytes.len() {
        return Ok(());
    }
    let (_, rest) = bytes.split_at_mut(at);
    match hex::decode_to_slice(&text[2 * at..], rest) {
        Ok(()) => Ok(()),
        Err(_) => hex::decode_to_slice(text, bytes),
    }
}

/// At `Ok` the vector is the bytes that hex digits of either case spell, in the room that it has, where that is enough, and whatever stood
/// in it. An `Err` is an odd length, the first byte that is no digit, or want of memory, which comes only where the room was missing; the
/// vector may have any bytes then.
pub fn decode_over(text: &[u8], bytes: &mut Vec<u8>) -> Result<(), FromHexError>
    ensures ok { OnOk result (decode_of text.now ≡ Ok bytes.new.items) }
    ensures err { IfErr result (λ e. (e ≡ OutOfMemory) ⊎ (decode_of text.now ≡ Err e)) }
    ensures odd { length text.now % 2 ≡ 1 → result ≡ Err OddLength }
    ensures room { length text.now ≤ 2 * vec_capacity bytes.old → result ≢ Err OutOfMemory }
{
    if text.len() % 2 != 0 {
        return Err(FromHexError::OddLength);
    }
    bytes.resize(text.len() / 2, 0)?;
    decode_into(text, bytes.as_mut_slice())
}

/// The bytes that hex digits of either case spell. An `Err` is an odd length, the first byte that is no digit, or want of
/// memory: a text of odd length takes none.
pub fn decode(alloc: Global, text: &[u8]) -> Result<Vec<u8>, FromHexError>
    ensures ok { IfOk result (λ bytes. decode_of text.now ≡ Ok bytes.items) }
    ensures err { IfErr result (λ e. (e ≡ OutOfMemory) ⊎ (decode_of text.now ≡ Err e)) }
    ensures odd { length text.now % 2 ≡ 1 → result ≡ Err OddLength }
{
    let mut bytes = Vec::new(alloc);
    decode_over(text, &mut bytes)?;
    Ok(bytes)
}
