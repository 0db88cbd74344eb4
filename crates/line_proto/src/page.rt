// Text that is written at its end, again and again in the same room.
ghost use Rattle.std.specs.Prelude.{◌≡◌, ◌+◌, ◌*◌, ◌<◌, ◌≤◌, [], ◌∷◌, ◌++◌, length, take, OnOk, OnErr, IsTrue, ◌↔◌};
ghost use Rattle.std.specs.Vec.{vec_len};
ghost use Rattle.hex.specs.Hex.{encode_lower};
ghost use Rattle.line_proto.specs.Printing.{spaced};

use crate::NoMemory;
use itoa::Buffer;
use std::alloc::Global;
use std::marker::Model;

/// Text that grows at its end, in room that is kept for the text after it. Zeros are written only where the room grows, and never into room
/// that there was before. Contracts see the text.
#[derive(Drop)]
pub struct Page {
    bytes: Vec<u8>,
    used: usize,
}

impl Model for Page {
    ghost use Rattle.std.specs.Prelude.{List, ℕ, ◌≤◌, take};
    ghost use Rattle.std.specs.Vec.{vec_len};

    ghost Value = { List ℕ };

    ghost view = { λ p. take p.used p.bytes.items };

    ghost invariant = { λ p. p.used ≤ vec_len p.bytes };
}

impl Page {
    /// No text yet, and no memory taken.
    pub fn new(alloc: Global) -> Self
        ensures { result ≡ [] }
    {
        Page {
            bytes: Vec::new(alloc),
            used: 0,
        }
    }

    /// The text.
    pub fn text(&self) -> &[u8]
        ensures { result.now ≡ self.now }
    {
        &self.bytes[..self.used]
    }

    /// How many bytes the text has.
    pub fn len(&self) -> usize
        ensures { result ≡ length self.now }
    {
        self.used
    }

    /// Whether there is no text.
    pub fn is_empty(&self) -> bool
        ensures { IsTrue result ↔ (self.now ≡ []) }
    {
        self.used == 0
    }

    /// There is no text then. Its room stays for later text, unless it is more than `kept` bytes: then its memory is let go.
    pub fn clear(&mut self, kept: usize)
        ensures { self.new ≡ [] }
    {
        self.used = 0;
        if self.bytes.len() > kept {
            self.bytes.clear();
            self.bytes.shrink_to_fit();
        }
    }

    /// Of the text its first bytes are left, so many. The room stays.
    pub(crate) fn truncate(&mut self, count: usize)
        requires { count ≤ length self.old }
        ensures { self.new ≡ take count self.old }
    {
        self.used = count;
    }

    /// At `Ok` these bytes stand behind the text. An `Err` is want of memory, and changes nothing.
    pub fn put(&mut self, text: &[u8]) -> Result<(), NoMemory>
        ensures ok { OnOk result (self.new ≡ self.old ++ text.now) }
        ensures err { OnErr result (self.new ≡ self.old) }
    {
        make_room(&mut self.bytes, self.used, text.len())?;
        put_at(self.bytes.as_mut_slice(), self.used, text);
        self.used += text.len();
        Ok(())
    }

    /// At `Ok` the byte stands behind the text. An `Err` is want of memory, and changes nothing.
    pub fn put_byte(&mut self, byte: u8) -> Result<(), NoMemory>
        ensures ok { OnOk result (self.new ≡ self.old ++ byte ∷ []) }
        ensures err { OnErr result (self.new ≡ self.old) }
    {
        make_room(&mut self.bytes, self.used, 1)?;
        put_byte_at(self.bytes.as_mut_slice(), self.used, byte);
        self.used += 1;
        Ok(())
    }

    /// At `Ok` a space and the number in decimal stand behind the text, for which room is looked for once. An `Err` is want of memory, and changes
    /// nothing.
    pub fn put_number(&mut self, number: u64) -> Result<(), NoMemory>
        ensures ok { OnOk result (self.new ≡ self.old ++ spaced number) }
        ensures err { OnErr result (self.new ≡ self.old) }
    {
        let mut buffer = Buffer::new();
        let digits = buffer.format(number).as_bytes();
        make_room(&mut self.bytes, self.used, 1 + digits.len())?;
        put_byte_at(self.bytes.as_mut_slice(), self.used, b' ');
        put_at(self.bytes.as_mut_slice(), self.used + 1, digits);
        self.used += 1 + digits.len();
        Ok(())
    }

    /// At `Ok` the hex digits of the bytes stand behind the text, in lower case and the high half of each byte first: they are made where they
    /// stand. An `Err` is want of memory, and changes nothing.
    pub fn put_digits(&mut self, bytes: &[u8]) -> Result<(), NoMemory>
        ensures ok { OnOk result (self.new ≡ self.old ++ encode_lower bytes.now) }
        ensures err { OnErr result (self.new ≡ self.old) }
    {
        let count = 2 * bytes.len();
        make_room(&mut self.bytes, self.used, count)?;
        put_digits_at(self.bytes.as_mut_slice(), self.used, bytes);
        self.used += count;
        Ok(())
    }
}

// At `Ok` there is room for so many bytes behind those that are used. An `Err` is want of memory. Those that are used stay.
#[inline(always)]
fn make_room(bytes: &mut Vec<u8>, used: usize, count: usize) -> Result<(), NoMemory>
    requires { used ≤ vec_len bytes.old }
    ensures ok { OnOk result (used + count ≤ vec_len bytes.new) }
    ensures within { used ≤ vec_len bytes.new }
    ensures kept { take used bytes.new.items ≡ take used bytes.old.items }
{
    if bytes.len() - used >= count {
        return Ok(());
    }
    grow(bytes, used, count)
}

// As `make_room`, where that room isn't there yet. What there is of room then is twice as much as before, or more.
#[cold]
#[inline(never)]
fn grow(bytes: &mut Vec<u8>, used: usize, count: usize) -> Result<(), NoMemory>
    requires used { used ≤ vec_len bytes.old }
    requires missing { vec_len bytes.old < used + count }
    ensures ok { OnOk result (used + count ≤ vec_len bytes.new) }
    ensures within { used ≤ vec_len bytes.new }
    ensures kept { take used bytes.new.items ≡ take used bytes.old.items }
{
    bytes.reserve(count - (bytes.len() - used))?;
    bytes.resize(bytes.capacity(), 0)
}

// Copies the text to the place.
fn put_at(bytes: &mut [u8], place: usize, text: &[u8])
    requires { place + length text.now ≤ length bytes.old }
    ensures { take (place + length text.now) bytes.new ≡ take place bytes.old ++ text.now }
{
    bytes[place..place + text.len()].copy_from_slice(text);
}

// Puts the byte at the place.
fn put_byte_at(bytes: &mut [u8], place: usize, byte: u8)
    requires { place + 1 ≤ length bytes.old }
    ensures { take (place + 1) bytes.new ≡ take place bytes.old ++ byte ∷ [] }
{
    bytes[place] = byte;
}

// Puts the digits of the bytes at the place.
fn put_digits_at(text: &mut [u8], place: usize, bytes: &[u8])
    requires { place + 2 * length bytes.now ≤ length text.old }
    ensures { take (place + 2 * length bytes.now) text.new ≡ take place text.old ++ encode_lower bytes.now }
{
    hex_lanes::encode_into(bytes, &mut text[place..place + 2 * bytes.len()]);
}
