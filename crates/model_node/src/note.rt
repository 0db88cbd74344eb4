// How a run ended, in a few words.
ghost use Rattle.std.specs.Prelude.{◌≡◌, ◌≤◌, ◌∷◌, ◌++◌, [], codes, decimal, length};
ghost use Rattle.hex.specs.Hex.{encode_lower};
ghost use Rattle.block_format.specs.Refusals.{not_formatted, other_shape, damaged_block};
ghost use Rattle.line_proto.specs.Lines.{words_line};
ghost use Rattle.model_node.specs.Notes.{refusal_note, short_note};

use arrayvec::ArrayString;
use block_format::Geometry;
use itoa::Buffer;
use std::marker::Model;

// The most bytes that a note has.
const ROOM: usize = 160;

// What each note on a device begins with.
fn front(device: u16) -> ArrayString<ROOM>
    ensures bytes { result.bytes ≡ codes "device " ++ decimal device }
    ensures short { length result.bytes ≤ 12 }
{
    let mut digits = Buffer::new();
    let mut text = ArrayString::new();
    text.push_str("device ");
    text.push_str(digits.format(device));
    text
}

// Puts the hex digits of these bytes behind the text, in lower case.
fn push_hex(text: &mut ArrayString<ROOM>, bytes: &[u8; 64])
    requires { length text.old.bytes ≤ 32 }
    ensures { text.new.bytes ≡ text.old.bytes ++ encode_lower bytes.now }
{
    let mut digits = [0; 128];
    let Ok(()) = hex::encode_to_slice(bytes, &mut digits) else {
        unreachable!()
    };
    let Ok(digits) = str::from_utf8(&digits) else {
        unreachable!()
    };
    text.push_str(digits);
}

/// The note on how a run ended; it has no bytes where all went well.
#[derive(Drop)]
pub struct Note {
    text: ArrayString<ROOM>,
}

impl Model for Note {
    ghost use Rattle.std.specs.Prelude.{List, ℕ};

    ghost Value = { List ℕ };

    ghost view = { λ n. n.text.bytes };
}

impl Note {
    // A note of these words.
    pub(crate) fn of(words: &str) -> Self
        requires { length words.now ≤ ROOM }
        ensures { result ≡ words.now }
    {
        let mut text = ArrayString::new();
        text.push_str(words);
        Note { text }
    }

    // A note that says this of a device.
    pub(crate) fn on_device(device: u16, word: &str) -> Self
        requires { length word.now ≤ 8 }
        ensures { result ≡ words_line (codes "device" ∷ decimal device ∷ word.now ∷ []) }
    {
        let mut text = front(device);
        text.push_str(" ");
        text.push_str(word);
        Note { text }
    }

    // A note on a device whose disk has too few bytes for its shape.
    pub(crate) fn short(device: u16, size: u64) -> Self
        ensures { result ≡ short_note device size }
    {
        let mut digits = Buffer::new();
        let mut text = front(device);
        text.push_str(" short: ");
        text.push_str(digits.format(size));
        Note { text }
    }

    // A note on a device whose first bytes are no header.
    pub(crate) fn not_formatted(device: u16, first: &[u8; 64]) -> Self
        ensures { result ≡ refusal_note device (not_formatted first.now) }
    {
        let mut text = front(device);
        text.push_str(" not formatted: ");
        push_hex(&mut text, first);
        Note { text }
    }

    // A note on a device whose header is of another one, or of more bytes than are there.
    pub(crate) fn other_geometry(
        device: u16,
        kept: Geometry,
        asked: u16,
        devices: u16,
        len: u64,
    ) -> Self
        ensures { result ≡ refusal_note device (other_shape kept asked devices len) }
    {
        let mut digits = Buffer::new();
        let mut text = front(device);
        text.push_str(" is ");
        text.push_str(digits.format(kept.device));
        text.push_str(" of ");
        text.push_str(digits.format(kept.devices));
        text.push_str(", asked ");
        text.push_str(digits.format(asked));
        text.push_str(" of ");
        text.push_str(digits.format(devices));
        text.push_str(", length ");
        text.push_str(digits.format(len));
        Note { text }
    }

    // A note on a device with an open block that isn't its body, with the place of the first fault.
    pub(crate) fn damaged_block(device: u16, block: u32, place: u32) -> Self
        ensures { result ≡ refusal_note device (damaged_block block place) }
    {
        let mut digits = Buffer::new();
        let mut text = front(device);
        text.push_str(" block ");
        text.push_str(digits.format(block));
        text.push_str(" damaged at ");
        text.push_str(digits.format(place));
        Note { text }
    }

    /// The bytes of the note, without LF.
    pub fn as_slice(&self) -> &[u8]
        ensures { result.now ≡ self.now }
    {
        self.text.as_str().as_bytes()
    }

    /// The note as text, without LF.
    pub fn as_str(&self) -> &str
        ensures { result.now ≡ self.now }
    {
        self.text.as_str()
    }
}
