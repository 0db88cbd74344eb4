// The head of a body.
ghost use Rattle.std.specs.Prelude.{◌≡◌};
ghost use Rattle.block_format.specs.Layout.{body_head_text};

use byteorder::{ByteOrder, LittleEndian};

/// The bytes of a body's head.
pub const BODY_HEAD_BYTES: usize = 32;

/// The head of a body: its buffer number, the number of its records, their units, and its block.
pub(crate) fn head_of(number: u64, records: u32, units: u32, block: u32) -> [u8; BODY_HEAD_BYTES]
    ensures { result ≡ body_head_text number records units block }
{
    let mut head = [0; BODY_HEAD_BYTES];
    head[..8].copy_from_slice(b"ASNBODY1");
    LittleEndian::write_u64(&mut head[8..16], number);
    LittleEndian::write_u32(&mut head[16..20], records);
    LittleEndian::write_u32(&mut head[20..24], units);
    LittleEndian::write_u32(&mut head[24..28], block);
    head
}

/// The bytes are the head of a body then: its buffer number, the number of its records, their units of 16 bytes, and
/// its block.
pub fn write_head(
    number: u64,
    records: u32,
    units: u32,
    block: u32,
    out: &mut [u8; BODY_HEAD_BYTES],
)
    ensures { out.new ≡ body_head_text number records units block }
{
    *out = head_of(number, records, units, block);
}
