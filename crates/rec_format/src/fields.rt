// Numbers in bytes, the lowest byte first.
ghost use Rattle.std.specs.Prelude.{◌≡◌, ◌+◌, ◌≤◌, length};
ghost use Rattle.std.specs.Int.{w16, w32, w64};
ghost use Rattle.rec_format.specs.RecordFlaws.{number_at};

use byteorder::{ByteOrder, LittleEndian};

/// The number in the two bytes from a place, the lowest byte first.
pub fn u16_at(bytes: &[u8], place: usize) -> u16
    requires { place + 2 ≤ length bytes.now }
    ensures { result ≡ number_at w16 place bytes.now }
{
    LittleEndian::read_u16(&bytes[place..])
}

/// The number in the four bytes from a place, the lowest byte first.
pub fn u32_at(bytes: &[u8], place: usize) -> u32
    requires { place + 4 ≤ length bytes.now }
    ensures { result ≡ number_at w32 place bytes.now }
{
    LittleEndian::read_u32(&bytes[place..])
}

/// The number in the eight bytes from a place, the lowest byte first.
pub fn u64_at(bytes: &[u8], place: usize) -> u64
    requires { place + 8 ≤ length bytes.now }
    ensures { result ≡ number_at w64 place bytes.now }
{
    LittleEndian::read_u64(&bytes[place..])
}
