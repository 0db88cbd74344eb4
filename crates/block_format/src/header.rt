// The header of a device.
ghost use Rattle.std.specs.Prelude.{◌≡◌, ◌↔◌, IsTrue, Some, length};
ghost use Rattle.block_format.specs.Layout.{IsBlockSize, IsGeometry, IsHeader, header_front, header_text, most_records};
ghost use Rattle.rec_format.specs.Versions.{block_capacity};

use crate::gate::SECTOR_BYTES;
use crate::geometry::Geometry;
use byteorder::{ByteOrder, LittleEndian};
use rec_format::{u16_at, u32_at};

/// The bytes of a header before its zeros.
const FRONT_BYTES: usize = 32;

/// How many units of 16 bytes a block of this size, in bytes, has behind its gate sector and the head of its body.
pub fn capacity(block_size: u32) -> u32
    ensures { result ≡ block_capacity block_size }
{
    block_size.saturating_sub(4128) / 16
}

/// How many records a body of so many units can have: each takes at least three.
pub fn most_records(capacity: u32) -> u32
    ensures { result ≡ most_records capacity }
{
    capacity / 3
}

/// The bytes of the header before its zeros.
fn front_of(geometry: &Geometry) -> [u8; FRONT_BYTES]
    ensures { result ≡ header_front geometry.now }
{
    let mut front = [0; FRONT_BYTES];
    front[..16].copy_from_slice(b"ASNODE-DEVICE-01");
    LittleEndian::write_u32(&mut front[16..20], 1);
    LittleEndian::write_u32(&mut front[20..24], geometry.block_size);
    LittleEndian::write_u32(&mut front[24..28], geometry.blocks);
    LittleEndian::write_u16(&mut front[28..30], geometry.device);
    LittleEndian::write_u16(&mut front[30..32], geometry.devices);
    front
}

/// The bytes are the first sector of a device of this shape then, its header. No disk is called.
pub fn write_header(geometry: &Geometry, out: &mut [u8; SECTOR_BYTES])
    requires { IsGeometry geometry.now }
    ensures { out.new ≡ header_text geometry.now }
{
    out[..FRONT_BYTES].copy_from_slice(&front_of(geometry));
    out[FRONT_BYTES..].fill(0);
}

/// Whether a block may have this size: a power of two from 16 KiB to 1 MiB.
fn is_block_size(size: u32) -> bool
    ensures { IsTrue result ↔ IsBlockSize size }
{
    for power in 14_u32..21 {
        if size == 1 << power {
            return true;
        }
    }
    false
}

/// Whether a device may have this shape: 8 to 65,536 blocks of a size that a block may have, on one of at most 16
/// devices.
fn is_allowed(geometry: &Geometry) -> bool
    ensures { IsTrue result ↔ IsGeometry geometry.now }
{
    is_block_size(geometry.block_size)
        && 8 <= geometry.blocks
        && geometry.blocks <= 65_536
        && geometry.device < geometry.devices
        && geometry.devices <= 16
}

/// The shape that a device's first sector tells; none exactly where the sector is no header.
pub fn read_header(bytes: &[u8; SECTOR_BYTES]) -> Option<Geometry>
    ensures { (g : Geometry) → (result ≡ Some g) ↔ IsHeader bytes.now g }
{
    let geometry = Geometry {
        block_size: u32_at(bytes, 20),
        blocks: u32_at(bytes, 24),
        device: u16_at(bytes, 28),
        devices: u16_at(bytes, 30),
    };
    if !is_allowed(&geometry) {
        return None;
    }
    // A shape has one header, so that the bytes are compared with it.
    let mut header = [0; SECTOR_BYTES];
    write_header(&geometry, &mut header);
    if header != *bytes {
        return None;
    }
    Some(geometry)
}
