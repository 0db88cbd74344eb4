// Gates: the sector before a block's body, which opens it.
ghost use Rattle.std.specs.Prelude.{◌≡◌, ◌≤◌, ◌↔◌, length, IsTrue};
ghost use Rattle.block_format.specs.Layout.{IsOpen, closed_sector, open_sector};

/// The bytes of a device's header, and of a gate sector.
pub const SECTOR_BYTES: usize = 4096;

/// The bytes that decide about a gate.
pub const GATE_BYTES: usize = 16;

/// What an open gate sector begins with.
const OPEN: [u8; GATE_BYTES] = *b"ASNODE-GATE-OPEN";

/// Whether a gate sector, of which at least the first 16 bytes are there, opens its block.
pub fn is_open(gate: &[u8]) -> bool
    requires { GATE_BYTES ≤ length gate.now }
    ensures { IsTrue result ↔ IsOpen gate.now }
{
    gate[..GATE_BYTES] == OPEN[..]
}

/// The sector is an open gate then: the words that open it, and zeros. No disk is called.
pub fn write_open(sector: &mut [u8; SECTOR_BYTES])
    ensures { sector.new ≡ open_sector }
{
    sector[..GATE_BYTES].copy_from_slice(&OPEN);
    sector[GATE_BYTES..].fill(0);
}

/// The sector is a closed gate then: zeros. No disk is called.
pub fn write_closed(sector: &mut [u8; SECTOR_BYTES])
    ensures { sector.new ≡ closed_sector }
{
    *sector = [0; SECTOR_BYTES];
}
