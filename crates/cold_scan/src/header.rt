// The header of a device: which device it is, of which shape, and whether all of it is there.
ghost use Rattle.std.specs.Prelude.{◌≡◌, ◌≤◌, ◌++◌, take, replicate, nat_le, IfOk, IfErr, OnErr, IsTrue, ◌↔◌, MatchResult};
ghost use Rattle.model_faults.specs.Counts.{Rose};
ghost use Rattle.block_format.specs.Layout.{device_end};
ghost use Rattle.block_format.specs.Refusals.{IsAsked};
ghost use Rattle.block_shelf.specs.Disks.{OnlyRead};
ghost use Rattle.cold_scan.specs.Starting.{IsRefused, FaultRose};
ghost use Rattle.cold_scan.specs.Found.{IsShaped};

use block_format::{Geometry, SECTOR_BYTES, read_header};
use disk_model::{Disk, DiskFault};

/// Which device of how many is started.
#[derive(Clone, Copy, Debug, PartialEq, Eq)]
pub struct Asked {
    pub device: u16,
    pub devices: u16,
}

/// Why a device isn't taken into use.
#[derive(Clone, Copy, PartialEq, Eq)]
pub enum StartCause {
    /// Its first 4,096 bytes aren't a header, or aren't there. The first 64 are told, with zeros past the device's end.
    NotFormatted {
        first: [u8; 64],
    },
    /// It is another device, or shorter than its header says.
    OtherGeometry {
        kept: Geometry,
        asked: Asked,
        len: u64,
    },
    /// This block is open, and what stands at this place of it isn't its body.
    DamagedBlock {
        block: u32,
        place: u32,
    },
    /// There was no memory for it.
    Memory,
    /// The disk failed.
    Fault,
}

// The first sector, with zeros past the disk's end, and whether all of it is there.
fn read_first<D: Disk>(disk: &mut D, out: &mut [u8; SECTOR_BYTES]) -> Result<bool, DiskFault>
    requires { out.old ≡ replicate 4096 0 }
    ensures read { OnlyRead (D.view disk.old) (D.view disk.new) }
    ensures bytes { (D.view disk.old).tells → IfOk result (λ whole. out.new ≡ take 4096 ((D.view disk.old).seen ++ replicate 4096 0)) }
    ensures whole { IfOk result (λ whole. whole ≡ nat_le 4096 (D.view disk.old).extent) }
    ensures cause { OnErr result (Rose (D.view disk.old).faults (D.view disk.new).faults) }
{
    let count = disk.len().min(SECTOR_BYTES as u64) as usize;
    disk.read_at(0, &mut out[..count])?;
    Ok(count == SECTOR_BYTES)
}

/// The shape by the header, if it is of the device that was asked for and all of it is there.
pub(crate) fn shape_of<D: Disk>(disk: &mut D, asked: Asked) -> Result<Geometry, StartCause>
    ensures read { OnlyRead (D.view disk.old) (D.view disk.new) }
    ensures shape { IfOk result (λ g. IsShaped asked (D.view disk.new).extent g) }
    ensures bytes { (D.view disk.old).tells → MatchResult result (λ g. IsAsked asked.device asked.devices (D.view disk.old).seen g) (λ cause. IsRefused asked (D.view disk.old).seen cause) }
    ensures cause { IfErr result (λ cause. FaultRose cause (D.view disk.old).faults (D.view disk.new).faults) }
{
    let mut sector = [0; SECTOR_BYTES];
    let Ok(whole) = read_first(disk, &mut sector) else {
        return Err(StartCause::Fault);
    };
    if !whole {
        return Err(not_formatted(&sector));
    }
    let Some(kept) = read_header(&sector) else {
        return Err(not_formatted(&sector));
    };
    let len = disk.len();
    if !is_asked(&kept, asked, len) {
        return Err(StartCause::OtherGeometry { kept, asked, len });
    }
    Ok(kept)
}

// The refusal of a device with this first sector.
fn not_formatted(sector: &[u8; SECTOR_BYTES]) -> StartCause
    ensures { result ≡ StartCause.NotFormatted (take 64 sector.now) }
{
    let mut first = [0; 64];
    first.copy_from_slice(&sector[..64]);
    StartCause::NotFormatted { first }
}

// The header's device is the one that was asked for, and all of its blocks are there.
fn is_asked(kept: &Geometry, asked: Asked, len: u64) -> bool
    ensures { IsTrue result ↔ ((kept.now.device ≡ asked.device) × (kept.now.devices ≡ asked.devices) × (device_end kept.now ≤ len)) }
{
    kept.device == asked.device && kept.devices == asked.devices && end_of(kept) <= len
}

// Where the last block ends.
fn end_of(geometry: &Geometry) -> u64
    ensures { result ≡ device_end geometry.now }
{
    SECTOR_BYTES as u64 + u64::from(geometry.blocks) * u64::from(geometry.block_size)
}
