// What is kept of the copies that were read, by digest and stamp.
ghost use Rattle.std.specs.Prelude.{◌≡◌, ℕ, ◌-◌, ◌≤◌, length, IsTrue, ◌↔◌, IfOk, IfErr, OnOk, OnErr};
ghost use Rattle.model_faults.specs.Counts.{Rose};
ghost use Rattle.block_format.specs.Layout.{IsGeometry, device_end};
ghost use Rattle.block_shelf.specs.Disks.{OnlyRead};
ghost use Rattle.block_shelf.specs.Reads.{copy_bytes};
ghost use Rattle.sound_scan.specs.Tallied.{IsOwn, IsOnDevice, AreOnDevice, name_found, past_found, past_more, place_of, stray_with, twins_with, PutsPast, TakesAgain, TakesCopy};

use crate::verdict::least_of;
use block_flusher::start_of_block;
use block_format::{BODY_HEAD_BYTES, Found, Geometry, SECTOR_BYTES};
use cold_scan::StartCause;
use disk_model::{Disk, DiskFault};
use partition_map::device_of;
use rec_format::{Digest, Kind, Stamp, UNIT_BYTES};
use std::collections::BTreeMap;

/// A digest and a stamp, in the order of digests, and of one digest in that of stamps.
#[derive(Clone, Copy, PartialEq, Eq, PartialOrd, Ord)]
pub(crate) struct Stamped {
    pub(crate) digest: Digest,
    pub(crate) stamp: Stamp,
}

/// What is known of the copies with one digest and one stamp: whether one of them is a tombstone, and one an uncovered put, and where the
/// first of them lies.
#[derive(Clone, Copy, PartialEq, Eq)]
pub(crate) struct Past {
    pub(crate) tombstone: bool,
    pub(crate) uncovered: bool,
    pub(crate) block: u32,
    pub(crate) unit: u32,
    pub(crate) units: u32,
}

/// What was found in the copies so far: of each digest and stamp what is known, and the least digests that belong to another device, and of
/// which two copies with one stamp differ.
#[derive(Drop)]
pub(crate) struct Tally {
    pub(crate) past: BTreeMap<Stamped, Past>,
    pub(crate) stray: Option<Digest>,
    pub(crate) twins: Option<Digest>,
}

// What is known of a copy alone, which was found in a block.
fn past_of(block: u32, found: &Found) -> Past
    ensures { result ≡ past_found block found.now }
{
    let tombstone = found.head.kind == Kind::Tomb;
    Past {
        tombstone,
        uncovered: !tombstone && !found.head.cover,
        block,
        unit: found.unit,
        units: found.units,
    }
}

// The digest and the stamp of a record.
fn name_of(found: &Found) -> Stamped
    ensures { result ≡ name_found found.now }
{
    Stamped {
        digest: found.head.digest,
        stamp: found.head.stamp,
    }
}

// What is known of several copies and of one more, which was found in a block.
fn past_with(past: Past, found: &Found) -> Past
    ensures { result ≡ past_more past found.now }
{
    let tombstone = found.head.kind == Kind::Tomb;
    Past {
        tombstone: past.tombstone || tombstone,
        uncovered: past.uncovered || (!tombstone && !found.head.cover),
        block: past.block,
        unit: past.unit,
        units: past.units,
    }
}

// Whether the record that lies there is the same as these bytes.
fn is_same<D: Disk>(
    disk: &mut D,
    geometry: &Geometry,
    past: &Past,
    text: &[u8],
    other: &mut [u8],
) -> Result<bool, DiskFault>
    requires geometry { IsGeometry geometry.now }
    requires room { device_end geometry.now ≤ (D.view disk.old).extent }
    requires there { IsOnDevice geometry.now past.now }
    requires size { length other.old ≡ geometry.now.block_size - 4096 }
    ensures read { OnlyRead (D.view disk.old) (D.view disk.new) }
    ensures size { length other.new ≡ geometry.now.block_size - 4096 }
    ensures same { (D.view disk.old).tells → IfOk result (λ same. IsTrue same ↔ (copy_bytes geometry.now (place_of past.now) (D.view disk.old).seen ≡ text.now)) }
    ensures cause { OnErr result (Rose (D.view disk.old).faults (D.view disk.new).faults) }
{
    let start = start_of_block(geometry, past.block)
        + (SECTOR_BYTES + BODY_HEAD_BYTES + UNIT_BYTES * past.unit as usize) as u64;
    let bytes = &mut other[..UNIT_BYTES * past.units as usize];
    disk.read_at(start, bytes)?;
    Ok(*bytes == *text)
}

impl Tally {
    // A digest of another device is a stray.
    fn note_stray(&mut self, geometry: &Geometry, digest: Digest)
        requires { IsGeometry geometry.now }
        ensures { self.new ≡ record self.old { stray = stray_with geometry.now digest self.old.stray } }
    {
        if device_of(&digest, geometry.devices) != geometry.device {
            self.stray = least_of(self.stray, Some(digest));
        }
    }

    // What is known of a digest and a stamp.
    fn put(&mut self, name: Stamped, past: Past) -> Result<(), StartCause>
        ensures put { OnOk result (PutsPast name past self.old.past self.new.past) }
        ensures others { (self.new.stray ≡ self.old.stray) × (self.new.twins ≡ self.old.twins) }
        ensures cause { (before after : ℕ) → IfErr result (λ cause. IsOwn cause before after) }
    {
        match self.past.insert(name, past) {
            Ok(_) => Ok(()),
            Err(_) => Err(StartCause::Memory),
        }
    }

    // Two copies with one stamp are twins, unless they are the same.
    fn note_twins(&mut self, digest: Digest, same: bool)
        ensures { self.new ≡ record self.old { twins = twins_with digest same self.old.twins } }
    {
        if !same {
            self.twins = least_of(self.twins, Some(digest));
        }
    }

    // Takes in a copy with a digest and a stamp of which something is known.
    fn take_again<D: Disk>(
        &mut self,
        disk: &mut D,
        geometry: &Geometry,
        past: Past,
        found: &Found,
        text: &[u8],
        other: &mut [u8],
    ) -> Result<(), StartCause>
        requires geometry { IsGeometry geometry.now }
        requires room { device_end geometry.now ≤ (D.view disk.old).extent }
        requires there { IsOnDevice geometry.now past }
        requires size { length other.old ≡ geometry.now.block_size - 4096 }
        ensures read { OnlyRead (D.view disk.old) (D.view disk.new) }
        ensures size { length other.new ≡ geometry.now.block_size - 4096 }
        ensures taken { (D.view disk.old).tells → OnOk result (TakesAgain (copy_bytes geometry.now (place_of past) (D.view disk.old).seen) text.now past found.now self.old self.new) }
        ensures put { OnOk result (PutsPast (name_found found.now) (past_more past found.now) self.old.past self.new.past) }
        ensures stray { self.new.stray ≡ self.old.stray }
        ensures cause { IfErr result (λ cause. IsOwn cause (D.view disk.old).faults (D.view disk.new).faults) }
    {
        let Ok(same) = is_same(disk, geometry, &past, text, other) else {
            return Err(StartCause::Fault);
        };
        self.note_twins(found.head.digest, same);
        self.put(name_of(found), past_with(past, found))
    }

    /// Takes in a copy that was found in a block, where the bytes of its record are these.
    pub(crate) fn take<D: Disk>(
        &mut self,
        disk: &mut D,
        geometry: &Geometry,
        block: u32,
        found: &Found,
        text: &[u8],
        other: &mut [u8],
    ) -> Result<(), StartCause>
        requires geometry { IsGeometry geometry.now }
        requires room { device_end geometry.now ≤ (D.view disk.old).extent }
        requires there { IsOnDevice geometry.now (past_found block found.now) }
        requires known { AreOnDevice geometry.now self.old.past }
        requires size { length other.old ≡ geometry.now.block_size - 4096 }
        ensures read { OnlyRead (D.view disk.old) (D.view disk.new) }
        ensures size { length other.new ≡ geometry.now.block_size - 4096 }
        ensures known { OnOk result (AreOnDevice geometry.now self.new.past) }
        ensures taken { (D.view disk.old).tells → OnOk result (TakesCopy geometry.now (D.view disk.old).seen block text.now found.now self.old self.new) }
        ensures cause { IfErr result (λ cause. IsOwn cause (D.view disk.old).faults (D.view disk.new).faults) }
    {
        self.note_stray(geometry, found.head.digest);
        let name = name_of(found);
        if let Some(past) = self.past.get(&name) {
            let past = *past;
            return self.take_again(disk, geometry, past, found, text, other);
        }
        self.put(name, past_of(block, found))
    }
}
