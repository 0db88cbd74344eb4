// The text of a record.
ghost use Rattle.std.specs.Prelude.{◌≡◌, ◌+◌, ◌*◌, ◌^◌, ◌<◌, ◌≤◌, ◌++◌, length, drop, OnOk, OnErr};
ghost use Rattle.rec_format.specs.Versions.{IsVersion, units_for, version_units};
ghost use Rattle.rec_format.specs.RecordText.{CanBeRecorded, flag_byte, record_head, record_text};

use crate::NoMemory;
use crate::version::{Digest, Kind, Version, VersionRef};
use byteorder::{ByteOrder, LittleEndian};
use std::alloc::Global;

/// The bytes of a record before its payload.
pub const HEAD_BYTES: usize = 48;

/// Records take whole units of so many bytes.
pub const UNIT_BYTES: usize = 16;

/// The first bytes of each record.
pub(crate) const MAGIC: [u8; 4] = *b"REC1";

/// The units of a record with a payload of so many bytes: its 48 bytes and the payload, in whole units of 16.
pub fn units_of(length: u32) -> u32
    ensures { result ≡ units_for length }
{
    ((u64::from(length) + 63) / 16) as u32
}

/// The flag byte of a record.
fn flags_of(kind: Kind, cover: bool) -> u8
    ensures { result ≡ flag_byte kind cover }
{
    match (kind, cover) {
        (Kind::Put, false) => 0,
        (Kind::Put, true) => 2,
        (Kind::Tomb, _) => 3,
    }
}

/// The bytes before the payload.
fn head_of(version: &VersionRef<'_>, digest: &Digest, size: u32) -> [u8; HEAD_BYTES]
    requires { size ≡ length version.now.payload }
    ensures text { result ≡ record_head digest.now version.now }
    ensures size { length result ≡ HEAD_BYTES }
{
    let mut head = [0; HEAD_BYTES];
    head[..4].copy_from_slice(&MAGIC);
    LittleEndian::write_u32(&mut head[4..8], size);
    LittleEndian::write_u64(&mut head[8..16], version.stamp.lut);
    LittleEndian::write_u64(&mut head[16..24], version.void);
    LittleEndian::write_u16(&mut head[24..26], version.stamp.gen_);
    head[26] = flags_of(version.kind, version.cover);
    head[28..].copy_from_slice(&digest.0);
    head
}

/// The text of a record stands at the front of `out` then: the head, the payload, and zeros up to a whole unit of 16
/// bytes. What stands behind it stays. It takes no memory, and isn't refused.
pub fn pack_into(version: &VersionRef<'_>, digest: &Digest, out: &mut [u8])
    requires version { IsVersion version.now }
    requires size { length version.now.payload ≤ 2 ^ 31 }
    requires room { 16 * version_units version.now ≤ length out.old }
    ensures text { out.new
        ≡ record_text digest.now version.now ++ drop (16 * version_units version.now) out.old }
    ensures recordable { CanBeRecorded digest.now version.now }
{
    let payload = version.payload;
    let size = payload.len() as u32;
    let end = HEAD_BYTES + payload.len();
    let whole = UNIT_BYTES * units_of(size) as usize;
    out[..HEAD_BYTES].copy_from_slice(&head_of(version, digest, size));
    out[HEAD_BYTES..end].copy_from_slice(payload);
    out[end..whole].fill(0);
}

/// At `Ok` the text of a record stands behind what was in `out`. An `Err` is want of memory, and `out` keeps its
/// bytes.
pub fn pack(
    _alloc: Global,
    version: &Version,
    digest: &Digest,
    out: &mut Vec<u8>,
) -> Result<(), NoMemory>
    requires version { IsVersion version.now }
    requires size { length version.now.payload ≤ 2 ^ 31 }
    ensures ok { OnOk result (out.new.items ≡ out.old.items ++ record_text digest.now version.now) }
    ensures recordable { OnOk result (CanBeRecorded digest.now version.now) }
    ensures err { OnErr result (out.new.items ≡ out.old.items) }
{
    let start = out.len();
    let size = version.payload.as_slice().len() as u32;
    let whole = UNIT_BYTES * units_of(size) as usize;
    out.reserve(whole)?;
    out.resize(start + whole, 0)?;
    pack_into(&version.lent(), digest, &mut out[start..]);
    Ok(())
}
