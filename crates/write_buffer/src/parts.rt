// The parts of a body, written over bytes.
ghost use Rattle.std.specs.Prelude.{◌≡◌, ◌+◌, ◌*◌, ◌≤◌, ◌^◌, ◌++◌, length, take, drop};
ghost use Rattle.rec_format.specs.Versions.{IsVersion, version_units};
ghost use Rattle.rec_format.specs.RecordText.{CanBeRecorded, record_text};
ghost use Rattle.block_format.specs.Layout.{body_head_text};

use block_format::{BODY_HEAD_BYTES, write_head};
use rec_format::{Digest, VersionRef, pack_into};

/// Writes the head of a body over the front of some bytes. What stands behind it stays.
pub(crate) fn put_head(bytes: &mut [u8], number: u64, records: u32, units: u32, block: u32)
    requires { BODY_HEAD_BYTES ≤ length bytes.old }
    ensures { bytes.new ≡ body_head_text number records units block ++ drop 32 bytes.old }
{
    let mut head = [0; BODY_HEAD_BYTES];
    write_head(number, records, units, block, &mut head);
    bytes[..BODY_HEAD_BYTES].copy_from_slice(&head);
}

/// Writes a record over some bytes, from a place on. What stands before and behind it stays.
pub(crate) fn put_record(bytes: &mut [u8], place: usize, digest: &Digest, version: &VersionRef<'_>)
    requires version { IsVersion version.now }
    requires size { length version.now.payload ≤ 2 ^ 31 }
    requires room { place + 16 * version_units version.now ≤ length bytes.old }
    ensures text { bytes.new ≡ take place bytes.old
        ++ (record_text digest.now version.now ++ drop (16 * version_units version.now) (drop place bytes.old)) }
    ensures recordable { CanBeRecorded digest.now version.now }
{
    pack_into(version, digest, &mut bytes[place..]);
}
