// What is found in a whole image.
ghost use Rattle.std.specs.Prelude.{◌≡◌, List, Some, None, IfOk, option_map};
ghost use Rattle.rec_format.specs.Versions.{is_later_stamp};
ghost use Rattle.block_format.specs.declared.geometry.Geometry.{Geometry};
ghost use Rattle.block_format.specs.Layout.{Body};
ghost use Rattle.block_format.specs.Copies.{IsReadable, cold, copies_of};
ghost use Rattle.test_hist.specs.Finds.{IsUnreadable, records_of};
ghost use Rattle.test_hist.specs.Steps.{later_version};

use crate::reading::{add_block, shape_of};
use rec_format::{Digest, NoMemory, Stamp, Version};
use std::alloc::Global;

/// All records behind the open gates of an image, in rising block and unit.
///
/// None exactly where the image can't be read: it has no header, it ends before the device does, or behind an open
/// gate stands no body of that block. The only error is want of memory.
pub fn copies(alloc: Global, image: &[u8]) -> Result<Option<Vec<(Digest, Version)>>, NoMemory>
    ensures readable { IfOk result (λ r. (g : Geometry) (bodies : List Body) → IsReadable image.now g bodies
        → option_map (λ v. v.items) r ≡ Some (records_of bodies)) }
    ensures other { IfOk result (λ r. IsUnreadable image.now → r ≡ None) }
{
    let Some(geometry) = shape_of(image) else {
        return Ok(None);
    };
    let mut records = Vec::new(alloc);
    for block in 0..geometry.blocks {
        let whole = add_block(alloc, image, &geometry, block, &mut records)?;
        if !whole {
            return Ok(None);
        }
    }
    Ok(Some(records))
}

/// A later update time, or the same with a greater generation.
fn is_later(stamp: Stamp, than: Stamp) -> bool
    ensures { result ≡ is_later_stamp stamp than }
{
    stamp.lut > than.lut || (stamp.lut == than.lut && stamp.gen_ > than.gen_)
}

/// The later of a version and of the latest behind it, of equal ones the first.
fn later_of(version: Version, behind: Option<Version>) -> Version
    ensures { result ≡ later_version version behind }
{
    let Some(other) = behind else {
        return version;
    };
    if is_later(other.stamp, version.stamp) {
        other
    } else {
        version
    }
}

/// The latest version of a digest behind the open gates of an image: by the update time, then by the generation, and
/// of equal ones the first in rising block and unit.
///
/// None where the image has no version of this digest, or can't be read. The only error is want of memory.
pub fn cold(alloc: Global, image: &[u8], digest: &Digest) -> Result<Option<Version>, NoMemory>
    ensures readable { IfOk result (λ r. (g : Geometry) (bodies : List Body) → IsReadable image.now g bodies
        → r ≡ cold digest.now (copies_of bodies)) }
    ensures other { IfOk result (λ r. IsUnreadable image.now → r ≡ None) }
{
    let Some(mut records) = copies(alloc, image)? else {
        return Ok(None);
    };
    let mut latest = None;
    // The last record comes first, so that each is compared with the latest of those behind it.
    while let Some((named, version)) = records.pop() {
        if *digest == named {
            latest = Some(later_of(version, latest));
        }
    }
    Ok(latest)
}
