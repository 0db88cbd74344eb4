// Images of writes that are torn inside sectors.
use crate::raw::{bytes_of, write};
use disk_model::MemDisk;
use scenario_text::Trouble;
use std::alloc::Global;

const SECTOR_BYTES: usize = 4096;

// Of each sector the first bytes are those of another content.
fn tear(bytes: &mut [u8], written: &[u8], count: u64) {
    let mut at = 0_usize;
    for (byte, new) in bytes.iter_mut().zip(written) {
        if ((at % SECTOR_BYTES) as u64) < count {
            *byte = *new;
        }
        at = at.saturating_add(1);
    }
}

/// A new disk with what a crash at a moment leaves where of each sector that isn't synced so many bytes were written, and the others not.
pub fn torn_image(
    alloc: Global,
    disk: &MemDisk,
    moment: u64,
    count: u64,
) -> Result<MemDisk, Trouble> {
    if moment >= disk.moments() {
        return Err(Trouble::Line("the disk has no such moment"));
    }
    let mut image = disk.image(moment, 0)?;
    let mut whole = disk.image(moment, u64::MAX)?;
    let mut bytes = bytes_of(alloc, &mut image)?;
    tear(&mut bytes, &bytes_of(alloc, &mut whole)?, count);
    write(&mut image, 0, &bytes)?;
    Ok(image)
}
