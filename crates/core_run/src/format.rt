// How disks are formatted as the devices of a node.
ghost use Rattle.std.specs.Prelude.{◌≡◌, ◌≤◌, ℕ, length, IfErr, OnOk};
ghost use Rattle.block_format.specs.Layout.{device_end};
ghost use Rattle.core_run.specs.Formatting.{IsShape, shaped, IsMade, GoesOn, EachDisk, AllFit, IsRefusedFor};

use block_format::{Geometry, SECTOR_BYTES};
use disk_model::Disk;
use shard_core::format_disk;

/// Why disks weren't formatted.
#[derive(Clone, Copy, Debug, PartialEq, Eq)]
pub enum FormatRefusal {
    /// This disk is the first that has too few bytes for its device: it has `len`. No disk was changed.
    Short { device: u16, len: u64 },
    /// This disk failed, and may hold some of it. Those in front of it are formatted, and those behind it are as they were.
    Fault { device: u16 },
}

// How many bytes a device of this shape has.
fn device_bytes(block_size: u32, blocks: u32) -> u64
    ensures { (device devices : ℕ) → result ≡ device_end (shaped block_size blocks devices device) }
{
    SECTOR_BYTES as u64 + u64::from(blocks) * u64::from(block_size)
}

// Refuses the first disk that has fewer bytes than its device needs.
fn refuse_short<D: Disk>(disks: &[D], block_size: u32, blocks: u32) -> Result<(), FormatRefusal>
    requires { length disks.now ≤ 16 }
    ensures fit { OnOk result (AllFit D.view (shaped block_size blocks (length disks.now)) disks.now) }
    ensures refused { IfErr result (IsRefusedFor D.view (shaped block_size blocks (length disks.now)) disks.now disks.now) }
{
    let needed = device_bytes(block_size, blocks);
    for (index, disk) in disks.iter().enumerate() {
        let len = disk.len();
        if len < needed {
            let device = index as u16;
            return Err(FormatRefusal::Short { device, len });
        }
    }
    Ok(())
}

// Formats each disk in order, up to the first that fails.
fn format_each<D: Disk>(disks: &mut [D], block_size: u32, blocks: u32) -> Result<(), FormatRefusal>
    requires disks { length disks.old ≤ 16 }
    requires shape { IsShape block_size blocks }
    requires fit { AllFit D.view (shaped block_size blocks (length disks.old)) disks.old }
    ensures formatted { OnOk result (EachDisk D.view (λ device. IsMade (shaped block_size blocks (length disks.old) device)) disks.old disks.new) }
    ensures refused { IfErr result (IsRefusedFor D.view (shaped block_size blocks (length disks.old)) disks.old disks.new) }
    ensures goes { EachDisk D.view (λ device. GoesOn (shaped block_size blocks (length disks.old) device)) disks.old disks.new }
{
    let devices = disks.len() as u16;
    for (index, disk) in disks.iter_mut().enumerate() {
        let device = index as u16;
        let geometry = Geometry {
            block_size,
            blocks,
            device,
            devices,
        };
        let Ok(()) = format_disk(disk, &geometry) else {
            return Err(FormatRefusal::Fault { device });
        };
    }
    Ok(())
}

/// At `Ok` each of the 1 to 16 disks is a device of one node, in order, without a record, and from then on a crash leaves just that, of a
/// disk that tells its bytes. Each has this many blocks of this many bytes. The lengths of all are compared before anything is written.
/// It stops at the first disk that fails, which may hold some of it; format them all again then. It takes no memory.
pub fn format_devices<D: Disk>(
    disks: &mut [D],
    block_size: u32,
    blocks: u32,
) -> Result<(), FormatRefusal>
    requires disks { (1 ≤ length disks.old) × (length disks.old ≤ 16) }
    requires shape { IsShape block_size blocks }
    ensures fit { OnOk result (AllFit D.view (shaped block_size blocks (length disks.old)) disks.old) }
    ensures formatted { OnOk result (EachDisk D.view (λ device. IsMade (shaped block_size blocks (length disks.old) device)) disks.old disks.new) }
    ensures refused { IfErr result (IsRefusedFor D.view (shaped block_size blocks (length disks.old)) disks.old disks.new) }
    ensures goes { EachDisk D.view (λ device. GoesOn (shaped block_size blocks (length disks.old) device)) disks.old disks.new }
{
    refuse_short(disks, block_size, blocks)?;
    format_each(disks, block_size, blocks)
}
