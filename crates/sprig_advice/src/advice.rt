// Whether another number of sprigs would take a third less memory.
ghost use Rattle.std.specs.Prelude.{◌*◌, ◌≤◌, IfSome};

use crate::spread::bytes_over;

/// With fewer entries than this the memory isn't worth a word.
const FEW: u64 = 1000;

/// The partitions of a node, each of which has its own sprigs.
const PARTITIONS: u64 = 4096;

/// Another number of sprigs in each partition, and the bytes of the index for each entry, as it is and as it would be.
#[derive(Clone, Copy, PartialEq, Eq, Debug, Drop)]
pub struct Advice {
    pub sprigs: u32,
    pub bytes: u64,
    pub fewer: u64,
}

/// The bytes for each of so many entries where a partition has so many sprigs.
fn bytes_each(entries: u64, sprigs: u32) -> u64 {
    let all = u64::from(sprigs).saturating_mul(PARTITIONS);
    bytes_over(entries, all) / entries.max(1)
}

/// Of the numbers of sprigs from 1 to 256 that are powers of two the one with which so many entries take least, where that is a third less than with so
/// many; none where no number saves as much, or there are few entries.
pub fn better(entries: u64, sprigs: u32) -> Option<Advice>
    ensures { IfSome result (λ a. a.fewer * 3 ≤ a.bytes * 2) }
{
    if entries < FEW {
        return None;
    }
    let bytes = bytes_each(entries, sprigs);
    let (other, fewer) = least(entries);
    if fewer > bytes / 3 * 2 {
        return None;
    }
    Some(Advice {
        sprigs: other,
        bytes,
        fewer,
    })
}

/// The number of sprigs with which so many entries take least, the smallest of several, and the bytes of each then.
fn least(entries: u64) -> (u32, u64) {
    let mut best = (1, bytes_each(entries, 1));
    for power in 1..=8_u32 {
        let sprigs = 1 << power;
        let bytes = bytes_each(entries, sprigs);
        if bytes < best.1 {
            best = (sprigs, bytes);
        }
    }
    best
}
