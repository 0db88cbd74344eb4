// The bytes of one sprig.
ghost use Rattle.std.specs.Prelude.{◌≤◌, ◌^◌};

use arena_sprig::{BOXED, FIRST, Sprig};
use rec_format::Entry;

/// A sprig that never had an entry.
const SPRIG: u64 = size_of::<Sprig>() as u64;

/// How many slots lie in the box of a sprig.
const IN_BOX: u64 = FIRST as u64;

/// The entry of a slot behind those.
const ENTRY: u64 = size_of::<Entry>() as u64;

/// Of each slot 4 bytes for its place among the free ones, 8 for its links, and 4 for the size of what hangs there. The first slots have them in the box,
/// until there are more.
const PLACE: u64 = 16;

/// What leads to a further stage of slots: where it lies, and how many there are.
const STAGE: u64 = 2 * size_of::<usize>() as u64;

/// How many slots there are where there is room for so many entries: a stage has four more than all before it, and 4,096 at most.
fn slots_for(entries: u64) -> u64
    ensures { result ≤ 2 ^ 33 }
{
    let entries = entries.min(u64::from(u32::MAX));
    if entries <= 4092 {
        (entries + 4).next_power_of_two().saturating_sub(4)
    } else {
        ((entries + 4).div_ceil(4096) * 4096).saturating_sub(4)
    }
}

/// How many stages so many slots lie in, but for the first.
fn stages_of(slots: u64) -> u64
    ensures { result ≤ 2 ^ 21 }
{
    let slots = slots.min(u64::from(u32::MAX));
    if slots < 4096 {
        u64::from((slots + 4).ilog2()).saturating_sub(3)
    } else {
        slots / 4096 + 9
    }
}

/// The bytes that a sprig asks for that has so many entries, and never had more.
pub fn bytes_for(entries: u64) -> u64 {
    if entries == 0 {
        return SPRIG;
    }
    if entries <= IN_BOX {
        return SPRIG + BOXED;
    }
    let slots = slots_for(entries);
    // What leads to the stages lies in a vector, which begins with room for four and doubles.
    let leads = stages_of(slots).max(4).next_power_of_two();
    SPRIG + BOXED + slots.saturating_sub(IN_BOX) * ENTRY + slots * PLACE + leads * STAGE
}
