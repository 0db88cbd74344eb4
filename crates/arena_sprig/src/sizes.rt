// How many entries hang below each slot, by slot. No contract rests on these numbers: they say where a tree leans, and which turn
// evens it out.
ghost use Rattle.std.specs.Prelude.{◌≡◌, slice_index_or, slice_set};

use entry_arena::FIRST;
use smallvec::SmallVec;

/// Sizes by slot. Those of an arena's first slots lie in the value.
pub type Sizes = SmallVec<u32, FIRST>;

/// The size of the tree of a slot, and 0 for no slot.
pub fn size_of(sizes: &[u32], slot: u32) -> u32
    ensures { result ≡ slice_index_or sizes.now slot 0 }
{
    let at = slot as usize;
    if at < sizes.len() { sizes[at] } else { 0 }
}

pub fn set_size(sizes: &mut [u32], slot: u32, size: u32)
    ensures { sizes.new ≡ slice_set sizes.old slot size }
{
    let at = slot as usize;
    if at < sizes.len() {
        sizes[at] = size;
    }
}

/// One more than the size, so that no tree weighs nothing.
pub fn weight(sizes: &[u32], slot: u32) -> u32 {
    size_of(sizes, slot).saturating_add(1)
}
