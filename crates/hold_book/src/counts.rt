// How many holds each block has.
ghost use Rattle.std.specs.Prelude.{◌≡◌, ◌≢◌, ◌+◌, ◌-◌, ◌<◌, ◌≤◌, ◌^◌, ℕ, count_by};
ghost use Rattle.std.specs.HashMap.{spare};
ghost use Rattle.hold_book.specs.Counts.{count_of, HasNoZero, CountsPairs, held_by_another};

use std::collections::HashMap;

/// Counts one hold more of a block.
pub fn raise(counts: &mut HashMap<u32, u64>, block: u32)
    requires room { 1 ≤ spare counts.old }
    requires some { HasNoZero counts.old }
    requires fits { count_of counts.old block < 2 ^ 63 }
    ensures at { count_of counts.new block ≡ count_of counts.old block + 1 }
    ensures others { (other : ℕ) → other ≢ block → count_of counts.new other ≡ count_of counts.old other }
    ensures some { HasNoZero counts.new }
{
    let count = counts.get(&block).copied().unwrap_or(0);
    let put: Result<_, _> = counts.insert(block, count + 1);
    put.unwrap();
}

/// Counts one hold less of a block.
fn lower(counts: &mut HashMap<u32, u64>, block: u32)
    requires held { 0 < count_of counts.old block }
    requires some { HasNoZero counts.old }
    ensures at { count_of counts.new block ≡ count_of counts.old block - 1 }
    ensures others { (other : ℕ) → other ≢ block → count_of counts.new other ≡ count_of counts.old other }
    ensures some { HasNoZero counts.new }
{
    let count = counts.get(&block).copied().unwrap_or(0);
    if count == 1 {
        counts.remove(&block);
    } else {
        let put: Result<_, _> = counts.insert(block, count - 1);
        put.unwrap();
    }
}

/// Takes the holds of a buffer out of the counts.
pub fn lower_all(pairs: &[(u64, u32)], counts: &mut HashMap<u32, u64>, buffer: u64)
    requires counted { CountsPairs pairs.now counts.old }
    ensures exact { (block : ℕ) → count_of counts.new block ≡ count_by (held_by_another buffer block) pairs.now }
    ensures some { HasNoZero counts.new }
{
    for (holder, block) in pairs {
        if *holder == buffer {
            lower(counts, *block);
        }
    }
}
