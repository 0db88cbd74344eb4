// Found copies in a row, the parts falling, so that those of the first part are at the end.
ghost use Rattle.std.specs.Prelude.{◌≡◌, ◌≢◌, ◌<◌, ◌≤◌, ◌++◌, [], ℕ, length, filter, not, ◌==◌, IfOk, IsNone, option_map};
ghost use Rattle.std.specs.Option.{option_to_list};
ghost use Rattle.std.specs.List.{All};
ghost use Rattle.raid_book.specs.Found.{Falls, IsEndOf, copy_in, copies_for, with_parts, without_part, least_part};

use crate::NoMemory;
use block_format::Found;
use rec_format::{Digest, Stamp};
use std::alloc::Global;

/// A copy that a scan found, with the part of its digest.
#[derive(Clone, Copy, PartialEq, Eq)]
pub struct FoundCopy {
    pub part: u32,
    pub digest: Digest,
    pub stamp: Stamp,
}

/// At `Ok` found copies with their parts, in a row whose parts fall. Those of a part keep their order.
/// An `Err` is want of memory.
pub fn by_part(alloc: Global, found: &[Found], parts: &[u32]) -> Result<Vec<FoundCopy>, NoMemory>
    requires { length parts.now ≡ length found.now }
    ensures falls { IfOk result (λ row. Falls row.items) }
    ensures copies { IfOk result (λ row. (part : ℕ) → copies_for part row.items ≡ copies_for part (with_parts found.now parts.now)) }
    ensures below { IfOk result (λ row. (count : ℕ) → All (λ p. p < count) parts.now → All (λ c. c.part < count) row.items) }
{
    let mut row = Vec::with_capacity(alloc, found.len())?;
    for (i, copy) in found.iter().enumerate() {
        row.push(FoundCopy {
            part: parts[i],
            digest: copy.head.digest,
            stamp: copy.head.stamp,
        })?;
    }
    row.sort_by(|a, b| b.part.cmp(&a.part))?;
    Ok(row)
}

/// Where the copies of lesser parts begin.
fn end_of(row: &[FoundCopy], part: u32) -> usize
    requires { Falls row.now }
    ensures { IsEndOf part row.now result }
{
    row.partition_point(|copy| part <= copy.part)
}

/// The last copy of a part, which is taken out; none where the part has none.
pub fn take_copy(row: &mut Vec<FoundCopy>, part: u32) -> Option<FoundCopy>
    requires { Falls row.old.items }
    ensures falls { Falls row.new.items }
    ensures none { IsNone result → row.new ≡ row.old }
    ensures copies { copies_for part row.old.items ≡ copies_for part row.new.items ++ option_to_list (option_map copy_in result) }
    ensures taken { IsNone result → copies_for part row.old.items ≡ [] }
    ensures others { (other : ℕ) → other ≢ part → copies_for other row.new.items ≡ copies_for other row.old.items }
    ensures all { (count : ℕ) → All (λ c. c.part < count) row.old.items → All (λ c. c.part < count) row.new.items }
    ensures above { (least : ℕ) → All (λ c. least ≤ c.part) row.old.items → All (λ c. least ≤ c.part) row.new.items }
{
    let at = end_of(row, part).checked_sub(1)?;
    if row[at].part != part {
        return None;
    }
    Some(row.remove(at))
}

/// The row has no copies of the part then, which no other part is before.
pub fn drop_first(row: &mut Vec<FoundCopy>, part: u32)
    requires falls { Falls row.old.items }
    requires first { All (λ c. part ≤ c.part) row.old.items }
    ensures { row.new.items ≡ without_part part row.old.items }
{
    let kept = row.partition_point(|copy| part < copy.part);
    row.truncate(kept);
}

/// The first part with copies; none where there are none.
pub fn first_of(row: &[FoundCopy]) -> Option<u32>
    requires { Falls row.now }
    ensures { result ≡ least_part row.now }
{
    row.last().map(|copy| copy.part)
}
