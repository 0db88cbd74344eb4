// Pairs of a buffer and a block in rising order.
ghost use Rattle.std.specs.Prelude.{◌≡◌, ◌≤◌, length, slice_get, Some, MatchResult, MatchOption};
ghost use Rattle.std.specs.List.Sorted.{IsPartitionPoint, IsStrictlySortedBy};
ghost use Rattle.std.specs.declared.cmp.Ordering.TheVariants.{Less, Greater};
ghost use Rattle.hold_book.specs.Holds.{pair_cmp};
ghost use Rattle.hold_book.specs.Pairs.{HasNoneFrom, IsFirstFrom};

/// Where a pair is, or where it would go.
pub fn find(pairs: &[(u64, u32)], buffer: u64, block: u32) -> Result<usize, usize>
    requires { IsStrictlySortedBy pair_cmp pairs.now }
    ensures { MatchResult result (λ at. slice_get pairs.now at ≡ Some (buffer, block))
        (λ at. (at ≤ length pairs.now) × IsPartitionPoint (λ p. pair_cmp p (buffer, block) ≡ Less) (λ p. pair_cmp p (buffer, block) ≡ Greater) pairs.now at) }
{
    pairs.binary_search(&(buffer, block))
}

/// The first block from this number on that is paired with a buffer; none where there is none.
pub fn first_from(pairs: &[(u64, u32)], buffer: u64, from: u32) -> Option<u32>
    requires { IsStrictlySortedBy pair_cmp pairs.now }
    ensures { MatchOption result (HasNoneFrom buffer from pairs.now) (IsFirstFrom buffer from pairs.now) }
{
    let at = match find(pairs, buffer, from) {
        Ok(at) => at,
        Err(at) => at,
    };
    let (holder, block) = *pairs.get(at)?;
    if holder == buffer { Some(block) } else { None }
}
