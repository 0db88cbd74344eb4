// How the blocks that a flushed buffer lets go become free.
ghost use Rattle.std.specs.Prelude.{◌≡◌, ◌≢◌, ◌≤◌, ◌<◌, ◌++◌, ◌↔◌, ℕ, Bool, length, filter, IsTrue, MatchBool, MatchOption};
ghost use Rattle.std.specs.List.{AllByRecursion, range_with_len};
ghost use Rattle.std.specs.VecDeque.{deque_capacity};
ghost use Rattle.block_shelf.specs.Lives.{copies_in};
ghost use Rattle.hold_book.specs.Holds.{HoldsBelow, without_buffer};
ghost use Rattle.block_shelf.specs.View.{AreApart, IsLiveList};
ghost use Rattle.block_shelf.specs.Changes.{has_buffer_in};
ghost use Rattle.block_shelf.specs.LetGo.{HasNoneOf, IsFirstOf, IsBare, IsLetGo, IsFreeOrLetGo};

use crate::ledger::LiveLedger;
use hold_book::HoldBook;
use std::collections::VecDeque;
use write_buffer::Buffer;

// Each block that a flushed buffer lets go comes to the back of the free ones, in rising number: of its own and those that it holds
// the ones that nothing keeps when its holds end. None of them was free, and there is room for them.
pub(crate) fn free_let_go(
    number: u64,
    own: u32,
    buffers: &[Buffer],
    ledger: &LiveLedger,
    holds: &HoldBook,
    free: &mut VecDeque<u32>,
)
    requires own { own < length ledger.now }
    requires held { HoldsBelow (length ledger.now) holds.now.holds }
    requires few { length ledger.now ≤ 65536 }
    requires each { (block : ℕ) → IsLiveList (copies_in block ledger.now) }
    requires room { length ledger.now ≤ deque_capacity free.old }
    requires below { AllByRecursion (λ b. b < length ledger.now) free.old.items }
    requires apart { AreApart free.old.items }
    requires others { (block : ℕ) → block < length ledger.now → IsLetGo number own holds.now.holds (without_buffer holds.now.holds number) buffers.now ledger.now block → AllByRecursion (λ b. b ≢ block) free.old.items }
    ensures freed { (come : ℕ → Bool) → ((block : ℕ) → block < length ledger.now → (IsTrue (come block) ↔ IsLetGo number own holds.now.holds (without_buffer holds.now.holds number) buffers.now ledger.now block))
        → free.new.items ≡ free.old.items ++ filter come (range_with_len 0 (length ledger.now)) }
    ensures each { AllByRecursion (IsFreeOrLetGo (length ledger.now) free.old.items (IsLetGo number own holds.now.holds (without_buffer holds.now.holds number) buffers.now ledger.now)) free.new.items }
    ensures below { AllByRecursion (λ b. b < length ledger.now) free.new.items }
    ensures apart { AreApart free.new.items }
    ensures room { length ledger.now ≤ deque_capacity free.new }
{
    let mut from = 0;
    while let Some(block) = next_of(holds, number, own, from) {
        if !holds.held_besides(number, block) && is_bare(buffers, ledger, block) {
            let put: Result<_, _> = free.push_back(block);
            put.unwrap();
        }
        from = block + 1;
    }
}

// The first block from this number on that is the buffer's own, or that it holds.
fn next_of(holds: &HoldBook, number: u64, own: u32, from: u32) -> Option<u32>
    ensures { MatchOption result (HasNoneOf number own holds.now.holds from) (IsFirstOf number own holds.now.holds from) }
{
    let held = holds.first_from(number, from);
    if own < from {
        held
    } else {
        Some(held.unwrap_or(own).min(own))
    }
}

// Whether no buffer has a block, and nothing in it is live.
pub(crate) fn is_bare(buffers: &[Buffer], ledger: &LiveLedger, block: u32) -> bool
    requires below { block < length ledger.now }
    requires each { IsLiveList (copies_in block ledger.now) }
    ensures { MatchBool result (IsBare buffers.now ledger.now block) (IsBare buffers.now ledger.now block → ⊥) }
{
    if has_block(buffers, block) {
        return false;
    }
    ledger.used(block) == 0
}

// Whether one of some buffers has a block.
pub(crate) fn has_block(buffers: &[Buffer], block: u32) -> bool
    ensures value { result ≡ has_buffer_in buffers.now block }
    ensures told { MatchBool result (AllByRecursion (λ b. b.block ≢ block) buffers.now → ⊥) (AllByRecursion (λ b. b.block ≢ block) buffers.now) }
{
    for buffer in buffers {
        if buffer.block() == block {
            return true;
        }
    }
    false
}
