// The holds of a device as a set of pairs, with the number of holds of each block.
ghost use Rattle.std.specs.Prelude.{◌≡◌, ◌↔◌, ◌≤◌, ℕ, IsTrue, IsOk, OnOk, MatchOption};
ghost use Rattle.std.specs.FinSet as set;
ghost use Rattle.hold_book.specs.Holds.{IsHeld, CountsHeld, HoldsNoneFrom, IsFirstHeld, has_hold, with_pair, without_buffer};

use crate::NoMemory;
use crate::counts::{lower_all, raise};
use crate::search::{find, first_from};
use std::alloc::Global;
use std::collections::HashMap;
use std::marker::Model;

/// A set of holds, each of a block by a buffer.
#[derive(Drop)]
pub struct HoldBook {
    // in rising order
    pairs: Vec<(u64, u32)>,
    counts: HashMap<u32, u64>,
}

impl Model for HoldBook {
    ghost use Rattle.std.specs.Prelude.{◌-◌, min, vec_len, vec_capacity};
    ghost use Rattle.std.specs.List.Sorted.{IsStrictlySortedBy};
    ghost use Rattle.std.specs.FinSet as set;
    ghost use Rattle.std.specs.HashMap.{spare};
    ghost use Rattle.hold_book.specs.Holds.{HoldState, hold_state_code, pair_cmp};
    ghost use Rattle.hold_book.specs.Counts.{CountsPairs};

    ghost Value = { HoldState };

    ghost coded = { hold_state_code };

    ghost view = { λ b. record { holds = set.from_list b.pairs.items; spare = min (vec_capacity b.pairs - vec_len b.pairs) (spare b.counts) } };

    ghost invariant = { λ b. CountsPairs b.pairs.items b.counts × IsStrictlySortedBy pair_cmp b.pairs.items };
}

impl HoldBook {
    /// A book without holds, and without room. It keeps the allocator.
    pub fn new(alloc: Global) -> HoldBook
        ensures { result.holds ≡ set.empty }
    {
        HoldBook {
            pairs: Vec::new(alloc),
            counts: HashMap::new(alloc),
        }
    }

    /// At `Ok` there is room for one hold more. An `Err` is want of memory. The holds stay as they
    /// are.
    pub fn reserve(&mut self) -> Result<(), NoMemory>
        ensures room { OnOk result (1 ≤ self.new.spare) }
        ensures holds { self.new.holds ≡ self.old.holds }
        ensures grows { self.old.spare ≤ self.new.spare }

        // It can fail only where there is no room.
        ensures enough { 1 ≤ self.old.spare → IsOk result }
    {
        self.pairs.reserve(1)?;
        self.counts.reserve(1)
    }

    /// The buffer holds the block then, in room that was reserved. A hold that is there already
    /// stays.
    pub fn hold(&mut self, buffer: u64, block: u32)
        requires { 1 ≤ self.old.spare }
        ensures { self.new.holds ≡ with_pair self.old.holds buffer block }
    {
        if let Err(at) = find(&self.pairs, buffer, block) {
            self.pairs.insert(at, (buffer, block)).unwrap();
            raise(&mut self.counts, block);
        }
    }

    /// Whether any buffer holds the block.
    pub fn held(&self, block: u32) -> bool
        ensures { IsTrue result ↔ IsHeld self.now.holds block }
    {
        self.counts.contains_key(&block)
    }

    /// Whether a buffer other than this one holds the block.
    pub fn held_besides(&self, buffer: u64, block: u32) -> bool
        ensures { IsTrue result ↔ IsHeld (without_buffer self.now.holds buffer) block }
    {
        let count = self.counts.get(&block).copied().unwrap_or(0);
        if self.holds(buffer, block) {
            count > 1
        } else {
            count > 0
        }
    }

    /// How many blocks are held.
    pub fn held_count(&self) -> u64
        ensures { CountsHeld self.now.holds result }
    {
        self.counts.len() as u64
    }

    /// Whether this buffer holds the block.
    pub fn holds(&self, buffer: u64, block: u32) -> bool
        ensures { result ≡ has_hold self.now.holds buffer block }
    {
        find(&self.pairs, buffer, block).is_ok()
    }

    /// The first block from this number on that the buffer holds; none where it holds none from
    /// there on.
    pub fn first_from(&self, buffer: u64, from: u32) -> Option<u32>
        ensures { MatchOption result (HoldsNoneFrom self.now.holds buffer from) (IsFirstHeld self.now.holds buffer from) }
    {
        first_from(&self.pairs, buffer, from)
    }

    /// The buffer holds nothing then. The holds of others stay.
    pub fn release(&mut self, buffer: u64)
        ensures { self.new.holds ≡ without_buffer self.old.holds buffer }
    {
        lower_all(&self.pairs, &mut self.counts, buffer);
        self.pairs.retain(|(holder, _)| *holder != buffer);
    }
}
