// Slots for entries, and the stack of those that aren't in use.
ghost use Rattle.std.specs.Prelude.{◌≡◌, ◌+◌, ◌-◌, ◌<◌, ◌≤◌, ◌++◌, length, max, replicate, None, Some, IsOk, OnOk, OnErr, IsSome, slice_set};
ghost use Rattle.std.specs.List.{range_with_len};
ghost use Rattle.smallvec.specs.SmallVec.{small_vec_len};
ghost use Rattle.entry_arena.specs.State.{entry_at, width_after, with_free, Grows};

use crate::NoMemory;
use crate::sizes::{FIRST, next_width};
use crate::stages::Stages;
use rec_format::Entry;
use smallvec::SmallVec;
use std::alloc::Global;
use std::marker::Model;

/// Slots for entries, each with its number. The first four lie in the arena itself, those behind them in memory that never moves.
#[derive(Drop)]
pub struct Arena {
    stages: Stages,
    // The slots that aren't in use. There is room for all slots.
    free: SmallVec<u32, FIRST>,
}

impl Model for Arena {
    ghost use Rattle.smallvec.specs.SmallVec.{small_vec_len};
    ghost use Rattle.entry_arena.specs.State.{ArenaState};
    ghost use Rattle.entry_arena.specs.Free.{IsFree};

    ghost Value = { ArenaState };

    ghost view = { λ a. record { slots = a.stages; spare = small_vec_len a.free } };

    ghost invariant = { λ a. IsFree a.stages a.free.items a.free.capacity };
}

impl Arena {
    /// An arena of the first four slots, none of them in use. It takes no memory, and keeps the allocator.
    pub fn new(alloc: Global) -> Arena
        ensures { result ≡ record { slots = replicate 4 None; spare = 4 } }
    {
        Arena {
            stages: Stages::new(alloc),
            free: SmallVec::from_buf(alloc, [3, 2, 1, 0]),
        }
    }

    /// How many slots there are, in use or not. Each slot has a number below.
    pub fn slots(&self) -> u32
        ensures { result ≡ length self.now.slots }
    {
        self.stages.len()
    }

    /// How many puts there is room for.
    pub fn spare(&self) -> u32
        ensures { result ≡ self.now.spare }
    {
        self.free.len() as u32
    }

    /// How many slots the next stage has.
    pub fn next_width(&self) -> u32
        ensures { result ≡ width_after (length self.now.slots) }
    {
        next_width(self.slots())
    }

    /// One stage more, or, at want of memory, nothing. More than 4,294,967,295 slots are as much as memory can't hold.
    pub fn grow(&mut self) -> Result<(), NoMemory>
        ensures ok { OnOk result (self.new ≡ with_free (width_after (length self.old.slots)) self.old) }
        ensures err { OnErr result (self.new ≡ self.old) }
    {
        let first = self.slots();
        let all = first as usize + next_width(first) as usize;
        self.free.reserve_exact(all - self.free.len())?;
        self.stages.grow()?;
        push_range(&mut self.free, first, self.stages.len());
        Ok(())
    }

    /// At `Ok` there is room for `n` puts. An `Err` is want of memory, as of `grow`; of the stages that were wanted, those that were
    /// made before stay. Each entry stays in its slot, and where it is in memory.
    pub fn reserve(&mut self, n: u32) -> Result<(), NoMemory>
        ensures room { OnOk result (n ≤ self.new.spare) }
        ensures slots { Grows self.old self.new }

        // No stage is made that isn't wanted.
        ensures few { self.new.spare ≤ max self.old.spare (n + 4095) }

        // It fails, and makes a stage, only where that room was missing.
        ensures enough { n ≤ self.old.spare → IsOk result }
        ensures stays { n ≤ self.old.spare → self.new ≡ self.old }
    {
        for puts in 0..n {
            if self.spare() <= puts {
                self.grow()?;
            }
        }
        Ok(())
    }

    /// Puts an entry into a slot that wasn't in use, and answers the slot. It takes no memory.
    pub fn put(&mut self, entry: Entry) -> u32
        requires { 1 ≤ self.old.spare }
        ensures within { result < length self.old.slots }
        ensures free { entry_at self.old result ≡ None }
        ensures rest { self.new ≡ record { slots = slice_set self.old.slots result (Some entry); spare = self.old.spare - 1 } }
    {
        let slot = self.free.pop().unwrap();
        self.stages.put(slot, entry);
        slot
    }

    /// The entry of a slot in use.
    pub fn get(&self, slot: u32) -> &Entry
        requires { IsSome (entry_at self.now slot) }
        ensures { entry_at self.now slot ≡ Some result.now }
    {
        self.stages.get(slot)
    }

    /// Another entry in a slot in use.
    pub fn set(&mut self, slot: u32, entry: Entry)
        requires { IsSome (entry_at self.old slot) }
        ensures { self.new ≡ record self.old { slots = slice_set self.old.slots slot (Some entry) } }
    {
        self.stages.put(slot, entry);
    }

    /// Takes the entry out of a slot, which isn't in use from then on. It takes no memory.
    pub fn take(&mut self, slot: u32) -> Entry
        requires { IsSome (entry_at self.old slot) }
        ensures value { entry_at self.old slot ≡ Some result }
        ensures rest { self.new ≡ record { slots = slice_set self.old.slots slot None; spare = self.old.spare + 1 } }
    {
        let entry = self.stages.take(slot);
        self.free.push_reserved(slot);
        entry
    }
}

/// Pushes the numbers of a range, rising.
fn push_range(free: &mut SmallVec<u32, FIRST>, first: u32, end: u32)
    requires ordered { first ≤ end }
    requires room { small_vec_len free.old + (end - first) ≤ free.old.capacity }
    ensures items { free.new.items ≡ free.old.items ++ range_with_len first (end - first) }
    ensures capacity { free.new.capacity ≡ free.old.capacity }
{
    for number in first..end {
        free.push_reserved(number);
    }
}
