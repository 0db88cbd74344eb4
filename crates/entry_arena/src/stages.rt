// Entries in stages. The first stage lies in the arena itself. Each further one takes all its memory at once, and its cells never
// move: only the vector of these stages does.
ghost use Rattle.std.specs.Prelude.{◌≡◌, ◌<◌, ◌++◌, length, replicate, None, Some, IsSome, OnOk, OnErr, slice_index_or, slice_set};
ghost use Rattle.entry_arena.specs.State.{width_after};

use crate::NoMemory;
use crate::cells::Cells;
use crate::sizes::{FIRST, locate, next_width};
use rec_format::Entry;
use std::alloc::{AllocError, Global};
use std::marker::Model;

/// A cell for each slot.
#[derive(Drop)]
pub struct Stages {
    first: [Option<Entry>; FIRST],
    more: Vec<Cells>,
    total: u32,
    alloc: Global,
}

impl Model for Stages {
    ghost use Rattle.std.specs.Prelude.{List, Option, ◌++◌};
    ghost use Rattle.rec_format.specs.declared.entry.Entry.{Entry};
    ghost use Rattle.entry_arena.specs.Stages.{flat, IsStaged};

    ghost Value = { List (Option Entry) };

    ghost view = { λ s. s.first ++ flat s.more.items };

    ghost invariant = { λ s. IsStaged s.first s.more.items s.total };
}

impl Stages {
    /// The first stage, whose cells are empty. It takes no memory.
    pub fn new(alloc: Global) -> Stages
        ensures { result ≡ replicate 4 None }
    {
        Stages {
            first: [None; FIRST],
            more: Vec::new(alloc),
            total: FIRST as u32,
            alloc,
        }
    }

    pub fn len(&self) -> u32
        ensures { result ≡ length self.now }
    {
        self.total
    }

    /// One stage more, whose cells are empty, or nothing.
    pub fn grow(&mut self) -> Result<(), NoMemory>
        ensures ok { OnOk result (self.new ≡ self.old ++ replicate (width_after (length self.old)) None) }
        ensures err { OnErr result (self.new ≡ self.old) }
    {
        let count = next_width(self.total);
        if count > u32::MAX - self.total {
            return Err(AllocError);
        }
        self.more.reserve(1)?;
        let stage = Cells::new(count as usize, self.alloc)?;
        self.more.push_reserved(stage);
        self.total += count;
        Ok(())
    }

    /// The entry of a slot that has one.
    pub fn get(&self, slot: u32) -> &Entry
        requires { IsSome (slice_index_or self.now slot None) }
        ensures { slice_index_or self.now slot None ≡ Some result.now }
    {
        let at = slot as usize;
        if at < FIRST {
            return self.first[at].as_ref().unwrap();
        }
        let (stage, place) = locate(slot);
        self.more[stage].get(place)
    }

    /// Puts an entry into a slot, whether it has one or not.
    pub fn put(&mut self, slot: u32, entry: Entry)
        requires { slot < length self.old }
        ensures { self.new ≡ slice_set self.old slot (Some entry) }
    {
        let at = slot as usize;
        if at < FIRST {
            self.first[at] = Some(entry);
            return;
        }
        let (stage, place) = locate(slot);
        self.more[stage].put(place, entry);
    }

    /// Takes the entry out of a slot that has one.
    pub fn take(&mut self, slot: u32) -> Entry
        requires { IsSome (slice_index_or self.old slot None) }
        ensures value { slice_index_or self.old slot None ≡ Some result }
        ensures rest { self.new ≡ slice_set self.old slot None }
    {
        let at = slot as usize;
        if at < FIRST {
            let entry = self.first[at].unwrap();
            self.first[at] = None;
            return entry;
        }
        let (stage, place) = locate(slot);
        self.more[stage].take(place)
    }
}
