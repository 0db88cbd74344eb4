// The memory of one stage: a cell for each of its slots, which has an entry or none.
ghost use Rattle.std.specs.Prelude.{◌≡◌, ◌≤◌, ◌<◌, List, Option, None, Some, length, replicate, IsSome, IfOk, slice_index_or, slice_set};
ghost use Rattle.rec_format.specs.declared.entry.Entry.{Entry};

use crate::NoMemory;
use rec_format::Entry;
use std::alloc::{Allocator, Global};
use std::marker::Model;

/// Cells side by side in one block of memory, which is taken at once and never moves. A cell's memory is written first by a `put`.
pub struct Cells {
    at: *mut Entry,
    count: usize,
    alloc: Global,
    ghost cells: { List (Option Entry) },
}

impl Model for Cells {
    ghost use Rattle.std.specs.Prelude.{List, Option};
    ghost use Rattle.rec_format.specs.declared.entry.Entry.{Entry};
    ghost use Rattle.entry_arena.specs.Cells.{stage_owns, stage_lends};
    ghost use Rattle.rec_format.specs.contracts.entry.Entry.{the_row};

    ghost also_owns = { λ c. stage_owns the_row (⟦<Global as Allocator>⟧.dealloc_token c.alloc) c.at c.count c.cells };

    ghost also_shares = { λ c p κ. stage_lends the_row c.at c.cells κ };
}

impl Cells {
    /// Empty cells, or want of memory.
    pub fn new(count: usize, alloc: Global) -> Result<Cells, NoMemory>
        requires few { count ≤ 4096 }
        requires some { 1 ≤ count }
        ensures { IfOk result (λ c. c.cells ≡ replicate count None) }
    {
        match alloc.allocate(count * size_of::<Entry>(), align_of::<Entry>()) {
            Ok(at) => Ok(Cells {
                at: at as *mut Entry,
                count,
                alloc,
            }),
            Err(error) => Err(error),
        }
    }

    /// Puts an entry into a cell, whether it has one or not.
    pub fn put(&mut self, place: usize, entry: Entry)
        requires { place < length self.old.cells }
        ensures { self.new ≡ record self.old { cells = slice_set self.old.cells place (Some entry) } }
    {
        unsafe { self.at.add(place).write(entry) }
    }

    /// The entry of a cell that has one.
    pub fn get(&self, place: usize) -> &Entry
        requires { IsSome (slice_index_or self.now.cells place None) }
        ensures { slice_index_or self.now.cells place None ≡ Some result.now }
    {
        unsafe { &*self.at.add(place) }
    }

    /// Takes the entry out of a cell that has one.
    pub fn take(&mut self, place: usize) -> Entry
        requires { IsSome (slice_index_or self.old.cells place None) }
        ensures entry { slice_index_or self.old.cells place None ≡ Some result }
        ensures cells { self.new ≡ record self.old { cells = slice_set self.old.cells place None } }
    {
        unsafe { self.at.add(place).read() }
    }
}

impl Drop for Cells {
    fn drop(self) {
        let Self { at, count, alloc } = self;
        unsafe {
            alloc.deallocate(
                at as *mut u8,
                count * size_of::<Entry>(),
                align_of::<Entry>(),
            )
        };
    }
}

// Nothing of the cells says which thread has them.
unsafe impl Send for Cells {}

unsafe impl Sync for Cells {}
