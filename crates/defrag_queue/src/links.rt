// A ring of numbers, each linked to the one before it and the one after it.
ghost use Rattle.std.specs.Prelude.{◌≡◌, ◌+◌, ◌<◌, length, replicate, slice_set, IfOk};
ghost use Rattle.defrag_queue.specs.Rings.{link_of};

use crate::NoMemory;
use std::alloc::Global;

/// For each number, the one that comes next and the one that comes before. A ring begins and ends
/// at a number of its own, its end.
#[derive(Drop)]
pub struct Links {
    pub next: Vec<u32>,
    pub prev: Vec<u32>,
}

impl Links {
    /// A ring without any number but its end, with room for all that are smaller.
    pub fn new(alloc: Global, end: u32) -> Result<Links, NoMemory>
        ensures { IfOk result (λ l. (l.next.items ≡ replicate (end + 1) end) × (l.prev.items ≡ replicate (end + 1) end)) }
    {
        let next = vec![in alloc; end; end as usize + 1]?;
        let prev = vec![in alloc; end; end as usize + 1]?;
        Ok(Links { next, prev })
    }

    /// Links a number in before the end.
    pub fn push(&mut self, end: u32, number: u32)
        requires end { end < length self.old.prev.items }
        requires next { number < length self.old.next.items }
        requires prev { number < length self.old.prev.items }
        requires last { link_of self.old.prev.items end < length self.old.next.items }
        ensures next { self.new.next.items ≡ slice_set (slice_set self.old.next.items (link_of self.old.prev.items end) number) number end }
        ensures prev { self.new.prev.items ≡ slice_set (slice_set self.old.prev.items number (link_of self.old.prev.items end)) end number }
    {
        let last = self.prev[end as usize];
        self.next[last as usize] = number;
        self.next[number as usize] = end;
        self.prev[number as usize] = last;
        self.prev[end as usize] = number;
    }

    /// Links the numbers before and after this one with each other.
    pub fn remove(&mut self, number: u32)
        requires next { number < length self.old.next.items }
        requires prev { number < length self.old.prev.items }
        requires before { link_of self.old.prev.items number < length self.old.next.items }
        requires after { link_of self.old.next.items number < length self.old.prev.items }
        ensures next { self.new.next.items ≡ slice_set self.old.next.items (link_of self.old.prev.items number) (link_of self.old.next.items number) }
        ensures prev { self.new.prev.items ≡ slice_set self.old.prev.items (link_of self.old.next.items number) (link_of self.old.prev.items number) }
    {
        let before = self.prev[number as usize];
        let after = self.next[number as usize];
        self.next[before as usize] = after;
        self.prev[after as usize] = before;
    }
}
