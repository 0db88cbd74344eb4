// The post-write queue as a row of blocks with what is kept of each, oldest first.
ghost use Rattle.std.specs.Prelude.{◌≡◌, [], IfOk, option_map};
ghost use Rattle.post_cache.specs.Bodies.{body_of, without_block, with_kept_body, IsCache};

use crate::NoMemory;
use std::alloc::Global;
use std::marker::Model;

// A block and its body.
#[derive(Drop)]
struct Slot<B> {
    block: u32,
    body: B,
}

/// The bodies of the blocks that were written last, first in and first out. A body may be anything that tells what stands in its block.
#[derive(Drop)]
pub struct Cache<B> {
    slots: Vec<Slot<B>>,
    limit: u32,
}

impl<B> Model for Cache<B> {
    ghost use Rattle.std.specs.Prelude.{◌<◌, vec_capacity};
    ghost use Rattle.post_cache.specs.Bodies.{CacheState, IsCache};
    ghost use Rattle.post_cache.specs.Slots.{bodies_in};

    ghost Value = { CacheState B };

    ghost view = { λ c. record { kept = bodies_in c.slots.items; limit = c.limit } };

    ghost invariant = { λ c. IsCache (record { kept = bodies_in c.slots.items; limit = c.limit }) × (c.limit < vec_capacity c.slots) };
}

impl<B: Drop> Cache<B> {
    /// At `Ok` an empty cache with places for so many bodies, 0 for a cache that keeps none. An `Err` is want of memory.
    pub fn new(alloc: Global, blocks: u32) -> Result<Cache<B>, NoMemory>
        ensures { IfOk result (λ cache. cache ≡ record { kept = []; limit = blocks }) }
    {
        // A body is put in before the oldest goes, so there is one place more.
        let slots = Vec::with_capacity(alloc, blocks as usize + 1)?;
        Ok(Cache {
            slots,
            limit: blocks,
        })
    }

    /// The body of the block is kept then, in place of an older one of that block, where the cache has places. Where there is then one
    /// too many, the oldest goes.
    pub fn keep(&mut self, block: u32, body: B)
        ensures kept { self.new ≡ record { kept = with_kept_body self.old.limit block body self.old.kept; limit = self.old.limit } }
        ensures bounds { IsCache self.new }
    {
        self.forget(block);
        self.slots.push_reserved(Slot { block, body });
        if self.slots.len() > self.limit as usize {
            self.slots.remove(0);
        }
    }

    /// The body of a block, where it is kept. Its place in the order stays.
    pub fn peek(&self, block: u32) -> Option<&B>
        ensures { option_map (λ body. body.now) result ≡ body_of block self.now.kept }
    {
        let slot = self.slots.iter().find(|slot| slot.block == block)?;
        Some(&slot.body)
    }

    /// No body of the block is kept then. The others stay, in their order.
    pub fn forget(&mut self, block: u32)
        ensures kept { self.new ≡ record { kept = without_block block self.old.kept; limit = self.old.limit } }
        ensures bounds { IsCache self.new }
    {
        self.slots.retain(|slot| slot.block != block);
    }
}
