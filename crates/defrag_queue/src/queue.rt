// The queue of blocks to vacate, with a mark for each block that is in it.
ghost use Rattle.std.specs.Prelude.{◌≡◌, ◌<◌, [], length, nat_lt, ◌*◌, ◌&&◌, IfOk};
ghost use Rattle.model_device.specs.Legal.{queue_front};
ghost use Rattle.defrag_queue.specs.Queues.{is_below_mark, considered};

use crate::NoMemory;
use crate::links::Links;
use std::alloc::Global;
use std::marker::Model;

/// Whether a block is to be vacated: it was flushed, something in it is live, and that is less than
/// the low-water mark, in percent of the units of a block.
fn is_low(capacity: u32, lwm: u32, used: u32, flushed: bool) -> bool
    ensures { result ≡ is_below_mark capacity lwm used flushed }
{
    flushed && 0 < used && used as u64 * 100 < lwm as u64 * capacity as u64
}

/// The blocks of a device that wait to be vacated, in the order in which they entered. All
/// calls but `new` take a constant time.
#[derive(Drop)]
pub struct Queue {
    queued: Vec<bool>,
    links: Links,
    count: u32,
    blocks: u32,
    capacity: u32,
    lwm: u32,
}

impl Model for Queue {
    ghost use Rattle.std.specs.Prelude.{◌≡◌, length};
    ghost use Rattle.defrag_queue.specs.Queues.{QueueState, Marked};
    ghost use Rattle.defrag_queue.specs.Rings.{walk, Ring};

    ghost Value = { QueueState };

    ghost view = { λ q. record { queue = walk q.links.next.items q.count q.blocks; blocks = q.blocks; capacity = q.capacity; lwm = q.lwm } };

    ghost invariant = { λ q. Marked (walk q.links.next.items q.count q.blocks) q.queued.items × (length q.queued.items ≡ q.blocks)
        × Ring q.links.next.items q.links.prev.items q.blocks (walk q.links.next.items q.count q.blocks) };
}

impl Queue {
    /// At `Ok` an empty queue for so many blocks of so many units of 16 bytes, with the low-water
    /// mark in percent. An `Err` is want of memory.
    pub fn new(alloc: Global, blocks: u32, capacity: u32, lwm: u32) -> Result<Queue, NoMemory>
        ensures { IfOk result (λ queue. queue ≡ record { queue = []; blocks = blocks; capacity = capacity; lwm = lwm }) }
    {
        let queued = vec![in alloc; false; blocks as usize]?;
        let links = Links::new(alloc, blocks)?;
        Ok(Queue {
            queued,
            links,
            count: 0,
            blocks,
            capacity,
            lwm,
        })
    }

    /// The block is where its use, in units, says then: one that is to be vacated keeps its place
    /// in the queue or enters at the back, and another one leaves.
    pub fn consider(&mut self, block: u32, used: u32, flushed: bool)
        requires { block < self.old.blocks }
        ensures { self.new ≡ considered self.old block used flushed }
    {
        let qualifies = is_low(self.capacity, self.lwm, used, flushed);
        if qualifies == self.queued[block as usize] {
            return;
        }
        self.queued[block as usize] = qualifies;
        if qualifies {
            self.links.push(self.blocks, block);
            self.count += 1;
        } else {
            self.links.remove(block);
            self.count -= 1;
        }
    }

    /// The block that has waited longest; none where none waits.
    pub fn front(&self) -> Option<u32>
        ensures { result ≡ queue_front self.now.queue }
    {
        if self.count == 0 {
            None
        } else {
            Some(self.links.next[self.blocks as usize])
        }
    }

    /// How many blocks wait.
    pub fn len(&self) -> u32
        ensures { result ≡ length self.now.queue }
    {
        self.count
    }
}
