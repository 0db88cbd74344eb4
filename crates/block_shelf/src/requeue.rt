// How a block comes into the queue of those that wait to be vacated, or leaves it.
ghost use Rattle.std.specs.Prelude.{◌≡◌, ◌<◌};
ghost use Rattle.block_shelf.specs.Changes.{with_requeued};

use crate::Shelf;
use crate::let_go::has_block;
use disk_model::Disk;

impl<D: Disk> Shelf<D> {
    // A block whose use or buffer has changed is queued as its use says.
    pub(crate) fn requeue(&mut self, block: u32)
        requires block { block < self.old.geometry.blocks }
        ensures { self.new ≡ with_requeued block self.old }
    {
        let used = self.ledger.used(block);
        let flushed = !has_block(&self.buffers, block);
        self.queue.consider(block, used, flushed);
    }
}
