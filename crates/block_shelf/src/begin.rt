// How a buffer begins in the first free block.
ghost use Rattle.std.specs.Prelude.{◌≡◌, ◌≢◌, ◌≤◌, ◌<◌, None, Err, length, MatchResult};
ghost use Rattle.rec_format.specs.Versions.{top_number};
ghost use Rattle.block_shelf.specs.View.{IsShelf};
ghost use Rattle.block_shelf.specs.Changes.{begin_refusal, begun_buffer};
ghost use Rattle.block_shelf.specs.Appends.{kept_free, IsAppendRefusal, stream_of};
ghost use Rattle.block_shelf.specs.Begins.{BeginsIn, BeginsFor};

use crate::append::stream_of;
use crate::close::shut_gate;
use crate::seal::seal_each;
use crate::{Class, PutRefusal, Shelf};
use disk_model::Disk;
use std::alloc::Global;
use write_buffer::Buffer;

const LAST_NUMBER: u64 = 1 << 62;

impl<D: Disk> Shelf<D> {
    // Begins a buffer in the first free block, and seals the others of its stream. All memory is taken before the disk is called: for the
    // buffer, for its place in the list, for a live copy in its block, and for a hold. A gate that isn't known to be shut is closed first;
    // where that fails the block goes to the back of the free ones.
    pub(crate) fn begin(&mut self, alloc: Global, class: Class) -> Result<(), PutRefusal>
        ensures { BeginsFor D.view class self.old self.new result }
    {
        self.may_begin(class)?;
        let block = self.free[0];
        self.reserve(block)?;
        let Ok(buffer) = Buffer::new(alloc, self.next_number, block, self.geometry.block_size)
        else {
            return Err(PutRefusal::Memory);
        };
        self.begin_with(buffer.in_stream(stream_of(class)))
    }

    // Whether a buffer may begin for a copy of this class, or why not.
    pub(crate) fn may_begin(&self, class: Class) -> Result<(), PutRefusal>
        ensures refusal { MatchResult result (λ done. begin_refusal (kept_free class) self.now ≡ None) (IsAppendRefusal (begin_refusal (kept_free class) self.now)) }
        ensures unfailed { result ≢ Err PutRefusal.Fault }
        ensures unwanting { result ≢ Err PutRefusal.Memory }
        ensures whole { IsShelf D.view self.now }
    {
        if self.next_number > LAST_NUMBER {
            return Err(PutRefusal::Spent);
        }
        let pending = self.buffers.len() as u32;
        if pending >= self.limits.pending {
            return Err(PutRefusal::Load { pending });
        }
        let free = self.free.len() as u32;
        if free <= kept_free(class) {
            return Err(PutRefusal::Space { free });
        }
        Ok(())
    }

    // This buffer, an empty one of the first free block, comes behind the others, those of its stream are sealed, and what is kept of the block
    // is forgotten. Before that the gate
    // of the block is closed, unless it is known to be shut. Only a place in the list is asked for, and that before the disk is called.
    fn begin_with(&mut self, buffer: Buffer) -> Result<(), PutRefusal>
        requires buffer { buffer ≡ begun_buffer buffer.stream self.old }
        requires number { self.old.next_number ≤ top_number }
        requires some { 0 < length self.old.free }
        ensures { BeginsIn D.view buffer.stream self.old self.new result }
    {
        let block = buffer.block();
        let stream = buffer.stream();
        let Ok(()) = self.buffers.reserve(1) else {
            return Err(PutRefusal::Memory);
        };
        let Ok(()) = shut_gate(&mut self.disk, &self.geometry, &mut self.gates, block) else {
            self.free.rotate_left(1);
            return Err(PutRefusal::Fault);
        };
        seal_each(&mut self.buffers, stream);
        self.buffers.push_reserved(buffer);
        self.free.pop_front();
        self.cache.forget(block);
        self.next_number += 1;
        Ok(())
    }
}

// How many free blocks have to stay where a copy of this class takes one.
fn kept_free(class: Class) -> u32
    ensures { result ≡ kept_free class }
{
    match class {
        Class::Put => 4,
        Class::Tomb => 2,
        Class::Move => 0,
    }
}
