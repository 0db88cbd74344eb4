// What is asked of a shelf before a call: whether a copy can be appended, and which buffer has a block.
ghost use Rattle.std.specs.Prelude.{◌≡◌, ◌≢◌, None, Contains, IfErr, MatchOption, MatchResult};
ghost use Rattle.std.specs.List.{AllByRecursion};
ghost use Rattle.model_device.specs.Book.{Setup};
ghost use Rattle.model_device.specs.Device.{State};
ghost use Rattle.write_buffer.specs.Buffers.{BufferState};
ghost use Rattle.block_shelf.specs.View.{IsSetupOf};
ghost use Rattle.block_shelf.specs.Standing.{StandsFor};
ghost use Rattle.block_shelf.specs.Appends.{IsAppendRefusal, append_refusal};

use crate::append::stream_of;
use crate::{Class, PutRefusal, Shelf};
use block_format::capacity;
use disk_model::Disk;

impl<D: Disk> Shelf<D> {
    /// Whether a copy of so many units of 16 bytes can be appended, or why not, but for want of memory and faults. Nothing changes.
    pub fn may_append(&self, units: u32, class: Class) -> Result<(), PutRefusal>
        ensures causes { (setup : Setup) (s : State) → IsSetupOf setup self.now → StandsFor setup self.now s → MatchResult result
            (λ done. append_refusal setup class units s.book ≡ None) (IsAppendRefusal (append_refusal setup class units s.book)) }
        ensures unfailed { IfErr result (λ refusal. (refusal ≢ PutRefusal.Memory) × (refusal ≢ PutRefusal.Fault)) }
    {
        let capacity = capacity(self.geometry.block_size);
        if units > capacity {
            return Err(PutRefusal::Big { units, capacity });
        }
        match self.room_at(stream_of(class), units) {
            Some(_) => Ok(()),
            None => self.may_begin(class),
        }
    }

    /// The number of the buffer that a block has; none where it has none.
    pub fn number_at(&self, block: u32) -> Option<u64>
        ensures { MatchOption result (AllByRecursion (λ b. b.block ≢ block) self.now.buffers) (λ n. (b : BufferState) × Contains self.now.buffers b × (b.block ≡ block) × (b.number ≡ n)) }
    {
        let buffer = self.buffer_of(block)?;
        Some(buffer.number())
    }
}
