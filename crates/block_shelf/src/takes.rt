// Which buffer takes the records of a stream.
ghost use Rattle.std.specs.Prelude.{◌≡◌, false, MatchOption};
ghost use Rattle.std.specs.List.{AllByRecursion};
ghost use Rattle.block_shelf.specs.View.{fills};
ghost use Rattle.block_shelf.specs.Changes.{FillsAt, HasRoom, HasRoomAt};

use crate::Shelf;
use disk_model::Disk;
use write_buffer::{Phase, Stream};

impl<D: Disk> Shelf<D> {
    // The place in the list of the buffer that takes the records of a stream, if there is one.
    pub(crate) fn filling_at(&self, stream: Stream) -> Option<usize>
        ensures { MatchOption result (AllByRecursion (λ b. fills stream b ≡ false) self.now.buffers) (λ at. FillsAt stream at self.now.buffers) }
    {
        self.buffers.iter().position(|buffer| buffer.phase() == Phase::Filling
            && buffer.stream() == stream)
    }

    // The same, where it has so many units left.
    pub(crate) fn room_at(&self, stream: Stream, units: u32) -> Option<usize>
        ensures { MatchOption result (HasRoom stream units self.now.buffers → ⊥) (λ at. HasRoomAt stream units at self.now.buffers) }
    {
        match self.filling_at(stream) {
            Some(at) if units <= self.buffers[at].room() => Some(at),
            _ => None,
        }
    }
}
