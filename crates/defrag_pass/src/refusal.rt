ghost use Rattle.std.specs.Prelude.{◌≡◌};
ghost use Rattle.defrag_pass.specs.Moves.{refusal_to_append, refusal_to_read};

use block_shelf::{PutRefusal, ReadRefusal};
use rec_format::Head;

/// Why a record isn't moved.
#[derive(Clone, Copy, PartialEq, Eq)]
pub enum MoveRefusal {
    /// There is no room left, and no further buffer number.
    Spent,
    /// There is no room left, and as many write buffers wait to be flushed as may.
    Load,
    /// There is no room left, and no block is free.
    Space,
    /// What was read isn't the head of the record that the entry keeps.
    Damaged { kept: Head, read: [u8; 48] },
    /// There was no memory for it.
    Memory,
    /// The disk failed.
    Fault,
}

// What a refusal of the shelf to append the copy is to the move. A copy that was live in a block isn't too big for one.
pub(crate) fn append_refusal(refusal: PutRefusal) -> MoveRefusal
    ensures { result ≡ refusal_to_append refusal }
{
    match refusal {
        PutRefusal::Big { .. } | PutRefusal::Space { .. } => MoveRefusal::Space,
        PutRefusal::Spent => MoveRefusal::Spent,
        PutRefusal::Load { .. } => MoveRefusal::Load,
        PutRefusal::Memory => MoveRefusal::Memory,
        PutRefusal::Fault => MoveRefusal::Fault,
    }
}

// What a refusal of the shelf to read the record is to the move.
pub(crate) fn read_refusal(refusal: ReadRefusal) -> MoveRefusal
    ensures { result ≡ refusal_to_read refusal }
{
    match refusal {
        ReadRefusal::Damaged { kept, read } => MoveRefusal::Damaged { kept, read },
        ReadRefusal::Memory => MoveRefusal::Memory,
        ReadRefusal::Fault => MoveRefusal::Fault,
    }
}
