ghost use Rattle.std.specs.Prelude.{◌≡◌, Ok, Err, MatchResult};
ghost use Rattle.shard_core.specs.Calls.{write_of};
ghost use Rattle.shard_core.specs.Vacating.{move_cause, vacate_cause};

use block_shelf::{PutRefusal, VacateRefusal};
use defrag_pass::MoveRefusal;
use rec_format::Head;

/// Why a write isn't made.
#[derive(Clone, Copy, Debug, PartialEq, Eq)]
pub enum WriteRefusal {
    /// The record's units exceed the capacity of a block.
    Big { units: u32, capacity: u32 },
    /// Another generation was expected than the one that is seen, 0 where there is no record.
    Gen { seen: u16 },
    /// No later update time, or no further buffer number, is left.
    Spent,
    /// As many write buffers wait to be flushed as may.
    Load { pending: u32 },
    /// Too few blocks are free.
    Space { free: u32 },
    /// There was no memory for it.
    Memory,
    /// The disk failed.
    Fault,
}

/// What a refusal of the shelf is to a write.
pub(crate) fn write_refusal(refusal: PutRefusal) -> WriteRefusal
    ensures { result ≡ write_of refusal }
{
    match refusal {
        PutRefusal::Big { units, capacity } => WriteRefusal::Big { units, capacity },
        PutRefusal::Spent => WriteRefusal::Spent,
        PutRefusal::Load { pending } => WriteRefusal::Load { pending },
        PutRefusal::Space { free } => WriteRefusal::Space { free },
        PutRefusal::Memory => WriteRefusal::Memory,
        PutRefusal::Fault => WriteRefusal::Fault,
    }
}

/// What was damaged where a block was vacated.
#[derive(Clone, Copy, PartialEq, Eq)]
pub enum Damage {
    /// The record of an entry: what the entry keeps, and the 48 bytes that were read.
    Record { kept: Head, read: [u8; 48] },
    /// The body of a block, from this place on.
    Block { block: u32, place: u32 },
}

/// Why a block isn't vacated.
#[derive(Clone, Copy, PartialEq, Eq)]
pub enum DefragCause {
    /// There is no room left for a record, and no further buffer number.
    Spent,
    /// There is no room left, and as many write buffers wait to be flushed as may.
    Load,
    /// There is no room left, and no block is free.
    Space,
    /// A record or a block can't be read.
    Damaged(Damage),
    /// There was no memory for it.
    Memory,
    /// The disk failed.
    Fault,
}

/// How many records were moved before one was refused, and why it was.
#[derive(Clone, Copy, PartialEq, Eq)]
pub struct DefragRefusal {
    pub moved: u32,
    pub cause: DefragCause,
}

/// How many expired entries were removed before one was refused, and why it was.
#[derive(Clone, Copy, Debug, PartialEq, Eq)]
pub struct ExpireRefusal {
    pub removed: u64,
    pub cause: WriteRefusal,
}

// What a refused move is to the vacating.
fn move_cause(refusal: MoveRefusal) -> DefragCause
    ensures { result ≡ move_cause refusal }
{
    match refusal {
        MoveRefusal::Spent => DefragCause::Spent,
        MoveRefusal::Load => DefragCause::Load,
        MoveRefusal::Space => DefragCause::Space,
        MoveRefusal::Damaged { kept, read } => DefragCause::Damaged(Damage::Record { kept, read }),
        MoveRefusal::Memory => DefragCause::Memory,
        MoveRefusal::Fault => DefragCause::Fault,
    }
}

/// What the answer of a move is to the vacating.
pub(crate) fn move_answer(answer: Result<bool, MoveRefusal>) -> Result<bool, DefragCause>
    ensures { MatchResult answer (λ moved. result ≡ Ok moved) (λ refusal. result ≡ Err (move_cause refusal)) }
{
    match answer {
        Ok(moved) => Ok(moved),
        Err(refusal) => Err(move_cause(refusal)),
    }
}

/// What a refused choice is to the vacating.
pub(crate) fn vacate_cause(refusal: VacateRefusal) -> DefragCause
    ensures { result ≡ vacate_cause refusal }
{
    match refusal {
        VacateRefusal::Damaged { block, place } => {
            DefragCause::Damaged(Damage::Block { block, place })
        }
        VacateRefusal::Memory => DefragCause::Memory,
        VacateRefusal::Fault => DefragCause::Fault,
    }
}
