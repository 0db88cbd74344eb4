// The replies to what a device answers.
ghost use Rattle.std.specs.Prelude.{◌≡◌, Option};
ghost use Rattle.rec_format.specs.declared.version.Version.{Version};
ghost use Rattle.model_device.specs.Events.{Cause};
ghost use Rattle.model_device.specs.Vacating.{Outcome};
ghost use Rattle.model_node.specs.Commands.{answer_reply, defragged_reply, expired_reply, fault_of, flushed_reply, healed_reply, meta_reply, raided_reply};
ghost use Rattle.shard_core.specs.Vacating.{IsCauseOf};
ghost use Rattle.shard_core.specs.Calls.{cause_of_write, delete_answer, meta_of, read_answer, write_answer};
ghost use Rattle.node_replies.specs.Outcomes.{IsDefragged, IsExpired, IsFlushed, IsHealed, IsRaided};

use disk_model::DiskFault;
use line_proto::{LineFault, Reply};
use rec_format::{Stamp, Version};
use shard_core::{DefragCause, Meta, ReadRefusal, WriteRefusal};

// why a write was refused
fn write_fault(refusal: WriteRefusal) -> LineFault
    ensures { result ≡ fault_of (cause_of_write refusal) }
{
    match refusal {
        WriteRefusal::Big { .. } => LineFault::Big,
        WriteRefusal::Gen { seen } => LineFault::Gen(seen),
        WriteRefusal::Spent => LineFault::Spent,
        WriteRefusal::Load { .. } => LineFault::Load,
        WriteRefusal::Space { .. } => LineFault::Space,
        WriteRefusal::Memory => LineFault::Memory,
        WriteRefusal::Fault => LineFault::Fault,
    }
}

/// The reply to a put or a durable delete: its stamp, or why it is refused.
pub fn write_reply(written: Result<Stamp, WriteRefusal>) -> Reply
    ensures { result ≡ answer_reply (write_answer written) }
{
    match written {
        Ok(stamp) => Reply::Written { stamp },
        Err(refusal) => Reply::Fail(write_fault(refusal)),
    }
}

/// The reply to a delete: whether there was a record, or why it is refused.
pub fn delete_reply(deleted: Result<bool, WriteRefusal>) -> Reply
    ensures { result ≡ answer_reply (delete_answer deleted) }
{
    match deleted {
        Ok(true) => Reply::Gone,
        Ok(false) => Reply::Nothing,
        Err(refusal) => Reply::Fail(write_fault(refusal)),
    }
}

/// The reply to a get: the version that is seen, that there is none, or why it can't be read.
pub fn read_reply(found: Result<Option<Version>, ReadRefusal>) -> Reply
    ensures { result ≡ answer_reply (read_answer found) }
{
    match found {
        Ok(None) => Reply::Nothing,
        Ok(Some(version)) => Reply::Val {
            stamp: version.stamp,
            void: version.void,
            payload: version.payload,
        },
        Err(ReadRefusal::Damaged { .. }) => Reply::Fail(LineFault::Damaged),
        Err(ReadRefusal::Memory) => Reply::Fail(LineFault::Memory),
        Err(ReadRefusal::Fault) => Reply::Fail(LineFault::Fault),
    }
}

/// The reply to what is known of the record that is seen.
pub fn known_reply(known: Option<Meta>) -> Reply
    ensures { (seen : Option Version) → known ≡ meta_of seen → result ≡ meta_reply seen }
{
    match known {
        None => Reply::Nothing,
        Some(meta) => Reply::MetaOf {
            stamp: meta.stamp,
            void: meta.void,
            units: meta.units,
        },
    }
}

// why a block wasn't vacated
fn defrag_fault(cause: DefragCause) -> LineFault
    ensures { (cause_is : Cause) → IsCauseOf cause cause_is → result ≡ fault_of cause_is }
{
    match cause {
        DefragCause::Spent => LineFault::Spent,
        DefragCause::Load => LineFault::Load,
        DefragCause::Space => LineFault::Space,
        DefragCause::Damaged(_) => LineFault::Damaged,
        DefragCause::Memory => LineFault::Memory,
        DefragCause::Fault => LineFault::Fault,
    }
}

/// The reply to `defrag`: how many records were moved, out of how many blocks, or why one wasn't.
pub fn defrag_reply(done: Result<(u64, u64), DefragCause>) -> Reply
    ensures { (outcome : Outcome) → IsDefragged done outcome → result ≡ defragged_reply outcome }
{
    match done {
        Ok((moved, vacated)) => Reply::Defragged { moved, vacated },
        Err(cause) => Reply::Fail(defrag_fault(cause)),
    }
}

/// The reply to `expire`: how many expired entries were removed, or why one wasn't.
pub fn expire_reply(expired: Result<u64, WriteRefusal>) -> Reply
    ensures { (outcome : Outcome) → IsExpired expired outcome → result ≡ expired_reply outcome }
{
    match expired {
        Ok(removed) => Reply::Expired { removed },
        Err(refusal) => Reply::Fail(write_fault(refusal)),
    }
}

/// The reply to `raid`: how many tombstones were removed and how many covers cleared, or why a turn was refused.
pub fn raid_reply(raided: Result<(u64, u64), LineFault>) -> Reply
    ensures { (outcome : Outcome) → IsRaided raided outcome → result ≡ raided_reply outcome }
{
    match raided {
        Ok((removed, cleared)) => Reply::Raided { removed, cleared },
        Err(fault) => Reply::Fail(fault),
    }
}

/// The reply to `flush`: how many buffers were flushed, or that a disk failed.
pub fn flush_reply(flushed: Result<u64, DiskFault>) -> Reply
    ensures { (outcome : Outcome) → IsFlushed flushed outcome → result ≡ flushed_reply outcome }
{
    match flushed {
        Ok(buffers) => Reply::Flushed { buffers },
        Err(_) => Reply::Fail(LineFault::Fault),
    }
}

/// The reply to `heal`: how many gates were closed, or that a disk failed.
pub fn heal_reply(healed: Result<u64, DiskFault>) -> Reply
    ensures { (outcome : Outcome) → IsHealed healed outcome → result ≡ healed_reply outcome }
{
    match healed {
        Ok(gates) => Reply::Healed { gates },
        Err(_) => Reply::Fail(LineFault::Fault),
    }
}
