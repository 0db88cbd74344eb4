//! How many units of 16 bytes are live in each block of a device: one number a block. Only `new` takes memory, and
//! only `new` takes a time that grows with anything; every other call takes constant time.
#![tactic(auto)]

mod ledger;

pub use ledger::Ledger;
use std::alloc::AllocError;

/// Want of memory.
pub type NoMemory = AllocError;
