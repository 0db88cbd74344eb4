//! Holds: which write buffer holds which block, so that a block isn't reused before the copies that
//! took the place of its own are flushed. Only `reserve` takes memory.
#![tactic(auto)]

mod book;
mod counts;
mod search;

pub use book::HoldBook;
use std::alloc::AllocError;

/// Want of memory.
pub type NoMemory = AllocError;
