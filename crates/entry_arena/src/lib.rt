//! Slots for index entries: room is reserved first, and a put into it can't fail. The first four lie in the arena itself, and the others in memory that
//! never moves.
#![tactic(auto)]

mod arena;
mod cells;
mod sizes;
mod stages;

pub use arena::Arena;
pub use sizes::FIRST;
use std::alloc::AllocError;

/// Want of memory.
pub type NoMemory = AllocError;
