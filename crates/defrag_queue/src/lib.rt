//! The queue of a device's blocks that wait to be vacated: those of which so little is live that
//! their records are written again elsewhere. Calls but `new` take no memory. The low-water mark is
//! that of Aerospike's defragmentation, by its documentation.
#![tactic(auto)]

mod links;
mod queue;

pub use queue::Queue;
use std::alloc::AllocError;

/// Want of memory.
pub type NoMemory = AllocError;
