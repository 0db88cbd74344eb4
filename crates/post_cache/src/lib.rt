//! The post-write queue: the bodies of the blocks that were written last, in memory, so that reads of them need no disk. Only `new` takes
//! memory. The queue is Aerospike's, by its documentation.
#![tactic(auto)]

mod cache;

pub use cache::Cache;
use std::alloc::AllocError;

/// Want of memory.
pub type NoMemory = AllocError;
