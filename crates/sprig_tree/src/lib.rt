//! The entries of one sprig of the primary index in one sorted row: by digest, each digest once, with the high time of the sprig
//! and how many entries of each kind it has. It says what a sprig is, and is the plain form of one; `arena_sprig` has the same
//! contracts. Only `reserve` takes memory. Sprigs are Aerospike's, by its documentation.
#![tactic(auto)]

mod sprig;
mod tally;

pub use sprig::Sprig;
use std::alloc::AllocError;
pub use tally::Tally;

/// Want of memory.
pub type NoMemory = AllocError;
