//! The entries of one sprig in a balanced tree over an arena, where they never move: what `sprig_tree` does in one sorted
//! row, by the same contracts. Each entry is found, put in and taken out on one way from the root, whose length grows with the
//! logarithm of their number, whatever digests there are. Only `reserve` takes memory. Sprigs over arenas are Aerospike's, by
//! its documentation.
#![tactic(auto)]

mod edits;
mod growth;
mod links;
mod sizes;
mod sprig;
mod tree;
mod turns;
mod walks;

pub use entry_arena::FIRST;
pub use sprig::{BOXED, Sprig};
pub use sprig_tree::{NoMemory, Tally};
