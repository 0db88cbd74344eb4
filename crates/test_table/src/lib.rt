//! A small store at a table: a log, and piles beside it. Its model is lists.
#![tactic(auto)]

mod machine;
mod store;

pub use machine::{Happening, Log, Origin, Piles};
pub use store::{count, open, push, try_len};
