//! A disk as its callers see it: what a read gives, and what a crash may leave. And one in memory.
#![tactic(auto)]

mod change;
mod disk;
mod mem;
mod synced;
mod tally;

pub use disk::{Disk, DiskFault};
pub use mem::MemDisk;
use std::alloc::AllocError;
pub use synced::write_synced;

/// There was no memory for it.
pub type NoMemory = AllocError;

/// A kind of call.
#[derive(Clone, Copy, Debug, PartialEq, Eq)]
pub enum DiskCall {
    Read,
    Write,
    Sync,
}
