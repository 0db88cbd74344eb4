//! A write buffer: the body of one write block in memory, to which records are appended until it is sealed and flushed. All its memory is
//! taken when it is made. At every time its bytes are a whole body, followed by zeros. It calls no disk: what it has is lost by a crash
//! until it is flushed. Write blocks are Aerospike's, by its documentation.
#![tactic(auto)]

mod buffer;
mod parts;
mod phase;
mod stream;

pub use buffer::Buffer;
pub use phase::Phase;
use std::alloc::AllocError;
pub use stream::Stream;

/// Want of memory.
pub type NoMemory = AllocError;
