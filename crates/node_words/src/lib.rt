//! The words of a command line: which lists are accepted, and what each asks for.
//!
//! A list is a command word, behind `gen` a number, then options with their values in any order, each at most once, then
//! the names of 1 to 16 devices that differ. `read_words` answers the job with its options and the names; `names_of` what
//! has to be opened or made before it is carried out.
#![tactic(auto)]

mod job;
mod names;
mod number;
mod options;
mod plan;
mod request;
mod table;

pub use job::{Job, Serving, Shape, Tuning};
pub use names::Names;
pub use plan::{Plan, names_of};
pub use request::{Request, read_words};
use std::alloc::AllocError;

/// Want of memory.
pub type NoMemory = AllocError;
