//! Lines: commands and replies as text, the lines of a stream, and what a session asks of a store.
#![tactic(auto)]

mod command;
mod line_end;
mod lines;
mod open_line;
mod page;
mod parts;
mod print;
mod read;
mod reply;
mod spell;
mod store;
mod tail;

pub use command::Command;
pub use line_end::LineEnd;
pub use lines::Lines;
pub use open_line::OpenLine;
pub use page::Page;
pub use parts::cut;
pub use print::{print_reply, print_version};
pub use read::{read_command, read_command_in};
pub use reply::{LineFault, Reply};
pub use spell::print_command;
use std::alloc::AllocError;
pub use store::Store;

/// There was no memory for it.
pub type NoMemory = AllocError;
