//! The three writes that a block takes: its gate is closed, its body is written, and its gate is opened. Each is one write and one sync; and a
//! closed gate can be written without a sync.
//! What a comment tells of a crash, or of images, is told of an honest disk.
#![tactic(auto)]

mod body;
mod gates;
mod place;

pub use body::write_body;
pub use gates::{close_gate, cover_gate, open_gate};
pub use place::start_of_block;
