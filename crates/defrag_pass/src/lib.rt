//! Defragmentation chooses a block, and moves the record of one entry out of its block: the record is read, its copy goes unchanged to the
//! buffers of moved records, and the entry has the new place. Blocks are vacated for it as the Aerospike documentation has it of write
//! blocks below the low-water mark.
#![tactic(auto)]

mod choose;
mod moving;
mod refusal;

pub use choose::choose_step;
pub use moving::move_one;
pub use refusal::MoveRefusal;
