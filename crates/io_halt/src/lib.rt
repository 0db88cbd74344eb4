//! A source that ends where something outside ends it, as a signal to a start script does; and a wait for that or for a descriptor, within
//! a limit.
#![tactic(auto)]

mod halt;
mod halting;

pub use halt::{First, Halt};
pub use halting::HaltingSource;
