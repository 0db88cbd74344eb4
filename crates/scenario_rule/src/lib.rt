//! What the lines of a scenario allow a start to show, whenever a crash came between them. It is a plain program over histories that
//! knows nothing of blocks, buffers or gates.
#![tactic(auto)]

mod history;
mod known;
mod line;

pub use known::{Course, Done, Known, allows_at, commits, known_at, known_behind};
pub use line::is_on_device;
