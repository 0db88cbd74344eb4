//! What a start finds in an image, in slow and plain forms. They go over a whole image in memory and serve to compare; no
//! part of the program uses them.
#![tactic(auto)]

mod finds;
mod reading;

pub use finds::{cold, copies};
