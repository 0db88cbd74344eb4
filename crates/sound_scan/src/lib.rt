//! Whether the image of a device is sound: which rule fails, and at which digest. The device is read as a cold start reads it, and then
//! its bodies once more; nothing is written.
#![tactic(auto)]

mod bodies;
mod device;
mod tally;
mod verdict;
mod walk;

pub use device::{Audit, sound_of};
pub use verdict::Verdict;
