//! How far long work is, told in percent on one line of a terminal. A disk, a link, a clock and a door tell it or keep the line away from
//! other output, and else are what they stand over. Where another number of sprigs would take much less memory a line of its own says it.
#![tactic(auto)]

mod announced;
mod cleared;
mod counted_clock;
mod progress;
mod watched;

pub use announced::Announced;
pub use cleared::Cleared;
pub use counted_clock::CountedClock;
pub use progress::{Making, Progress};
pub use watched::Watched;
