//! Who works over the devices of a node, each under its table: workers of each device and seats, each with passes of its own. How the passes
//! are dealt out, and how all come back.
#![tactic(auto)]

mod chore;
mod collecting;
mod dealing;

pub use chore::LiveChore;
pub use collecting::collect;
pub use dealing::{Duties, deal};
