//! What works beside the sessions: a worker takes turns of a chore, rests where there is nothing to do, and ends where it is told to.
#![tactic(auto)]

mod chore;
mod worker;

pub use chore::{Chore, Did};
pub use worker::work;
