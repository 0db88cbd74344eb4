//! The store of one session over the devices of a node, each under its table, of which other sessions and workers have passes too.
//!
//! A command is carried out by calls with the session's own passes, so what it answers are the answers of events in the devices' lists,
//! between which others' events may come.
#![tactic(auto)]

mod each;
mod one;
mod store;

pub use store::LiveStore;
