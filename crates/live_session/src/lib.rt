//! A session over the devices of a node, each under its table, with passes of its own.
#![tactic(auto)]

mod link;

pub use link::serve_link;
