//! A list of the calls that were made on something of the system, for clauses alone: it takes no memory, and nothing is done when it is kept.
#![tactic(auto)]

mod history;

pub use history::History;
