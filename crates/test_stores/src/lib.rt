//! Tests of the store of a session over devices under their tables: by one command after another, and by sessions beside one another.
#![tactic(auto)]

#[cfg(test)]
mod tests;
