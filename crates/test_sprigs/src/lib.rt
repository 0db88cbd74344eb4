//! Tests that give a sprig over an arena many digests, and the same calls to it and to the sprig that is one sorted row.
#![tactic(auto)]

#[cfg(test)]
mod tests;
