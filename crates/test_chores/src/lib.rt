//! Tests of the workers of a device: each over a small device, turn by turn.
#![tactic(auto)]

#[cfg(test)]
mod tests;
