//! Tests of devices under their tables: what passes see of one another, a disk that waits within a read, and random calls of four threads,
//! whose answers have to fit one order.
#![tactic(auto)]

#[cfg(test)]
mod tests;
