//! Tests of what threads share: passes of one table in two threads, a small store at a table, and arenas that go to threads.
#![tactic(auto)]

#[cfg(test)]
mod tests;
