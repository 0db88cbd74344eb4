//! Tests of what no run of the program does: a session with a small limit, one over a store that halts, lines printed of commands, and streams whose calls fail.
#![tactic(auto)]

#[cfg(test)]
mod commands;
#[cfg(test)]
mod sessions;
#[cfg(test)]
mod streams;
