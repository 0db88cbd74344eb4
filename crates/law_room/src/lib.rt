//! That tending gains room, as laws of the definitions: with a low-water mark of at most 50 tendings in a row in which nothing is refused come to
//! rest, with nothing left to gain. The crate has no code.
#![tactic(auto)]
