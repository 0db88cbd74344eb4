//! Which images survive a state of a device that uses its blocks again, deletes, moves and raids: facts on the copies that a start may
//! find, as laws of the definitions. Each step keeps the facts. The crate has no code.
#![tactic(auto)]
