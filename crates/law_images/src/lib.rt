//! Which images a crash may leave of a device that uses its blocks again, deletes, moves and raids: laws on sets of images, one for
//! each thing that a shelf does with them. The crate has no code.
#![tactic(auto)]
