//! What one step over the sprig of a part and the shelf makes: for which states both stand, and the event of a call with its answer, with
//! what a crash meanwhile may leave. The calls on one entry that take such a step stand on it. The crate has no code.
#![tactic(auto)]
