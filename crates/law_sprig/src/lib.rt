//! How a device's entries stand for a state, part by part: one relation for each sprig, which an event that doesn't name the part
//! leaves as it is, and which each step that names it keeps with the entries that it becomes. The crate has no code.
#![tactic(auto)]
