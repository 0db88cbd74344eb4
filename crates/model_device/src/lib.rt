//! The model of a device: histories, the block book, steps, events, and which events are legal, with laws of them. The crate has
//! no code.
#![tactic(auto)]
