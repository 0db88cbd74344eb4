//! How a block is emptied while others act: no copy comes into a block without a buffer as long as something is live in it, and what is
//! moved out of it lies elsewhere. Laws of the definitions; the crate has no code.
#![tactic(auto)]
