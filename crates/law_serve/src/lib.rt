//! What a server over the devices of a node promises, and that it holds behind the start, the service and the closing of these. Laws of the
//! definitions; the crate has no code.
#![tactic(auto)]
