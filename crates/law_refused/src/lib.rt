//! What a call of a device leaves that is refused, as a law of the definitions: the state as it was, but where a gate couldn't be closed, a
//! flush has begun, or a raid is given up. The crate has no code.
#![tactic(auto)]
