//! That a commit holds, as a law of the definitions: with commit on, what an event of a device wrote is flushed in the state after it, unless
//! the event was refused. The crate has no code.
#![tactic(auto)]
