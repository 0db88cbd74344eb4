//! Words on counts of faults: when a count rose, and that a failure is answered only where it did.
//! The crate has no code. Disks, sources, sinks and the calls above them cite its definitions.
#![tactic(auto)]
