//! What a run over several devices promises, and the laws by which a session over a node that was started so keeps it. The crate
//! has no code.
#![tactic(auto)]
