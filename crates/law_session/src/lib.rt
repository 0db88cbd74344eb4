//! From a session over any store to the promises of a run: where the store's calls mean what they should on the states of a
//! node that it stands for, the session is a run of that node. The crate has no code.
#![tactic(auto)]
