//! What a whole raid of one device does, where each of its scans finds all that it has to and nothing but possible copies: it removes and clears
//! just those entries that are old enough and have no older copy, as laws of the definitions. The crate has no code.
#![tactic(auto)]
