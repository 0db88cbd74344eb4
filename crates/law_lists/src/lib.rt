//! Laws of lists, tests and answers that name nothing of the store: what holds of each element, what is in a list, what a test keeps,
//! finds and counts, and what stands at a place. The crate has no code.
#![tactic(auto)]
