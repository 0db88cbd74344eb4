//! How much memory the index takes by the number of its sprigs, and whether another number would take a third less; and who is told that
//! at a start. The bytes are those that the sprigs ask for where the entries are dealt out to them as if by chance.
#![tactic(auto)]

mod advice;
mod bytes;
mod spread;
mod teller;

pub use advice::{Advice, better};
pub use bytes::bytes_for;
pub use teller::{Silent, Teller};
