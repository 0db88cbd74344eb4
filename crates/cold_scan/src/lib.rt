//! What a cold start reads of a device: its header, its gates, and of each digest the latest copy in the bodies behind the open ones.
//! Nothing is written.
#![tactic(auto)]

mod bodies;
mod device;
mod gates;
mod header;

pub use bodies::Kept;
pub use device::{Finding, StartRefusal, scan};
pub use header::{Asked, StartCause};
