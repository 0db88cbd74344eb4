//! What works beside the sessions at a device under its table: it flushes, vacates blocks, removes what is expired, and raids tombs.
//!
//! Each chore has a pass of its own. A turn is one event of the device's list, of the chore's kind, or none.
#![tactic(auto)]

mod defrag;
mod expire;
mod flush;
mod raid;
mod station;

pub use defrag::DefragChore;
pub use expire::ExpireChore;
pub use flush::FlushChore;
pub use raid::RaidChore;
