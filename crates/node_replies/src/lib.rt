//! What every store of a node shares: the replies to what its devices answer, and the sums over all of its devices.
#![tactic(auto)]

mod counts;
mod digests;
mod replies;

pub use counts::{NO_COUNTS, plus};
pub use digests::digest_of;
pub use replies::{
    defrag_reply, delete_reply, expire_reply, flush_reply, heal_reply, known_reply, raid_reply,
    read_reply, write_reply,
};
