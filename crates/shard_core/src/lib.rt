//! One device of a node: its shelf of write blocks, the primary index over it, one sprig for each part, and the calls that read and write
//! records. A device is sound where its disk is honest, and was started from a sound image: what a comment tells of crashes is told of
//! sound devices. Digest, sprig, write block, defragmentation, low-water mark, post-write queue, tombstone, generation, last update time
//! and void time are Aerospike's, by its documentation or the paper "Aerospike: Architecture of a Real-Time Operational DBMS" (PVLDB,
//! 2016).
#![tactic(auto)]

mod calls;
mod counts;
mod defrag;
mod delete;
mod expire;
mod flush;
mod format;
mod get;
mod heal;
mod index;
mod put;
mod raid;
mod refusals;
mod settings;
mod shard;
mod sprigs;
mod start;
mod write;

pub use block_shelf::ReadRefusal;
pub use cold_scan::{Asked, StartCause, StartRefusal};
pub use counts::tally_sum;
pub use defrag::{Vacated, first_in};
pub use delete::{bury_step, delete_step};
pub use expire::{expire_step, next_expired};
pub use flush::{flush_low, flush_next, flush_shelf};
pub use format::format_disk;
pub use get::{Meta, get_step, get_step_in, meta_step};
pub use heal::heal_shelf;
pub use put::put_step;
pub use refusals::{Damage, DefragCause, DefragRefusal, ExpireRefusal, WriteRefusal};
pub use settings::Settings;
pub use shard::{Parts, Shard};
pub use shard_raid::{Raid, RaidDid, RaidRefusal};
