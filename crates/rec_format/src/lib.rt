//! Records of a device: digests, stamps, versions, entries, and the bytes of a record. Digest, generation, last
//! update time, void time and tombstone are Aerospike's, by its documentation; the bytes are this project's own.
#![tactic(auto)]

use std::alloc::AllocError;

mod bytes;
mod entry;
mod fields;
mod reading;
mod stamps;
mod version;
mod writing;

pub use bytes::Bytes;
pub use entry::{Counts, Entry};
pub use fields::{u16_at, u32_at, u64_at};
pub use reading::{check_record, parse, parse_head};
pub use stamps::next_stamp;
pub use version::{BadRec, Digest, Head, Kind, ParseRefusal, Spent, Stamp, Version, VersionRef};
pub use writing::{HEAD_BYTES, UNIT_BYTES, pack, pack_into, units_of};

/// Want of memory.
pub type NoMemory = AllocError;
