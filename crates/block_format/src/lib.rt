//! The layout of a device: its header, its blocks and their gates and bodies. A write block is Aerospike's, by its
//! documentation; the bytes are this project's own.
#![tactic(auto)]

mod body;
mod gate;
mod geometry;
mod head;
mod header;

pub use body::{MAX_BODY_BYTES, check_body, digests_of, read_body};
pub use gate::{GATE_BYTES, SECTOR_BYTES, is_open, write_closed, write_open};
pub use geometry::{BodyRefusal, Found, Gate, Geometry};
pub use head::{BODY_HEAD_BYTES, write_head};
pub use header::{capacity, most_records, read_header, write_header};
