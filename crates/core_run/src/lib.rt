//! A node over all of its devices, as a store for sessions, and how disks are made its devices. What a comment tells of crashes is told
//! of sound devices, as in `shard_core`: their disks are honest, and were started from sound images.
#![tactic(auto)]

mod devices;
mod format;
mod node;
mod raid;
mod starts;

pub use format::{FormatRefusal, format_devices};
pub use node::{Node, NodeRefusal};
pub use starts::{start_all, stop_all};
