//! One device under a table of slots, so that many threads take turns at it: its sprigs are the parts, its shelf is the hub.
//!
//! Each caller has a pass. A call takes what it needs, the sprig of a digest's part before the shelf, waits as long as that is out, and
//! gives it back; the call is then one event of the device's list, at the moment at which it gave the shelf back, and the last that its
//! pass has seen. Write block, sprig, tombstone, defragmentation and tomb raid are Aerospike's words.
#![tactic(auto)]

mod calls;
mod choose;
mod enter;
mod expire;
mod flush;
mod heal;
mod hub;
mod live;
mod looks;
mod machine;
mod noted;
mod open;
mod raid;
mod reads;
mod rest;
mod shares;
mod steps;
mod tries;
mod turns;
mod vacate;
mod writes;

pub use hub::Hub;
pub use live::{Live, LiveOut};
pub use machine::{Device, DeviceState, Happening, LivePass, Origin, Standing};
pub use tries::{Again, TryRefusal};
