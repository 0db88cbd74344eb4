//! What is on a device, counted: open blocks, the records in them, and the digests with a record or a tombstone. The device is read as a
//! cold start reads it, and nothing is written.
#![tactic(auto)]

mod counts;
mod device;

pub use counts::DeviceCheck;
pub use device::check_device;
