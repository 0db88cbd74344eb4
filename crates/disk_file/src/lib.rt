//! A disk over a file or a block device of the system, and how one is opened or made. No clause tells what the file holds, nor what a
//! crash leaves of it: that it is honest is assumed of the system and the drive, and not proved.
#![tactic(auto)]

mod device_file;
mod devices;
mod file_disk;
mod kinds;
mod memory_devices;
mod memory_file;
mod opened_file;
mod standard;
mod system_devices;
mod system_file;
mod unsynced;
mod watch;
mod whole;

pub use device_file::{OpenFault, are_one, make_device, open_device, open_to_read};
pub use devices::{Devices, Kind, Look};
pub use file_disk::FileDisk;
pub use memory_devices::{Entry, Failing, MemoryDevices};
pub use memory_file::{MemoryFile, Turn};
pub use opened_file::OpenedFile;
pub use standard::fill_standard;
pub use system_devices::SystemDevices;
pub use system_file::SystemFile;
pub use watch::Watch;
