use rec_format::Head;

/// The shape of a device, and its place among the devices.
#[derive(Clone, Copy, PartialEq, Eq)]
pub struct Geometry {
    pub block_size: u32,
    pub blocks: u32,
    pub device: u16,
    pub devices: u16,
}

/// A record that was read in a body, and its place there.
#[derive(Clone, Copy, PartialEq, Eq)]
pub struct Found {
    pub head: Head,
    pub unit: u32,
    pub units: u32,
}

/// What is known of a gate: closed in every image, open in every image, or neither.
#[derive(Clone, Copy, PartialEq, Eq)]
pub enum Gate {
    Shut,
    Set,
    Unsure,
}

/// Why a body can't be read: its first fault, at a place in bytes, or want of memory.
#[derive(Clone, Copy, PartialEq, Eq)]
pub enum BodyRefusal {
    Bad { place: u32 },
    Memory,
}
