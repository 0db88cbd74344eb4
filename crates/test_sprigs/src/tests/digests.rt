use rec_format::{Digest, Entry, Kind, Stamp};

/// The order in which the digests of rising numbers come.
#[derive(Clone, Copy)]
pub enum Order {
    Rising,
    Falling,
    /// Each one falls between the two before it, so that the middle grows.
    BothEnds,
    Scattered,
}

/// A number for each number, as if by chance: no two have the same.
fn mixed(number: u32) -> u32 {
    let once = (number ^ (number >> 16)).wrapping_mul(0x85eb_ca6b);
    let twice = (once ^ (once >> 13)).wrapping_mul(0xc2b2_ae35);
    twice ^ (twice >> 16)
}

/// What the digest of a number begins with.
fn rank(order: Order, number: u32) -> u32 {
    match order {
        Order::Rising => number,
        Order::Falling => !number,
        Order::BothEnds if number.is_multiple_of(2) => number / 2,
        Order::BothEnds => !(number / 2),
        Order::Scattered => mixed(number),
    }
}

/// The digest of a number. No two numbers have the same.
pub fn digest_of(order: Order, number: u32) -> Digest {
    let mut bytes = [0; 20];
    bytes[..4].copy_from_slice(&rank(order, number).to_be_bytes());
    Digest(bytes)
}

/// The entry of a number, which lies in this block.
pub fn entry_of(order: Order, number: u32, block: u32) -> Entry {
    Entry {
        digest: digest_of(order, number),
        block,
        stamp: Stamp { lut: 1000, gen_: 1 },
        void: 0,
        mark: 0,
        unit: 0,
        units: 3,
        kind: Kind::Put,
        cover: false,
    }
}
