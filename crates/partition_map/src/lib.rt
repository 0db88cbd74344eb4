//! Places by digest: the partition of a namespace, the sprig of a partition, the device of a node,
//! and the part, which is one sprig counted over all partitions of its device. Each follows from
//! the digest and the settings alone, so no call takes memory. Partitions and sprigs are
//! Aerospike's, by its documentation.
#![tactic(auto)]

ghost use Rattle.std.specs.Prelude.{◌≡◌, ◌/◌, ◌%◌, ◌<◌, ◌≤◌};
ghost use Rattle.rec_format.specs.Places.{partition_number, sprig_number, device_number, part_number_of, part_count};
ghost use Rattle.partition_map.specs.Parts.{NamesOnePart, AllAreParts};

use rec_format::Digest;

/// The partitions of a namespace, as the Aerospike documentation has them.
pub const PARTITIONS: u32 = 4096;

/// The partition of a digest, from its first two bytes: below `PARTITIONS`.
pub fn partition_of(digest: &Digest) -> u32
    ensures value { result ≡ partition_number digest.now }
    ensures below { result < 4096 }
{
    (u32::from(digest.0[0]) + 256 * u32::from(digest.0[1])) % PARTITIONS
}

/// The sprig of a digest within its partition, from its next two bytes: below `sprigs`, the number
/// of sprigs in each partition.
pub fn sprig_of(digest: &Digest, sprigs: u32) -> u32
    requires some { 1 ≤ sprigs }
    requires most { sprigs ≤ 256 }
    ensures value { result ≡ sprig_number sprigs digest.now }
    ensures below { result < sprigs }
{
    remainder(
        u32::from(digest.0[2]) + 256 * u32::from(digest.0[3]),
        sprigs,
    )
}

/// The device that has the partition of a digest: below `devices`, among which the partitions are
/// dealt in turn.
pub fn device_of(digest: &Digest, devices: u16) -> u16
    requires some { 1 ≤ devices }
    requires most { devices ≤ 16 }
    ensures value { result ≡ device_number devices digest.now }
    ensures below { result < devices }
{
    remainder(partition_of(digest), u32::from(devices)) as u16
}

/// The part of a digest on its device: below `parts_of` of that device.
pub fn part_number(digest: &Digest, sprigs: u32, devices: u16) -> u32
    requires some_sprigs { 1 ≤ sprigs }
    requires most_sprigs { sprigs ≤ 256 }
    requires some_devices { 1 ≤ devices }
    requires most_devices { devices ≤ 16 }
    ensures value { result ≡ part_number_of devices sprigs digest.now }
    ensures below { result < part_count (device_number devices digest.now) devices sprigs }

    // It is the part of the digests of this partition and sprig, and of no others on the device.
    ensures one { NamesOnePart devices sprigs digest.now result }
{
    quotient(partition_of(digest), u32::from(devices)) * sprigs + sprig_of(digest, sprigs)
}

/// How many parts a device has: as many as it has partitions, times the sprigs of each.
pub fn parts_of(device: u16, devices: u16, sprigs: u32) -> u32
    requires some_devices { 1 ≤ devices }
    requires most_devices { devices ≤ 16 }
    requires one_of_them { device < devices }
    requires some_sprigs { 1 ≤ sprigs }
    requires most_sprigs { sprigs ≤ 256 }
    ensures value { result ≡ part_count device devices sprigs }

    // Each number below it is that of a sprig of a partition that the device has.
    ensures all { AllAreParts device devices sprigs result }
{
    let partitions = (PARTITIONS - 1 - u32::from(device)) / u32::from(devices) + 1;
    partitions * sprigs
}

// How often `by` goes into the number. Every call on a record divides, and nothing behind it begins before: by a power of two, as most
// nodes are set, it is a shift, where a division takes some thirty times as long.
fn quotient(number: u32, by: u32) -> u32
    requires { 1 ≤ by }
    ensures { result ≡ number / by }
{
    match by {
        1 => number,
        2 => number / 2,
        4 => number / 4,
        8 => number / 8,
        16 => number / 16,
        _ => number / by,
    }
}

// What `quotient` leaves over. By a power of two it is a mask.
fn remainder(number: u32, by: u32) -> u32
    requires { 1 ≤ by }
    ensures { result ≡ number % by }
{
    match by {
        1 => 0,
        2 => number % 2,
        4 => number % 4,
        8 => number % 8,
        16 => number % 16,
        32 => number % 32,
        64 => number % 64,
        128 => number % 128,
        256 => number % 256,
        _ => number % by,
    }
}
