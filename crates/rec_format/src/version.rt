ghost use Rattle.std.specs.Prelude.{◌≡◌};

use crate::bytes::Bytes;
use std::marker::Model;

/// The name of a record: 20 bytes, as an Aerospike digest has. Digests are ordered by their bytes.
#[derive(Clone, Copy, PartialEq, Eq, PartialOrd, Ord)]
pub struct Digest(pub [u8; 20]);

/// When a version was written: Aerospike's last update time, in milliseconds from 1 to 2^62, and its generation, from
/// 1 to 65,535. Stamps are ordered by the time, then by the generation.
#[derive(Clone, Copy, PartialEq, Eq, PartialOrd, Ord)]
pub struct Stamp {
    pub lut: u64,
    pub gen_: u16,
}

/// What a version is: a put of a payload, or the tombstone of a durable delete, as the Aerospike documentation has
/// it.
#[derive(Clone, Copy, PartialEq, Eq)]
pub enum Kind {
    Put,
    Tomb,
}

/// What a record holds at one time. `void` is Aerospike's void time, the second from which it is expired, 0 for
/// never. `cover` tells that a removal has to leave a tombstone, since older copies may stand on the device.
#[derive(Drop)]
pub struct Version {
    pub kind: Kind,
    pub stamp: Stamp,
    pub void: u64,
    pub cover: bool,
    pub payload: Bytes,
}

/// A version whose payload is lent. Contracts see it as the version that it is.
#[derive(Drop)]
pub struct VersionRef<'a> {
    pub kind: Kind,
    pub stamp: Stamp,
    pub void: u64,
    pub cover: bool,
    pub payload: &'a [u8],
}

impl<'a> Model for VersionRef<'a> {
    ghost use Rattle.rec_format.specs.declared.version.Version.{Version};

    ghost Value = { Version };

    ghost view = { λ v. record { kind = v.kind; stamp = v.stamp; void = v.void; cover = v.cover; payload = v.payload.now } };
}

impl Version {
    /// The version, whose payload is lent.
    pub fn lent(&self) -> VersionRef<'_>
        ensures { result ≡ self.now }
    {
        VersionRef {
            kind: self.kind,
            stamp: self.stamp,
            void: self.void,
            cover: self.cover,
            payload: self.payload.as_slice(),
        }
    }
}

/// The fields of a record before its payload, whose length is in bytes.
#[derive(Clone, Copy, PartialEq, Eq)]
pub struct Head {
    pub digest: Digest,
    pub kind: Kind,
    pub stamp: Stamp,
    pub void: u64,
    pub cover: bool,
    pub length: u32,
}

/// No stamp is left: the time would pass its limit.
#[derive(Clone, Copy, PartialEq, Eq)]
pub struct Spent;

/// Why no record stands at the front of some bytes, in the order of the checks.
#[derive(Clone, Copy, PartialEq, Eq)]
pub enum BadRec {
    /// Fewer than 48 bytes are there.
    Short = 1,
    /// The first four bytes aren't `REC1`.
    Magic = 2,
    /// The units that the payload's length takes exceed the bytes that are there.
    Length = 3,
    /// Flags that no record has, another byte than zero behind them, or a tombstone with a payload or a void time.
    Flags = 4,
    /// A byte behind the payload, within the units, isn't zero.
    Padding = 5,
    /// Generation 0, time 0, or a time over 2^62.
    Stamp = 6,
}

/// Why a record can't be read: no record stands there, or memory for its payload is wanting.
#[derive(Clone, Copy, PartialEq, Eq)]
pub enum ParseRefusal {
    Bad(BadRec),
    Memory,
}
