// What a cold start found, counted.
ghost use Rattle.std.specs.Prelude.{◌≡◌, ◌<◌, ◌^◌, not, length};
ghost use Rattle.std.specs.List.{count_by};
ghost use Rattle.std.specs.BTreeMap.{values};
ghost use Rattle.rec_format.specs.Versions.{is_tomb_kind};
ghost use Rattle.cold_scan.specs.Found.{is_set};

use block_format::Gate;
use cold_scan::Kept;
use rec_format::{Digest, Kind};
use std::collections::BTreeMap;

/// What is on a device: its open blocks, and how many records they have, also replaced ones and those of digests of other devices; how
/// many digests of the device have a put as their latest record, and how many a tombstone.
#[derive(Clone, Copy, Debug, PartialEq, Eq)]
pub struct DeviceCheck {
    pub opened: u32,
    pub copies: u64,
    pub records: u64,
    pub tombstones: u64,
}

// Whether the gate is open.
fn is_set(gate: Gate) -> bool
    ensures { result ≡ is_set gate }
{
    match gate {
        Gate::Set => true,
        Gate::Shut | Gate::Unsure => false,
    }
}

/// How many gates are open.
pub(crate) fn opened_of(gates: &[Gate]) -> u32
    requires { length gates.now < 2 ^ 32 }
    ensures { result ≡ count_by is_set gates.now }
{
    gates.iter().filter(|gate| is_set(**gate)).count() as u32
}

/// How many of the latest copies are puts, and how many are tombstones.
pub(crate) fn kinds_of(latest: &BTreeMap<Digest, Kept>) -> (u64, u64)
    ensures puts { result.0 ≡ count_by (λ k. not (is_tomb_kind k.head.kind)) (values latest.now) }
    ensures tombstones { result.1 ≡ count_by (λ k. is_tomb_kind k.head.kind) (values latest.now) }
{
    let mut puts = 0;
    let mut tombstones = 0;
    for kept in latest.values() {
        match kept.head.kind {
            Kind::Put => puts += 1,
            Kind::Tomb => tombstones += 1,
        }
    }
    (puts, tombstones)
}
