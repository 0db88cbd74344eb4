// What a start makes of the copies that were found: the sprigs of the device.
ghost use Rattle.std.specs.Prelude.{◌≡◌, List, length, IfOk, OnOk, None};
ghost use Rattle.block_format.specs.Layout.{IsGeometry};
ghost use Rattle.block_format.specs.Copies.{Copy};
ghost use Rattle.rec_format.specs.Places.{device_number};
ghost use Rattle.model_device.specs.Steps.{part_total};
ghost use Rattle.cold_scan.specs.Found.{HasKept};
ghost use Rattle.shard_core.specs.View.{IsSettings, setup_for};
ghost use Rattle.shard_core.specs.Sprigs.{held};
ghost use Rattle.shard_core.specs.Finding.{entry_kept, KeepsOne, AreLatest};

use crate::Settings;
use crate::sprigs::empty_sprigs;
use arena_sprig::Sprig;
use block_format::Geometry;
use cold_scan::Kept;
use partition_map::{part_number, parts_of};
use rec_format::{Digest, Entry, NoMemory};
use std::alloc::Global;
use std::collections::BTreeMap;

/// What a shard begins with: the entry of the latest copy of each digest of the device, in the sprig of its part, and the greatest number
/// of a buffer.
#[derive(Drop)]
pub struct Finding {
    pub sprigs: Vec<Sprig>,
    pub greatest: u64,
}

// The entry of a copy that was kept. It isn't marked.
fn entry_of(kept: &Kept) -> Entry
    ensures { result ≡ entry_kept kept.now }
{
    Entry {
        digest: kept.head.digest,
        stamp: kept.head.stamp,
        void: kept.head.void,
        kind: kept.head.kind,
        cover: kept.head.cover,
        mark: 0,
        block: kept.place_block,
        unit: kept.unit,
        units: kept.units,
    }
}

// The entry comes into the sprig of its part, where its digest has none yet.
fn put_entry(
    sprigs: &mut [Sprig],
    geometry: &Geometry,
    set: &Settings,
    entry: Entry,
) -> Result<(), NoMemory>
    requires geometry { IsGeometry geometry.now }
    requires settings { IsSettings set.now }
    requires parts { length sprigs.old ≡ part_total (setup_for geometry.now set.now) }
    requires own { device_number geometry.now.devices entry.digest ≡ geometry.now.device }
    requires absent { held (setup_for geometry.now set.now) entry.digest sprigs.old ≡ None }
    ensures kept { OnOk result (KeepsOne (setup_for geometry.now set.now) entry sprigs.old sprigs.new) }
    ensures parts { length sprigs.new ≡ length sprigs.old }
{
    let part = part_number(&entry.digest, set.sprigs, geometry.devices);
    let sprig = &mut sprigs[part as usize];
    sprig.reserve(1)?;
    sprig.insert(entry);
    Ok(())
}

/// The sprigs with the entry of each copy that was kept.
pub(crate) fn index_of(
    alloc: Global,
    geometry: &Geometry,
    set: &Settings,
    latest: BTreeMap<Digest, Kept>,
) -> Result<Vec<Sprig>, NoMemory>
    requires geometry { IsGeometry geometry.now }
    requires settings { IsSettings set.now }
    requires kept { (copies : List Copy) × HasKept geometry.now copies latest }
    ensures { IfOk result (λ sprigs. (copies : List Copy) → HasKept geometry.now copies latest → AreLatest (setup_for geometry.now set.now) copies sprigs.items) }
{
    let parts = parts_of(geometry.device, geometry.devices, set.sprigs);
    let mut sprigs = empty_sprigs(alloc, parts)?;
    for (_, kept) in latest {
        put_entry(&mut sprigs, geometry, set, entry_of(&kept))?;
    }
    Ok(sprigs)
}
