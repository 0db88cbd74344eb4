// What is told of a start.
use disk_model::Disk;
use rec_format::Counts;
use shard_core::Shard;
use sprig_advice::Teller;

// How many entries of the index these numbers tell.
fn entries_in(counts: &Counts) -> u64 {
    counts.records.saturating_add(counts.tombstones)
}

/// Tells that devices with these numbers are started, whose partitions have so many sprigs.
pub fn tell_started<T: Teller>(teller: &T, counts: &Counts, sprigs: u32) {
    teller.started(entries_in(counts), sprigs);
}

/// Tells that these devices are started, whose partitions have so many sprigs.
pub fn tell_all_started<D: Disk, T: Teller>(teller: &T, shards: &[Shard<D>], sprigs: u32) {
    let mut entries = 0_u64;
    for shard in shards {
        entries = entries.saturating_add(entries_in(&shard.counts()));
    }
    teller.started(entries, sprigs);
}
