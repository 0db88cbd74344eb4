/// How a device is run.
#[derive(Clone, Copy, Debug, PartialEq, Eq)]
pub struct Settings {
    /// Sprigs in each of the 4,096 partitions, 1 to 256; partition-tree-sprigs of Aerospike.
    pub sprigs: u32,
    /// The low-water mark of defragmentation in percent of a block, 0 to 99; defrag-lwm-pct of Aerospike.
    pub lwm: u32,
    /// The most write buffers that may wait to be flushed, 4 to 64.
    pub pending: u32,
    /// The blocks that the post-write queue keeps in memory, 0 to 64; post-write-queue of Aerospike.
    pub cache: u32,
    /// A write is flushed before it is answered; commit-to-device of Aerospike.
    pub commit: bool,
    /// The age in seconds from which the tomb raider may take a tombstone, at most 315,360,000; tomb-raider-eligible-age of Aerospike.
    pub raid_age: u64,
}
