// What the words can ask for.
ghost use Rattle.std.specs.Prelude.{◌≡◌, []};
ghost use Rattle.node_words.specs.Planning.{default_serving};
ghost use Rattle.node_words.specs.Words.{HasRows, serving_rows};

/// The blocks of each device that is made.
#[derive(Clone, Copy, Debug, PartialEq, Eq, Drop)]
pub struct Shape {
    /// Bytes of a block, a power of two from 16,384 to 1,048,576.
    pub block_size: u32,
    /// Blocks of a device, 8 to 65,536.
    pub blocks: u32,
}

/// How devices are run.
#[derive(Clone, Copy, Debug, PartialEq, Eq, Drop)]
pub struct Tuning {
    /// Sprigs in each partition, 1 to 256.
    pub sprigs: u32,
    /// The low-water mark of defragmentation in percent of a block, 0 to 99.
    pub lwm: u32,
    /// The most write buffers of a device that may wait to be flushed, 4 to 64.
    pub pending: u32,
    /// The blocks that the post-write queue of a device keeps in memory, 0 to 64.
    pub cache: u32,
    /// Whether a write is flushed before it is answered.
    pub commit: bool,
    /// The age in seconds from which a tombstone may go, at most 315,360,000.
    pub raid_age: u64,
}

/// How connections are served.
#[derive(Clone, Copy, Debug, PartialEq, Eq, Drop)]
pub struct Serving {
    /// The port at which connections are taken, 1 to 65,535.
    pub port: u16,
    /// How many connections are served before the end, at most 1,000,000; 0 is without end.
    pub links: u32,
    /// How many connections are served at the same time, 1 to 64.
    pub seats: u8,
    /// The seconds after which a connection that sends nothing is closed, at most 86,400; 0 is never.
    pub idle: u32,
}

impl Default for Serving {
    // It is what the rows of these options say where none is given.
    ghost is_default = { λ s. (s ≡ default_serving) × HasRows [] (serving_rows s) };

    fn default() -> Serving {
        Serving {
            port: 3_000,
            links: 0,
            seats: 4,
            idle: 60,
        }
    }
}

/// A job with its options. The options' defaults stand in for those that weren't given.
#[derive(Clone, Copy, Debug, PartialEq, Eq, Drop)]
pub enum Job {
    /// Make empty devices.
    Format(Shape),
    /// Serve standard input.
    Run(Tuning),
    /// Serve connections of the network.
    Serve {
        /// How the devices are run meanwhile.
        tuning: Tuning,
        /// How the connections are served.
        serving: Serving,
    },
    /// Tell what is on devices, and change nothing.
    Check,
    /// Tell whether the images of devices are sound, and change nothing.
    Audit,
    /// Make devices and fill them.
    Generate {
        /// How many records are put, 1 to 1,000,000.
        count: u32,
        /// The blocks of each device.
        shape: Shape,
        /// How the devices are run meanwhile.
        tuning: Tuning,
    },
}
