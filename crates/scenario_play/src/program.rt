// What the starts of a scenario start.
use disk_model::MemDisk;
use scenario_text::Trouble;
use std::alloc::Global;

/// What a start gets besides its disks: the input, the calls of source and sink that fail, and the times of the clock.
#[derive(Drop)]
pub struct Around {
    pub input: Vec<u8>,
    pub source_fails: Vec<u64>,
    pub sink_fails: Vec<u64>,
    pub times: Vec<u64>,
    /// The most bytes that a read of the source gives.
    pub piece: usize,
    /// Whether the calls of the link are shown among what is written.
    pub shows_link: bool,
    /// Whether what a terminal shows is told behind it.
    pub has_terminal: bool,
}

/// When a line began: its time, and how many moments each disk had had.
#[derive(Drop)]
pub struct Begun {
    pub now: u64,
    pub moments: Vec<u64>,
}

/// How a start ended, what it wrote, its disks, in order, and when each line began that was carried out.
#[derive(Drop)]
pub struct Ending {
    /// Such as `= 0`, or `= 2 words refused`.
    pub end: String,
    pub text: Vec<u8>,
    pub disks: Vec<MemDisk>,
    pub begun: Vec<Begun>,
}

/// What scenarios are played over.
pub trait Program {
    /// Does what the words ask for, over the disks that they name, in order.
    fn start(
        &self,
        alloc: Global,
        words: &[String],
        disks: Vec<MemDisk>,
        around: &Around,
    ) -> Result<Ending, Trouble>;

    /// The words that name disks.
    fn names<'w>(&self, words: &'w [String]) -> &'w [String];
}

impl Around {
    /// Nothing is sent, nothing fails, and the clock tells 1000.
    pub fn new(alloc: Global) -> Around {
        Around {
            input: Vec::new(alloc),
            source_fails: Vec::new(alloc),
            sink_fails: Vec::new(alloc),
            times: Vec::new(alloc),
            piece: usize::MAX,
            shows_link: false,
            has_terminal: false,
        }
    }
}
