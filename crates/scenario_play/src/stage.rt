// The disks of a scenario, and what is to happen to them.
use crate::course::Past;
use crate::program::Around;
use crate::raw::{OpenBlock, write_hex};
use crate::torn::torn_image;
use disk_model::{Disk, DiskCall, MemDisk};
use scenario_text::{Block, Pick, Trouble, pick_of};
use std::alloc::Global;
use std::mem;

/// A disk by its name. There is none while the program has it.
#[derive(Drop)]
struct Named {
    name: String,
    disk: Option<MemDisk>,
    /// The number of its last moment when the last start began.
    before: u64,
}

/// Over which images of a disk the next start goes.
#[derive(Drop)]
pub struct Images {
    pub name: String,
    /// Whether those of the last moment alone.
    pub is_last: bool,
    /// Of how many moments each one is taken.
    pub every: u64,
    pub picks: Vec<Pick>,
}

#[derive(Drop)]
pub struct Stage {
    pub alloc: Global,
    disks: Vec<Named>,
    pub around: Around,
    /// What the starts so far told of digests.
    pub past: Past,
    images: Option<Images>,
    open: Option<OpenBlock>,
}

// A sector of the header, and blocks of 16,384 bytes.
const HEADER_BYTES: u64 = 4096;

const BLOCK_BYTES: u64 = 16_384;

pub fn number_of(text: &str) -> Result<u64, Trouble> {
    match text.parse::<u64>() {
        Ok(number) => Ok(number),
        Err(_) => Err(Trouble::Line("a number is wanted")),
    }
}

fn kind_of(word: &str) -> Result<DiskCall, Trouble> {
    match word {
        "read" => Ok(DiskCall::Read),
        "write" => Ok(DiskCall::Write),
        "sync" => Ok(DiskCall::Sync),
        _ => Err(Trouble::Line("a call is read, write or sync")),
    }
}

// Calls are counted from 1, and a disk is told how many go well before.
fn skip_of(word: &str) -> Result<u64, Trouble> {
    Ok(number_of(word)?.saturating_sub(1))
}

// A byte of the disk; or `B:P`, the byte P of block B.
pub fn place_of(word: &str) -> Result<u64, Trouble> {
    match word.split_once(':') {
        Some((block, place)) => {
            let blocks = number_of(block)?.min(65_536) * BLOCK_BYTES;
            Ok(number_of(place)?.min(BLOCK_BYTES) + blocks + HEADER_BYTES)
        }
        None => number_of(word),
    }
}

fn push_numbers(words: &str, numbers: &mut Vec<u64>) -> Result<(), Trouble> {
    for word in words.split(' ') {
        numbers.push(skip_of(word)?)?;
    }
    Ok(())
}

// Times, each with how often it is told where that isn't once, as `1000x4`.
fn push_times(words: &str, times: &mut Vec<u64>) -> Result<(), Trouble> {
    for word in words.split(' ') {
        let (time, count) = word.split_once('x').unwrap_or((word, "1"));
        let time = number_of(time)?;
        for _ in 0..number_of(count)?.min(10_000) {
            times.push(time)?;
        }
    }
    Ok(())
}

impl Stage {
    pub fn new(alloc: Global) -> Stage {
        Stage {
            alloc,
            disks: Vec::new(alloc),
            around: Around::new(alloc),
            past: Past::new(alloc),
            images: None,
            open: None,
        }
    }

    fn named(&mut self, name: &str) -> Result<&mut Named, Trouble> {
        for named in &mut self.disks {
            if named.name.as_str() == name {
                return Ok(named);
            }
        }
        Err(Trouble::Line("there is no such disk"))
    }

    pub fn disk(&mut self, name: &str) -> Result<&mut MemDisk, Trouble> {
        match &mut self.named(name)?.disk {
            Some(disk) => Ok(disk),
            None => Err(Trouble::Line("there is no such disk")),
        }
    }

    /// A disk of so many zeros, or in place of one of the same name.
    pub fn add(&mut self, name: &str, len: u64) -> Result<(), Trouble> {
        let disk = MemDisk::new(self.alloc, len.min(1 << 30))?;
        let named = Named {
            name: String::from_str(self.alloc, name)?,
            disk: Some(disk),
            before: 0,
        };
        self.disks.retain(|other| other.name.as_str() != name);
        self.disks.push(named)?;
        Ok(())
    }

    /// The disk of a name leaves.
    pub fn lend(&mut self, name: &str) -> Result<MemDisk, Trouble> {
        let named = self.named(name)?;
        match named.disk.take() {
            Some(disk) => {
                named.before = disk.moments() - 1;
                Ok(disk)
            }
            None => Err(Trouble::Line("the program has that disk")),
        }
    }

    pub fn put_back(&mut self, name: &str, disk: MemDisk) -> Result<(), Trouble> {
        self.named(name)?.disk = Some(disk);
        Ok(())
    }

    /// The next start gets the input of this block.
    pub fn take_input(&mut self, block: &mut Block) {
        self.around.input = mem::replace(&mut block.input, Vec::new(self.alloc));
    }

    /// What the program doesn't take more than once.
    pub fn started(&mut self) {
        self.around.source_fails.clear();
        self.around.sink_fails.clear();
        self.around.piece = usize::MAX;
        self.around.shows_link = false;
        self.around.has_terminal = false;
    }

    pub fn take_images(&mut self) -> Option<Images> {
        mem::replace(&mut self.images, None)
    }

    /// The moments since the last start began, from the one before it on, to one behind the last.
    pub fn moments(&mut self, name: &str) -> Result<(u64, u64), Trouble> {
        let named = self.named(name)?;
        let before = named.before;
        match &named.disk {
            Some(disk) => Ok((before, disk.moments())),
            None => Err(Trouble::Line("the program has that disk")),
        }
    }

    /// A new disk with what a read of this one gives now.
    pub fn copy(&mut self, name: &str) -> Result<MemDisk, Trouble> {
        let disk = self.disk(name)?;
        let last = disk.moments() - 1;
        Ok(disk.image(last, u64::MAX)?)
    }

    /// A new disk with what a crash at a moment might have left.
    pub fn image(&mut self, name: &str, moment: u64, pick: Pick) -> Result<MemDisk, Trouble> {
        let alloc = self.alloc;
        let disk = self.disk(name)?;
        if moment >= disk.moments() {
            return Err(Trouble::Line("the disk has no such moment"));
        }
        match pick {
            Pick::Writes(pick) => Ok(disk.image(moment, pick)?),
            Pick::Torn(count) => torn_image(alloc, disk, moment, count),
        }
    }

    /// A call of a disk, of the source or of the sink that is to fail.
    fn fail(&mut self, words: &str) -> Result<(), Trouble> {
        let Some((name, rest)) = words.split_once(' ') else {
            return Err(Trouble::Line("which calls?"));
        };
        match name {
            "source" => push_numbers(rest, &mut self.around.source_fails),
            "sink" => push_numbers(rest, &mut self.around.sink_fails),
            _ => self.fail_disk(name, rest),
        }
    }

    fn fail_disk(&mut self, name: &str, rest: &str) -> Result<(), Trouble> {
        let Some((kind, numbers)) = rest.split_once(' ') else {
            return Err(Trouble::Line("which calls?"));
        };
        let kind = kind_of(kind)?;
        let disk = self.disk(name)?;
        for number in numbers.split(' ') {
            disk.fail_after(kind, skip_of(number)?)?;
        }
        Ok(())
    }

    /// The disk of a name answers so many more calls, and none behind them.
    fn stop(&mut self, words: &str) -> Result<(), Trouble> {
        let Some((name, calls)) = words.split_once(' ') else {
            return Err(Trouble::Line("behind how many calls?"));
        };
        let calls = number_of(calls)?;
        self.disk(name)?.stop_after(calls);
        Ok(())
    }

    fn write_bytes(&mut self, words: &str) -> Result<(), Trouble> {
        let Some((name, rest)) = words.split_once(' ') else {
            return Err(Trouble::Line("which disk?"));
        };
        let Some((place, digits)) = rest.split_once(' ') else {
            return Err(Trouble::Line("which bytes?"));
        };
        let place = place_of(place)?;
        let alloc = self.alloc;
        write_hex(alloc, self.disk(name)?, place, digits)
    }

    fn choose_images(&mut self, words: &str) -> Result<(), Trouble> {
        let (name, rest) = words.split_once(' ').unwrap_or((words, "0"));
        let (is_last, rest) = match rest.strip_prefix("last ") {
            Some(picks) => (true, picks),
            None => (false, rest),
        };
        let (every, rest) = match rest.strip_prefix("every ") {
            Some(rest) => rest.split_once(' ').unwrap_or((rest, "0")),
            None => ("1", rest),
        };
        let mut picks = Vec::new(self.alloc);
        for pick in rest.split(' ') {
            picks.push(pick_of(pick)?)?;
        }
        self.images = Some(Images {
            name: String::from_str(self.alloc, name)?,
            is_last,
            every: number_of(every)?,
            picks,
        });
        Ok(())
    }

    // Writes the block that is open.
    fn write_open(&mut self, open: &OpenBlock) -> Result<(), Trouble> {
        let alloc = self.alloc;
        open.write_to(alloc, self.disk(open.name.as_str())?)
    }

    fn open_block(&mut self, words: &str) -> Result<(), Trouble> {
        let open = OpenBlock::of(self.alloc, words)?;
        self.write_open(&open)?;
        self.open = Some(open);
        Ok(())
    }

    fn add_record(&mut self, line: &str) -> Result<(), Trouble> {
        let Some(mut open) = mem::replace(&mut self.open, None) else {
            return Err(Trouble::Line("a record stands behind its block"));
        };
        open.add(self.alloc, line)?;
        self.write_open(&open)?;
        self.open = Some(open);
        Ok(())
    }

    fn add_disk(&mut self, words: &str) -> Result<(), Trouble> {
        let (name, len) = words.split_once(' ').unwrap_or((words, "266240"));
        let len = number_of(len)?;
        self.add(name, len)
    }

    /// Does what a line of a scenario says of the disks or of what is around.
    pub fn arrange(&mut self, word: &str, rest: &str) -> Result<(), Trouble> {
        match word {
            "disk" => self.add_disk(rest),
            "clock" => {
                self.around.times.clear();
                push_times(rest, &mut self.around.times)
            }
            "fail" => self.fail(rest),
            "stop" => self.stop(rest),
            "lie" => {
                let (name, number) = rest.split_once(' ').unwrap_or((rest, "1"));
                let skip = skip_of(number)?;
                self.disk(name)?.lie_after(skip);
                Ok(())
            }
            "bytes" => self.write_bytes(rest),
            "pieces" => {
                self.around.piece = number_of(rest)?.clamp(1, 1 << 30) as usize;
                Ok(())
            }
            "writes" => {
                self.around.shows_link = true;
                Ok(())
            }
            "terminal" => {
                self.around.has_terminal = true;
                Ok(())
            }
            "images" => self.choose_images(rest),
            "block" => self.open_block(rest),
            "record" => self.add_record(rest),
            _ => Err(Trouble::Line("no scenario has such a line")),
        }
    }
}
