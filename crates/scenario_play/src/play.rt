// Starts of a scenario: the program over its disks, or over each image of one of them.
use crate::disk_calls::DiskCalls;
use crate::program::{Ending, Program};
use crate::raw::shown;
use crate::slow::Slow;
use crate::stage::{Images, Stage};
use disk_model::MemDisk;
use scenario_text::{Block, Pick, Report, Row, Trouble};
use std::alloc::Global;

// The disks of these names leave the stage.
fn lend_all(stage: &mut Stage, names: &[String]) -> Result<Vec<MemDisk>, Trouble> {
    let mut disks = Vec::new(stage.alloc);
    for name in names {
        disks.push(stage.lend(name.as_str())?)?;
    }
    Ok(disks)
}

// They come back, in the same order.
fn put_all_back(stage: &mut Stage, names: &[String], disks: Vec<MemDisk>) -> Result<(), Trouble> {
    for (name, disk) in names.iter().zip(disks) {
        stage.put_back(name.as_str(), disk)?;
    }
    Ok(())
}

// Compares what came of a start with the first row, or with nothing.
fn compare_first(
    block: &Block,
    ending: &Ending,
    report: &mut Report,
    alloc: Global,
) -> Result<(), Trouble> {
    report.count_lines(&ending.text);
    match block.rows.first() {
        Some(row) => report.compare(row, "", &ending.text, ending.end.as_str()),
        None => {
            let row = Row::new(alloc, block.number)?;
            report.compare(&row, "", &ending.text, ending.end.as_str())
        }
    }
}

// One start over the disks themselves.
fn play_once<P: Program>(
    program: &P,
    stage: &mut Stage,
    block: &Block,
    report: &mut Report,
) -> Result<(), Trouble> {
    let names = program.names(&block.words);
    let disks = lend_all(stage, names)?;
    let ending = program.start(stage.alloc, &block.words, disks, &stage.around)?;
    compare_first(block, &ending, report, stage.alloc)?;
    stage
        .past
        .go_on(&block.words, &stage.around.input, &ending)?;
    put_all_back(stage, names, ending.disks)
}

// Where an image is of: a moment, counted from the one before the last start, whether it is the last one, and the pick.
#[derive(Clone, Copy)]
struct At {
    step: u64,
    moment: u64,
    end: u64,
    pick: Pick,
}

impl At {
    fn is_last(&self) -> bool {
        self.end <= self.moment.saturating_add(1)
    }

    fn place(&self, alloc: Global) -> Result<String, Trouble> {
        let step = self.step;
        match self.pick {
            Pick::Writes(u64::MAX) => Ok(format!(in alloc; " at {step} pick all")?),
            Pick::Writes(pick) => Ok(format!(in alloc; " at {step} pick {pick}")?),
            Pick::Torn(count) => Ok(format!(in alloc; " at {step} pick torn{count}")?),
        }
    }
}

// The row of a moment and a pick, if there is one.
fn row_of<'b>(block: &'b Block, at: &At) -> Option<&'b Row> {
    block
        .rows
        .iter()
        .find(|row| row.is_of(at.step, at.is_last(), at.pick))
}

// Compares what a start over an image showed with what the lines before allow.
fn compare_allowed(
    stage: &Stage,
    images: &Images,
    names: &[String],
    row: &Row,
    at: &At,
    ending: &Ending,
    report: &mut Report,
) -> Result<(), Trouble> {
    let alloc = stage.alloc;
    let place = at.place(alloc)?;
    let mut disk = 0_usize;
    for name in names {
        if name.as_str() == images.name.as_str() {
            let crashed = stage.past.crashed(disk, names.len(), at.moment, at.end)?;
            let input = stage.around.input.as_slice();
            return crashed.compare(alloc, row, place.as_str(), input, ending, report);
        }
        disk = disk.saturating_add(1);
    }
    Err(Trouble::Line("the program doesn't have that disk"))
}

// Compares what came of a start over an image with the row that tells of it.
fn compare_image(
    stage: &Stage,
    images: &Images,
    names: &[String],
    block: &Block,
    at: &At,
    ending: &Ending,
    report: &mut Report,
) -> Result<(), Trouble> {
    let place = at.place(stage.alloc)?;
    report.count_image();
    report.count_lines(&ending.text);
    match row_of(block, at) {
        Some(row) if row.is_allowed => {
            compare_allowed(stage, images, names, row, at, ending, report)
        }
        Some(row) => report.compare(row, place.as_str(), &ending.text, ending.end.as_str()),
        None => report.tell(block.number, place.as_str(), "a row", "none"),
    }
}

// The disks of these names, one of them as a crash at a moment might have left it, and the others as they are.
fn image_disks(
    stage: &mut Stage,
    names: &[String],
    crashed: &str,
    at: &At,
) -> Result<Vec<MemDisk>, Trouble> {
    let mut disks = Vec::new(stage.alloc);
    for name in names {
        let disk = if name.as_str() == crashed {
            stage.image(crashed, at.moment, at.pick)?
        } else {
            stage.copy(name.as_str())?
        };
        disks.push(disk)?;
    }
    Ok(disks)
}

// Whether it serves lines.
fn serves(words: &[String]) -> bool {
    begins(words, "run") || begins(words, "device")
}

// Compares what a start over images shows of each digest with what the slow forms of the model read of them.
fn compare_slowly<P: Program>(
    program: &P,
    stage: &Stage,
    block: &Block,
    mut disks: Vec<MemDisk>,
    at: &At,
    report: &mut Report,
) -> Result<(), Trouble> {
    let alloc = stage.alloc;
    let slow = Slow::of(alloc, &mut disks)?;
    let around = slow.around(alloc)?;
    let ending = program.start(alloc, &block.words, disks, &around)?;
    let place = at.place(alloc)?;
    slow.compare(alloc, block.number, place.as_str(), &ending, report)
}

// A start over each chosen image of a moment.
fn play_moment<P: Program>(
    program: &P,
    stage: &mut Stage,
    block: &Block,
    images: &Images,
    (step, moment, end): (u64, u64, u64),
    report: &mut Report,
) -> Result<(), Trouble> {
    let names = program.names(&block.words);
    for pick in &images.picks {
        let at = At {
            step,
            moment,
            end,
            pick: *pick,
        };
        if serves(&block.words) {
            let disks = image_disks(stage, names, images.name.as_str(), &at)?;
            compare_slowly(program, stage, block, disks, &at, report)?;
        }
        let disks = image_disks(stage, names, images.name.as_str(), &at)?;
        let ending = program.start(stage.alloc, &block.words, disks, &stage.around)?;
        compare_image(stage, images, names, block, &at, &ending, report)?;
    }
    Ok(())
}

// So of each moment since the last start began, or of the last one.
fn play_images<P: Program>(
    program: &P,
    stage: &mut Stage,
    block: &Block,
    images: &Images,
    report: &mut Report,
) -> Result<(), Trouble> {
    let (before, end) = stage.moments(images.name.as_str())?;
    let last = end.saturating_sub(1);
    let first = if images.is_last { last } else { before };
    for moment in first..end {
        let step = moment.saturating_sub(before);
        if step % images.every.max(1) == 0 || moment == last {
            let at = (step, moment, end);
            play_moment(program, stage, block, images, at, report)?;
        }
    }
    Ok(())
}

// `bytes DISK PLACE COUNT`: so many bytes of a disk.
fn play_bytes(stage: &mut Stage, block: &Block, report: &mut Report) -> Result<(), Trouble> {
    let alloc = stage.alloc;
    let [_, name, place, count] = block.words.as_slice() else {
        return Err(Trouble::Line("it is bytes DISK PLACE COUNT"));
    };
    let disk = stage.disk(name.as_str())?;
    let text = shown(alloc, disk, place.as_str(), count.as_str())?;
    match block.rows.first() {
        Some(row) => report.compare(row, "", &text, "= 0"),
        None => Err(Trouble::Line("which bytes?")),
    }
}

// Whether the words begin with this one.
fn begins(words: &[String], word: &str) -> bool {
    match words.first() {
        Some(first) => first.as_str() == word,
        None => false,
    }
}

// One start over the disks themselves, or one over each of the images that were chosen.
fn play_start<P: Program>(
    program: &P,
    stage: &mut Stage,
    block: &Block,
    report: &mut Report,
) -> Result<(), Trouble> {
    match stage.take_images() {
        Some(images) => play_images(program, stage, block, &images, report),
        None => play_once(program, stage, block, report),
    }
}

/// Plays a start.
pub fn play<P: Program>(
    program: &P,
    stage: &mut Stage,
    block: &mut Block,
    report: &mut Report,
) -> Result<(), Trouble> {
    if begins(&block.words, "bytes") {
        return play_bytes(stage, block, report);
    }
    stage.take_input(block);
    let played = if begins(&block.words, "disk") {
        play_start(&DiskCalls, stage, block, report)
    } else {
        play_start(program, stage, block, report)
    };
    stage.started();
    played
}
