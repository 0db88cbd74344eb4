// A disk alone, and its calls as lines.
use crate::program::{Around, Ending, Program};
use crate::stage::{number_of, place_of};
use disk_model::{Disk, DiskFault, MemDisk};
use scenario_text::Trouble;
use std::alloc::Global;

/// What the start `disk` starts: its lines are `write PLACE HEX`, `read PLACE COUNT` and `sync`, calls of the disk that it names.
pub struct DiskCalls;

// The words behind the first, each of which names a disk.
fn behind_first(words: &[String]) -> &[String] {
    match words {
        [_, names @ ..] => names,
        [] => &[],
    }
}

// The answer to a call that gives no bytes.
fn tell(answer: Result<(), DiskFault>, text: &mut Vec<u8>) -> Result<(), Trouble> {
    let word = if answer.is_ok() { "ok\n" } else { "fault\n" };
    text.extend_from_slice(word.as_bytes())?;
    Ok(())
}

fn write(
    alloc: Global,
    disk: &mut MemDisk,
    place: u64,
    digits: &str,
    text: &mut Vec<u8>,
) -> Result<(), Trouble> {
    let Ok(bytes) = hex::decode(alloc, digits) else {
        return Err(Trouble::Line("these aren't bytes in hex"));
    };
    let count = bytes.len() as u64;
    if place > disk.len() || count > disk.len() - place {
        return Err(Trouble::Line("the disk has no such place"));
    }
    tell(disk.write_at(place, &bytes), text)
}

fn read(
    alloc: Global,
    disk: &mut MemDisk,
    place: u64,
    count: u64,
    text: &mut Vec<u8>,
) -> Result<(), Trouble> {
    if place > disk.len() || count > disk.len() - place {
        return Err(Trouble::Line("the disk has no such place"));
    }
    let mut bytes = vec![in alloc; 0; count as usize]?;
    if disk.read_at(place, &mut bytes).is_err() {
        return tell(Err(DiskFault), text);
    }
    let digits = hex::encode(alloc, bytes.as_slice())?;
    text.extend_from_slice(digits.as_bytes())?;
    text.push(b'\n')?;
    Ok(())
}

// Makes the call of a line, and puts its answer behind the others.
fn call(alloc: Global, disk: &mut MemDisk, line: &str, text: &mut Vec<u8>) -> Result<(), Trouble> {
    if line == "sync" {
        return tell(disk.sync(), text);
    }
    let (word, rest) = line.split_once(' ').unwrap_or((line, ""));
    let (place, rest) = rest.split_once(' ').unwrap_or((rest, ""));
    match word {
        "write" => write(alloc, disk, place_of(place)?, rest, text),
        "read" => read(alloc, disk, place_of(place)?, number_of(rest)?, text),
        _ => Err(Trouble::Line("a disk has no such call")),
    }
}

// Makes the calls of all lines.
fn call_all(alloc: Global, disk: &mut MemDisk, input: &[u8]) -> Result<Vec<u8>, Trouble> {
    let Ok(lines) = str::from_utf8(input) else {
        return Err(Trouble::Line("this isn't text"));
    };
    let mut text: Vec<u8> = Vec::new(alloc);
    for line in lines.lines() {
        call(alloc, disk, line, &mut text)?;
    }
    Ok(text)
}

impl Program for DiskCalls {
    fn start(
        &self,
        alloc: Global,
        _words: &[String],
        mut disks: Vec<MemDisk>,
        around: &Around,
    ) -> Result<Ending, Trouble> {
        let [disk] = disks.as_mut_slice() else {
            return Err(Trouble::Line("which disk?"));
        };
        let text = call_all(alloc, disk, &around.input)?;
        Ok(Ending {
            end: String::from_str(alloc, "= 0")?,
            text,
            disks,
            begun: Vec::new(alloc),
        })
    }

    fn names<'w>(&self, words: &'w [String]) -> &'w [String] {
        behind_first(words)
    }
}
