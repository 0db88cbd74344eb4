// What is on a disk byte by byte: blocks that are written by their layout alone, and bytes that are shown.
use crate::stage::{number_of, place_of};
use disk_model::{Disk, MemDisk};
use scenario_text::Trouble;
use std::alloc::Global;

/// A block whose gate is open: its buffer's number, and the text of its records.
#[derive(Drop)]
pub struct OpenBlock {
    pub name: String,
    block: u32,
    number: u64,
    count: u32,
    text: Vec<u8>,
}

// The bytes of a block, of a gate or a body's head with it, and the most of a text.
const BLOCK_BYTES: u64 = 16_384;

const SECTOR_BYTES: u64 = 4096;

const TEXT_BYTES: usize = 12_256;

fn too_much() -> Trouble {
    Trouble::Line("the disk has no such place")
}

/// All bytes of a disk.
pub fn bytes_of(alloc: Global, disk: &mut MemDisk) -> Result<Vec<u8>, Trouble> {
    let mut bytes = vec![in alloc; 0; disk.len() as usize]?;
    match disk.read_at(0, &mut bytes) {
        Ok(()) => Ok(bytes),
        Err(_) => Err(Trouble::Line("a disk can't be read")),
    }
}

/// Writes bytes that are within the disk, and syncs it.
pub fn write(disk: &mut MemDisk, place: u64, bytes: &[u8]) -> Result<(), Trouble> {
    let count = bytes.len() as u64;
    if place > disk.len() || count > disk.len() - place {
        return Err(too_much());
    }
    let written = disk.write_at(place, bytes);
    if written.is_err() || disk.sync().is_err() {
        return Err(Trouble::Line("the disk failed"));
    }
    Ok(())
}

/// Writes bytes that are told in hex.
pub fn write_hex(
    alloc: Global,
    disk: &mut MemDisk,
    place: u64,
    digits: &str,
) -> Result<(), Trouble> {
    let Ok(bytes) = hex::decode(alloc, digits) else {
        return Err(Trouble::Line("these aren't bytes in hex"));
    };
    write(disk, place, &bytes)
}

// A record's words: its kind, its digest, its time, its generation, its void time and its payload.
#[derive(Clone, Copy)]
struct Words<'t> {
    kind: &'t str,
    digest: &'t str,
    lut: u64,
    gen_: u16,
    void: u64,
    data: &'t str,
}

fn words_of(line: &str) -> Result<Words<'_>, Trouble> {
    let (kind, rest) = line.split_once(' ').unwrap_or((line, ""));
    let (digest, rest) = rest.split_once(' ').unwrap_or((rest, ""));
    let (lut, rest) = rest.split_once(' ').unwrap_or((rest, ""));
    let (gen_, rest) = rest.split_once(' ').unwrap_or((rest, ""));
    let behind = if rest.is_empty() {
        Some(("0", "-"))
    } else {
        rest.split_once(' ')
    };
    let (Ok(gen_), Some((void, data))) = (gen_.parse::<u16>(), behind) else {
        return Err(Trouble::Line("it is record KIND DIGEST LUT GEN VOID DATA"));
    };
    Ok(Words {
        kind,
        digest,
        lut: number_of(lut)?,
        gen_,
        void: number_of(void)?,
        data,
    })
}

fn flags_of(kind: &str) -> Result<u8, Trouble> {
    match kind {
        "put" => Ok(0),
        "covered" => Ok(2),
        "tomb" => Ok(3),
        _ => Err(Trouble::Line("a record is put, covered or tomb")),
    }
}

// The payload, for which `-` stands where there is none.
fn payload_of(alloc: Global, data: &str) -> Result<Vec<u8>, Trouble> {
    let digits = if data == "-" { "" } else { data };
    match hex::decode(alloc, digits) {
        Ok(bytes) => Ok(bytes),
        Err(_) => Err(Trouble::Line("these aren't bytes in hex")),
    }
}

// Appends the text of a record, up to whole units of 16 bytes.
fn append(alloc: Global, words: &Words<'_>, text: &mut Vec<u8>) -> Result<(), Trouble> {
    let payload = payload_of(alloc, words.data)?;
    let digest = payload_of(alloc, words.digest)?;
    let Ok(length) = u32::try_from(payload.len()) else {
        return Err(too_much());
    };
    text.extend_from_slice(b"REC1")?;
    text.extend_from_slice(&length.to_le_bytes())?;
    text.extend_from_slice(&words.lut.to_le_bytes())?;
    text.extend_from_slice(&words.void.to_le_bytes())?;
    text.extend_from_slice(&words.gen_.to_le_bytes())?;
    text.push(flags_of(words.kind)?)?;
    text.push(0)?;
    text.extend_from_slice(&digest)?;
    text.extend_from_slice(&payload)?;
    for _ in 0..(16 - text.len() % 16) % 16 {
        text.push(0)?;
    }
    Ok(())
}

impl OpenBlock {
    /// `DISK BLOCK NUMBER`: a block without records.
    pub fn of(alloc: Global, words: &str) -> Result<OpenBlock, Trouble> {
        let (name, rest) = words.split_once(' ').unwrap_or((words, ""));
        let (block, number) = rest.split_once(' ').unwrap_or((rest, "1"));
        Ok(OpenBlock {
            name: String::from_str(alloc, name)?,
            block: number_of(block)?.min(65_535) as u32,
            number: number_of(number)?,
            count: 0,
            text: Vec::new(alloc),
        })
    }

    /// Puts a record behind the others.
    pub fn add(&mut self, alloc: Global, line: &str) -> Result<(), Trouble> {
        append(alloc, &words_of(line)?, &mut self.text)?;
        self.count = self.count.saturating_add(1);
        Ok(())
    }

    // The head of the body.
    fn head(&self, alloc: Global) -> Result<Vec<u8>, Trouble> {
        if self.text.len() > TEXT_BYTES {
            return Err(too_much());
        }
        let units = (self.text.len() / 16) as u32;
        let mut head = b"ASNBODY1".as_slice().to_vec(alloc)?;
        head.extend_from_slice(&self.number.to_le_bytes())?;
        head.extend_from_slice(&self.count.to_le_bytes())?;
        head.extend_from_slice(&units.to_le_bytes())?;
        head.extend_from_slice(&self.block.to_le_bytes())?;
        head.extend_from_slice(&[0; 4])?;
        Ok(head)
    }

    /// Writes the gate and the body.
    pub fn write_to(&self, alloc: Global, disk: &mut MemDisk) -> Result<(), Trouble> {
        let gate = SECTOR_BYTES + u64::from(self.block) * BLOCK_BYTES;
        write(disk, gate, b"ASNODE-GATE-OPEN")?;
        write(disk, gate + 4096, &self.head(alloc)?)?;
        write(disk, gate + 4128, &self.text)
    }
}

/// So many bytes from a place on, as a line in hex.
pub fn shown(
    alloc: Global,
    disk: &mut MemDisk,
    place: &str,
    count: &str,
) -> Result<Vec<u8>, Trouble> {
    let place = place_of(place)?;
    let count = number_of(count)?;
    if place > disk.len() || count > disk.len() - place {
        return Err(too_much());
    }
    let mut bytes = vec![in alloc; 0; count as usize]?;
    if disk.read_at(place, &mut bytes).is_err() {
        return Err(Trouble::Line("the disk failed"));
    }
    let digits = hex::encode(alloc, bytes.as_slice())?;
    let mut text = digits.as_bytes().to_vec(alloc)?;
    text.push(b'\n')?;
    Ok(text)
}
