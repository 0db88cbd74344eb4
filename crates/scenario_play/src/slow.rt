// What the plain and slow forms of the model read of an image, beside what the program shows of it.
use crate::program::{Around, Ending};
use crate::raw::bytes_of;
use disk_model::MemDisk;
use hex::encode;
use rec_format::{Digest, Kind, Version};
use scenario_text::{Report, Row, Trouble};
use std::alloc::Global;
use test_hist::{cold, copies};

/// The latest version of each digest that images have, in the order in which they are met; none where an image can't be read.
#[derive(Drop)]
pub struct Slow {
    latest: Vec<(Digest, Version)>,
    is_readable: bool,
}

impl Slow {
    pub fn of(alloc: Global, disks: &mut [MemDisk]) -> Result<Slow, Trouble> {
        let mut slow = Slow {
            latest: Vec::new(alloc),
            is_readable: true,
        };
        for disk in disks.iter_mut() {
            let bytes = bytes_of(alloc, disk)?;
            slow.add(alloc, &bytes)?;
        }
        Ok(slow)
    }

    fn has(&self, digest: &Digest) -> bool {
        self.latest.iter().any(|(known, _)| *known == *digest)
    }

    // Takes up what one image has.
    fn add(&mut self, alloc: Global, image: &[u8]) -> Result<(), Trouble> {
        let Some(found) = copies(alloc, image)? else {
            self.is_readable = false;
            return Ok(());
        };
        for (digest, _) in &found {
            if !self.has(digest)
                && let Some(version) = cold(alloc, image, digest)?
            {
                self.latest.push((*digest, version))?;
            }
        }
        Ok(())
    }

    /// A get of each digest behind a `stat`, at a time at which nothing is expired.
    pub fn around(&self, alloc: Global) -> Result<Around, Trouble> {
        let mut around = Around::new(alloc);
        around.times.push(0)?;
        around.input.extend_from_slice(b"stat\n")?;
        for (digest, _) in &self.latest {
            let digits = encode(alloc, digest.0.as_slice())?;
            around.input.extend_from_slice(b"get ")?;
            around.input.extend_from_slice(digits.as_bytes())?;
            around.input.push(b'\n')?;
        }
        Ok(around)
    }

    // How many of the latest versions are of a kind.
    fn count(&self, kind: Kind) -> usize {
        self.latest
            .iter()
            .filter(|(_, version)| version.kind == kind)
            .count()
    }

    // What a get shows of each.
    fn shown(&self, alloc: Global) -> Result<Vec<u8>, Trouble> {
        let mut text = Vec::new(alloc);
        for (_, version) in &self.latest {
            let line = shown_of(alloc, version)?;
            text.extend_from_slice(line.as_bytes())?;
        }
        Ok(text)
    }

    /// Compares what a start over the images answers.
    pub fn compare(
        &self,
        alloc: Global,
        number: u64,
        place: &str,
        ending: &Ending,
        report: &mut Report,
    ) -> Result<(), Trouble> {
        let mut row = Row::new(alloc, number)?;
        if !self.is_readable {
            return if ending.end.as_str().starts_with("= 7") {
                Ok(())
            } else {
                report.tell(number, place, "= 7", ending.end.as_str())
            };
        }
        let (puts, tombs) = (self.count(Kind::Put), self.count(Kind::Tomb));
        let counted = format!(in alloc; "stat {puts} {tombs} ")?;
        let (stat, rest) = split_line(&ending.text);
        if !stat.starts_with(counted.as_bytes()) {
            report.tell(number, place, counted.as_str(), "another count of records")?;
        }
        row.text = self.shown(alloc)?;
        report.compare(&row, place, rest, ending.end.as_str())
    }
}

// The first line, and what follows.
fn split_line(text: &[u8]) -> (&[u8], &[u8]) {
    for (at, byte) in text.iter().enumerate() {
        if *byte == b'\n' {
            return (&text[..at], &text[at + 1..]);
        }
    }
    (text, &[])
}

fn shown_of(alloc: Global, version: &Version) -> Result<String, Trouble> {
    if version.kind == Kind::Tomb {
        return Ok(String::from_str(alloc, "none\n")?);
    }
    let digits = encode(alloc, version.payload.as_slice())?;
    let data = if digits.is_empty() {
        "-"
    } else {
        digits.as_str()
    };
    let (gen_, lut, void) = (version.stamp.gen_, version.stamp.lut, version.void);
    Ok(format!(in alloc; "val {gen_} {lut} {void} {data}\n")?)
}
