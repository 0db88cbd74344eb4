// What the starts of a scenario told of digests, and what a crash of the last one may show.
use crate::program::Ending;
use scenario_rule::{
    Course, Done, Known, allows_at, commits, is_on_device, known_at, known_behind,
};
use scenario_text::{Report, Row, Trouble};
use std::alloc::Global;

// A line of the last start, with its reply.
#[derive(Drop)]
struct Told {
    line: String,
    reply: String,
    now: u64,
    // How many moments each disk had had when it began.
    begun: Vec<u64>,
}

/// What was known before the last start, and its lines.
#[derive(Drop)]
pub struct Past {
    alloc: Global,
    before: Known,
    told: Vec<Told>,
    is_closed: bool,
}

// The lines of a text, without those that only show the calls of a link.
fn lines_of(alloc: Global, text: &[u8]) -> Result<Vec<String>, Trouble> {
    let mut lines = Vec::new(alloc);
    for line in text.split(|byte| *byte == b'\n') {
        if let Ok(line) = str::from_utf8(line)
            && !line.starts_with('~')
        {
            lines.push(String::from_str(alloc, line)?)?;
        }
    }
    Ok(lines)
}

// The lines as they are known of a disk.
fn done_of(alloc: Global, told: &[Told], disk: usize) -> Result<Vec<Done<'_>>, Trouble> {
    let mut lines = Vec::new(alloc);
    for one in told {
        lines.push(Done {
            line: one.line.as_str(),
            reply: one.reply.as_str(),
            now: one.now,
            begun: one.begun.get(disk).copied().unwrap_or(0),
        })?;
    }
    Ok(lines)
}

impl Past {
    pub fn new(alloc: Global) -> Past {
        Past {
            alloc,
            before: Known::new(alloc),
            told: Vec::new(alloc),
            is_closed: false,
        }
    }

    // Takes the last start up into what was known before.
    fn close(&mut self) -> Result<(), Trouble> {
        self.before = self.behind()?;
        self.told.clear();
        Ok(())
    }

    // What is known behind the last start.
    fn behind(&self) -> Result<Known, Trouble> {
        let lines = done_of(self.alloc, &self.told, 0)?;
        Ok(known_behind(Course {
            before: &self.before,
            lines: &lines,
            end: 0,
            is_closed: self.is_closed,
        })?)
    }

    /// Goes on by a start over the disks themselves, of which these lines were sent.
    pub fn go_on(
        &mut self,
        words: &[String],
        input: &[u8],
        ending: &Ending,
    ) -> Result<(), Trouble> {
        self.close()?;
        self.before.begin(commits(words));
        let sent = lines_of(self.alloc, input)?;
        let replies = lines_of(self.alloc, &ending.text)?;
        let mut begun = ending.begun.iter();
        for (line, reply) in sent.iter().zip(replies.iter()) {
            if reply.as_str() == "err line" {
                continue;
            }
            let Some(at) = begun.next() else {
                break;
            };
            self.told.push(Told {
                line: String::from_str(self.alloc, line.as_str())?,
                reply: String::from_str(self.alloc, reply.as_str())?,
                now: at.now,
                begun: at.moments.to_vec(self.alloc)?,
            })?;
        }
        // A device alone isn't flushed in the end.
        self.is_closed = ending.end.as_str() == "= 0" && words.first().is_some_and(is_run);
        Ok(())
    }

    /// What a crash of one of so many disks, at a moment of it, may show.
    pub fn crashed(
        &self,
        disk: usize,
        devices: usize,
        moment: u64,
        end: u64,
    ) -> Result<Crashed, Trouble> {
        let lines = done_of(self.alloc, &self.told, disk)?;
        let course = Course {
            before: &self.before,
            lines: &lines,
            end,
            is_closed: self.is_closed,
        };
        Ok(Crashed {
            here: known_at(course, moment)?,
            beside: known_behind(course)?,
            device: disk as u64,
            devices: devices as u64,
        })
    }
}

fn is_run(word: &String) -> bool {
    word.as_str() == "run" || word.as_str() == "gen"
}

/// What is known of the digests of a device that crashed, and of those of the others.
#[derive(Drop)]
pub struct Crashed {
    here: Vec<Known>,
    beside: Known,
    device: u64,
    devices: u64,
}

impl Crashed {
    // Whether a get or a meta may show this.
    fn allows(&self, shown: &Done<'_>) -> Result<bool, Trouble> {
        let (_word, digits) = shown.line.split_once(' ').unwrap_or((shown.line, ""));
        if is_on_device(digits, self.device, self.devices) {
            Ok(allows_at(&self.here, shown)?)
        } else {
            Ok(self.beside.allows(shown)?)
        }
    }

    /// Compares each reply of a start over an image with what the lines before allow.
    pub fn compare(
        &self,
        alloc: Global,
        row: &Row,
        place: &str,
        input: &[u8],
        ending: &Ending,
        report: &mut Report,
    ) -> Result<(), Trouble> {
        let sent = lines_of(alloc, input)?;
        let replies = lines_of(alloc, &ending.text)?;
        let mut begun = ending.begun.iter();
        for (line, reply) in sent.iter().zip(replies.iter()) {
            let now = begun.next().map_or(0, |at| at.now);
            let shown = Done {
                line: line.as_str(),
                reply: reply.as_str(),
                now,
                begun: 0,
            };
            if is_shown(line.as_str()) && !self.allows(&shown)? {
                let wanted = format!(in alloc; "{line}: what the lines before allow")?;
                report.tell(row.number, place, wanted.as_str(), reply.as_str())?;
            }
        }
        if ending.end.as_str() != row.end.as_str() {
            report.tell(row.number, place, row.end.as_str(), ending.end.as_str())?;
        }
        Ok(())
    }
}

fn is_shown(line: &str) -> bool {
    line.starts_with("get ") || line.starts_with("meta ")
}
