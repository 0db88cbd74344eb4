// What is known of all digests behind lines, each with its reply.
use crate::history::{History, Item, Write};
use crate::line::{number_of, put_of, shown_by_get, shown_by_meta, split, tomb_of};
use std::alloc::{AllocError, Global};

/// A line that was carried out, its reply, its time, and how many moments the disk had had when it began.
#[derive(Clone, Copy)]
pub struct Done<'t> {
    pub line: &'t str,
    pub reply: &'t str,
    pub now: u64,
    pub begun: u64,
}

/// The histories that a digest may have.
#[derive(Drop)]
struct Digest {
    digits: String,
    histories: Vec<History>,
}

// How lines change histories.
#[derive(Clone, Copy)]
struct Manner {
    alloc: Global,
    // Whether a write is flushed before it is answered.
    commits: bool,
    // Whether a raid may have cleared covers.
    raids: bool,
}

/// What is known of each digest that a line named.
#[derive(Drop)]
pub struct Known {
    alloc: Global,
    digests: Vec<Digest>,
    manner: Manner,
}

// What a line does to a digest, as its reply tells.
enum Deed {
    Put,
    Bury,
    Delete,
    Expire,
    Nothing,
}

// A write that failed may stand all the same, as with commit on.
fn is_faulty(reply: &str) -> bool {
    reply == "err fault" || reply == "Fault"
}

fn deed_of(word: &str, reply: &str) -> Deed {
    match word {
        "put" if reply.starts_with("ok ") || is_faulty(reply) => Deed::Put,
        "bury" if reply.starts_with("ok ") || is_faulty(reply) => Deed::Bury,
        "del" if reply == "gone" || is_faulty(reply) => Deed::Delete,
        "expire" | "part" => Deed::Expire,
        _ => Deed::Nothing,
    }
}

impl Manner {
    // Whether it may be covered, and whether it may not, what comes over the entry of a history.
    fn covers_over(&self, history: &History) -> (bool, bool) {
        match history.top() {
            Some(top) => (top.is_covered, !top.is_covered || self.raids),
            None => (false, true),
        }
    }

    // What a put makes of a history: it takes over the cover of the entry, which a raid may have cleared.
    fn put(
        &self,
        history: &History,
        words: &str,
        done: &Done<'_>,
        is_whole: bool,
        after: &mut Vec<History>,
    ) -> Result<(), AllocError> {
        let (may_be_covered, may_be_bare) = self.covers_over(history);
        for (is_so, is_covered) in [(may_be_covered, true), (may_be_bare, false)] {
            if is_so {
                let mut write = put_of(self.alloc, words, done.reply, done.now)?;
                write.is_covered = is_covered;
                write.is_flushed = is_whole && self.commits && !is_faulty(done.reply);
                history.with(self.alloc, Item::Write(write))?.add_to(after)?;
            }
        }
        Ok(())
    }

    fn bury(
        &self,
        history: &History,
        done: &Done<'_>,
        is_whole: bool,
        after: &mut Vec<History>,
    ) -> Result<(), AllocError> {
        let mut write = tomb_of(self.alloc);
        write.is_flushed = is_whole && self.commits && !is_faulty(done.reply);
        history.with(self.alloc, Item::Write(write))?.add_to(after)?;
        Ok(())
    }

    // What the removal of an entry makes of a history: a tombstone where it is covered, and else nothing is written.
    fn remove(
        &self,
        history: &History,
        done: &Done<'_>,
        is_whole: bool,
        after: &mut Vec<History>,
    ) -> Result<(), AllocError> {
        let (may_be_covered, may_be_bare) = self.covers_over(history);
        if may_be_covered {
            self.bury(history, done, is_whole, after)?;
        }
        if may_be_bare {
            history.with(self.alloc, Item::Removed)?.add_to(after)?;
        }
        Ok(())
    }

    // What the removal of what is expired makes of it. One of a part may have passed it over, and so may one that was refused.
    fn expire(
        &self,
        history: &History,
        done: &Done<'_>,
        is_whole: bool,
        after: &mut Vec<History>,
    ) -> Result<(), AllocError> {
        let is_expired = match history.top() {
            Some(top) => top.is_put && top.is_expired(done.now),
            None => false,
        };
        if is_expired {
            self.remove(history, done, is_whole, after)?;
        }
        if !is_expired || !done.line.starts_with("expire") || !done.reply.starts_with("ok ") {
            history.copy(self.alloc)?.add_to(after)?;
        }
        Ok(())
    }

    // The histories that a digest may have behind a line that names it, or that removes what is expired.
    fn behind(
        &self,
        digest: &Digest,
        done: &Done<'_>,
        is_whole: bool,
    ) -> Result<Vec<History>, AllocError> {
        let (word, rest) = split(done.line);
        let (_digits, words) = split(rest);
        let mut after = Vec::new(self.alloc);
        for history in &digest.histories {
            match deed_of(word, done.reply) {
                Deed::Put => self.put(history, words, done, is_whole, &mut after)?,
                Deed::Bury => self.bury(history, done, is_whole, &mut after)?,
                Deed::Delete => self.remove(history, done, is_whole, &mut after)?,
                Deed::Expire => self.expire(history, done, is_whole, &mut after)?,
                Deed::Nothing => history.copy(self.alloc)?.add_to(&mut after)?,
            }
            if is_faulty(done.reply) {
                history.copy(self.alloc)?.add_to(&mut after)?;
            }
        }
        Ok(after)
    }
}

impl Known {
    /// Nothing was written yet.
    pub fn new(alloc: Global) -> Known {
        Known {
            alloc,
            digests: Vec::new(alloc),
            manner: Manner {
                alloc,
                commits: false,
                raids: false,
            },
        }
    }

    pub fn copy(&self) -> Result<Known, AllocError> {
        let mut digests = Vec::new(self.alloc);
        for digest in &self.digests {
            let mut histories = Vec::new(self.alloc);
            for history in &digest.histories {
                histories.push(history.copy(self.alloc)?)?;
            }
            digests.push(Digest {
                digits: String::from_str(self.alloc, digest.digits.as_str())?,
                histories,
            })?;
        }
        Ok(Known {
            alloc: self.alloc,
            digests,
            manner: self.manner,
        })
    }

    /// The next lines are those of a session, with commit on or off.
    pub fn begin(&mut self, commits: bool) {
        self.manner.commits = commits;
    }

    // A digest that wasn't named yet has an empty history.
    fn learn(&mut self, digits: &str) -> Result<(), AllocError> {
        if self.digests.iter().any(|it| it.digits.as_str() == digits) {
            return Ok(());
        }
        let mut histories = Vec::new(self.alloc);
        histories.push(History::new(self.alloc))?;
        self.digests.push(Digest {
            digits: String::from_str(self.alloc, digits)?,
            histories,
        })?;
        Ok(())
    }

    // Goes on by a line of one digest, or by one that removes what is expired.
    fn change(&mut self, digits: &str, done: &Done<'_>, is_whole: bool) -> Result<(), AllocError> {
        let manner = self.manner;
        for digest in self.digests.iter_mut() {
            if digits.is_empty() || digest.digits.as_str() == digits {
                digest.histories = manner.behind(digest, done, is_whole)?;
            }
        }
        Ok(())
    }

    /// All that was written is flushed.
    pub fn flush(&mut self) -> Result<(), AllocError> {
        for digest in self.digests.iter_mut() {
            let mut flushed = Vec::new(self.alloc);
            for history in &digest.histories {
                history.add_flushed(self.alloc, &mut flushed)?;
            }
            digest.histories = flushed;
        }
        Ok(())
    }

    /// A crash came, or a restart: what a start may make of it is known.
    pub fn cut(&mut self) -> Result<(), AllocError> {
        for digest in self.digests.iter_mut() {
            let mut fronts = Vec::new(self.alloc);
            for history in &digest.histories {
                history.add_fronts(self.alloc, &mut fronts)?;
            }
            digest.histories = fronts;
        }
        self.manner.raids = false;
        Ok(())
    }

    /// Goes on by a line; where it isn't over yet, what it wrote needn't be flushed.
    pub fn go_on(&mut self, done: &Done<'_>, is_whole: bool) -> Result<(), AllocError> {
        let (word, rest) = split(done.line);
        let is_well = done.reply.starts_with("ok ");
        match word {
            "put" | "bury" | "del" => {
                let (digits, _words) = split(rest);
                self.learn(digits)?;
                self.change(digits, done, is_whole)
            }
            "expire" | "part" => self.change("", done, is_whole),
            "raid" | "turns" | "beside" => {
                self.manner.raids = true;
                Ok(())
            }
            "flush" => {
                if is_well && is_whole {
                    self.flush()?;
                }
                Ok(())
            }
            "restart" if is_well => self.cut(),
            _ => Ok(()),
        }
    }

    // Whether a history shows this to a get or a meta.
    fn shows(
        &self,
        history: &History,
        word: &str,
        reply: &str,
        now: u64,
    ) -> Result<bool, AllocError> {
        let Some(write) = history.seen(now) else {
            return Ok(reply == "none");
        };
        let shown = self.shown(write, word)?;
        Ok(shown.as_str() == reply)
    }

    fn shown(&self, write: &Write, word: &str) -> Result<String, AllocError> {
        if word == "get" {
            shown_by_get(self.alloc, write)
        } else {
            shown_by_meta(self.alloc, write)
        }
    }

    /// Whether some history of its digest shows to a `get` or a `meta` what was replied.
    pub fn allows(&self, done: &Done<'_>) -> Result<bool, AllocError> {
        let (word, digits) = split(done.line);
        let mut is_known = false;
        for digest in &self.digests {
            if digest.digits.as_str() == digits {
                is_known = true;
                for history in &digest.histories {
                    if self.shows(history, word, done.reply, done.now)? {
                        return Ok(true);
                    }
                }
            }
        }
        Ok(!is_known && done.reply == "none")
    }
}

/// The number of moments that the disk had had when the line behind this one began, or in the end.
fn end_of(lines: &[Done<'_>], at: usize, end: u64) -> u64 {
    match lines.get(at.saturating_add(1)) {
        Some(next) => next.begun,
        None => end,
    }
}

/// Lines behind what was known, how many moments the disk had had in the end, and whether all was flushed then.
#[derive(Clone, Copy)]
pub struct Course<'t> {
    pub before: &'t Known,
    pub lines: &'t [Done<'t>],
    pub end: u64,
    pub is_closed: bool,
}

/// What is known where a crash came at a moment: behind the lines that were over by then, and where one wasn't, also behind that one, whole
/// or not.
pub fn known_at(course: Course<'_>, moment: u64) -> Result<Vec<Known>, AllocError> {
    let Course {
        before,
        lines,
        end,
        is_closed,
    } = course;
    let mut known = before.copy()?;
    let mut all = Vec::new(before.alloc);
    let mut at = 0_usize;
    for done in lines {
        let over = end_of(lines, at, end);
        at = at.saturating_add(1);
        if moment < done.begun {
            break;
        }
        if moment.saturating_add(1) < over {
            let mut begun = known.copy()?;
            begun.go_on(done, false)?;
            begun.cut()?;
            let mut whole = known.copy()?;
            whole.go_on(done, true)?;
            whole.cut()?;
            all.push(begun)?;
            all.push(whole)?;
            break;
        }
        known.go_on(done, true)?;
    }
    if is_closed && end <= moment.saturating_add(1) {
        known.flush()?;
    }
    known.cut()?;
    all.push(known)?;
    Ok(all)
}

/// What is known behind all of it.
pub fn known_behind(course: Course<'_>) -> Result<Known, AllocError> {
    let mut known = course.before.copy()?;
    for done in course.lines {
        known.go_on(done, true)?;
    }
    if course.is_closed {
        known.flush()?;
    }
    known.cut()?;
    Ok(known)
}

/// Whether a crash at a moment allows what a `get` or a `meta` shows behind a start.
pub fn allows_at(known: &[Known], shown: &Done<'_>) -> Result<bool, AllocError> {
    for one in known {
        if one.allows(shown)? {
            return Ok(true);
        }
    }
    Ok(false)
}

/// Whether these words of a start turn commit on.
pub fn commits(words: &[String]) -> bool {
    let mut is_asked = false;
    let mut is_on = false;
    for word in words {
        if is_asked {
            is_on = word.as_str() == "yes";
        }
        is_asked = word.as_str() == "--commit";
    }
    is_on
}
