// The program over disks, a link and a clock in memory.
ghost use Rattle.std.specs.Prelude.{◌≡◌, List, ℕ, length, map, string_bytes, IsTrue};
ghost use Rattle.node_words.specs.Words.{Asks};
ghost use Rattle.node_words.specs.declared.job.Job.{Job};

use crate::link::Link;
use crate::terminal::Screen;
use disk_model::{Disk, MemDisk};
use io_traits::{Clock, ListClock, Sink, Source};
use node_gen::lines_of;
use node_jobs::{Outcome, job_alone};
use node_progress::{Cleared, CountedClock, Progress, Watched};
use node_words::{Job, read_words};
use scenario_play::{Around, Ending, Noted, NotedClock, Notes};
use scenario_text::Trouble;
use sprig_advice::{Silent, Teller};
use std::alloc::Global;
use std::io::IsTerminal;

// Whether the words name so many devices, or ask for nothing.
fn names_so_many(words: &[String], count: usize) -> bool
    ensures { IsTrue result → (job : Job) (names : List (List ℕ)) → Asks (map string_bytes words.now) job names → count ≡ length names }
{
    match read_words(words) {
        Some(request) => request.names.len() == count,
        None => true,
    }
}

// The program with these words; none where these name more disks, or fewer.
fn top<D: Disk, L: Source + Sink, C: Clock, T: Teller>(
    alloc: Global,
    words: &[String],
    disks: Vec<D>,
    link: &mut L,
    clock: &mut C,
    teller: &T,
) -> Option<Outcome<D>> {
    if !names_so_many(words, disks.len()) {
        return None;
    }
    let outcome = job_alone(alloc, words, disks, link, clock, teller);
    Some(outcome)
}

fn unnamed() -> Trouble {
    Trouble::Line("there are more disks than names, or fewer")
}

/// A clock that tells these times, the last of them for ever; where there are none, 1000.
fn clock_of(alloc: Global, times: &[u64]) -> Result<ListClock, Trouble> {
    let mut list = vec![in alloc; 1000]?;
    if let [first, rest @ ..] = times {
        list[0] = *first;
        list.extend_from_slice(rest)?;
    }
    Ok(ListClock::new(list))
}

/// How it ended, as a script says it.
pub fn end_of(alloc: Global, status: u8, note: &str) -> Result<String, Trouble> {
    if note.is_empty() {
        Ok(format!(in alloc; "= {status}")?)
    } else {
        Ok(format!(in alloc; "= {status} {note}")?)
    }
}

// The disks, whose moments are noted.
fn noted(
    alloc: Global,
    disks: Vec<MemDisk>,
    notes: &Notes,
) -> Result<Vec<Noted<'_, MemDisk>>, Trouble> {
    let mut all = Vec::new(alloc);
    let mut place = 0_usize;
    for disk in disks {
        all.push(Noted::new(disk, place, notes))?;
        place = place.saturating_add(1);
    }
    Ok(all)
}

// The disks without their notes.
fn plain(alloc: Global, disks: Vec<Noted<'_, MemDisk>>) -> Result<Vec<MemDisk>, Trouble> {
    let mut all = Vec::new(alloc);
    for disk in disks {
        all.push(disk.into_disk())?;
    }
    Ok(all)
}

// What came of a start: how it ended, and its disks.
#[derive(Drop)]
struct Came<D: Drop> {
    end: String,
    text: Vec<u8>,
    disks: Vec<D>,
}

// Where standard error is no terminal.
fn start_plainly<D: Disk, C: Clock>(
    alloc: Global,
    words: &[String],
    disks: Vec<D>,
    around: &Around,
    mut clock: C,
) -> Result<Came<D>, Trouble> {
    let mut link = Link::new(alloc, around)?;
    let Some(outcome) = top(alloc, words, disks, &mut link, &mut clock, &Silent) else {
        return Err(unnamed());
    };
    Ok(Came {
        end: end_of(alloc, outcome.status, outcome.note.as_str())?,
        text: link.into_shown(),
        disks: outcome.disks,
    })
}

// How many lines are served, where the words tell that.
fn lines_asked(words: &[String]) -> Option<u64> {
    match read_words(words)?.job {
        Job::Generate { count, .. } => Some(lines_of(count)),
        Job::Format(_) | Job::Run(_) | Job::Serve { .. } | Job::Check | Job::Audit => None,
    }
}

// The disks, which tell a terminal how far their calls are.
fn watched<'p, D: Disk, E: Eprint + IsTerminal + Drop>(
    alloc: Global,
    disks: Vec<D>,
    progress: &'p Progress<E>,
) -> Result<Vec<Watched<'p, D, E>>, Trouble> {
    let mut all = Vec::new(alloc);
    for disk in disks {
        all.push(Watched::new(disk, progress))?;
    }
    Ok(all)
}

// The disks without it.
fn unwatched<D: Disk, E: Eprint + IsTerminal + Drop>(
    alloc: Global,
    disks: Vec<Watched<'_, D, E>>,
) -> Result<Vec<D>, Trouble> {
    let mut all = Vec::new(alloc);
    for disk in disks {
        all.push(disk.into_disk())?;
    }
    Ok(all)
}

// Where standard error is a terminal, on which the progress is shown.
fn start_shown<D: Disk, C: Clock, E: Eprint + IsTerminal + Drop>(
    alloc: Global,
    words: &[String],
    disks: Vec<D>,
    around: &Around,
    clock: C,
    progress: &Progress<E>,
) -> Result<Came<D>, Trouble> {
    let mut clock = CountedClock::new(clock, progress, lines_asked(words));
    let mut link = Cleared::new(Link::new(alloc, around)?, progress);
    let disks = watched(alloc, disks, progress)?;
    let Some(outcome) = top(alloc, words, disks, &mut link, &mut clock, progress) else {
        return Err(unnamed());
    };
    progress.end();
    Ok(Came {
        end: end_of(alloc, outcome.status, outcome.note.as_str())?,
        text: link.into_link().into_shown(),
        disks: unwatched(alloc, outcome.disks)?,
    })
}

// So it is, and what the terminal showed stands behind what was written.
fn start_on_terminal<D: Disk, C: Clock>(
    alloc: Global,
    words: &[String],
    disks: Vec<D>,
    around: &Around,
    clock: C,
) -> Result<Came<D>, Trouble> {
    let screen = Screen::new(alloc);
    let progress = Progress::new(screen.stream());
    let mut came = start_shown(alloc, words, disks, around, clock, &progress)?;
    drop(progress);
    screen.tell(&mut came.text)?;
    Ok(came)
}

/// Starts the program with these words over these disks.
pub fn start(
    alloc: Global,
    words: &[String],
    disks: Vec<MemDisk>,
    around: &Around,
) -> Result<Ending, Trouble> {
    let notes = Notes::new(alloc, &disks)?;
    let disks = noted(alloc, disks, &notes)?;
    let clock = NotedClock::new(clock_of(alloc, &around.times)?, &notes);
    let Came { end, text, disks } = if around.has_terminal {
        start_on_terminal(alloc, words, disks, around, clock)?
    } else {
        start_plainly(alloc, words, disks, around, clock)?
    };
    let disks = plain(alloc, disks)?;
    Ok(Ending {
        end,
        text,
        disks,
        begun: notes.into_begun(),
    })
}
