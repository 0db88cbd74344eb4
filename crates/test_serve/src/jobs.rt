// Jobs of the program over disks, a link and a door in memory.
ghost use Rattle.std.specs.Prelude.{◌≡◌, List, ℕ, length, vec_len, map, string_bytes, IsTrue, IfSome};
ghost use Rattle.node_words.specs.Words.{Asks};
ghost use Rattle.node_words.specs.declared.job.Job.{Job};

use disk_model::{Disk, MemDisk};
use io_traits::{
    Both, Clock, Door, ListClock, ListDoor, Nudge, PlainNudge, Sink, Source, TextSink, TextSource,
};
use node_jobs::{Outcome, node_top};
use node_words::read_words;
use sprig_advice::Silent;
use std::alloc::{AllocError, Global};
use std::sync::Wait;
use std::test::Fail;
use std::thread::Threads;
use turn_table::Noted;

// A sector of the header, and 16 blocks of 16,384 bytes.
const DISK_BYTES: u64 = 4096 + 16 * 16_384;

// Whether the words name so many devices, or ask for nothing.
fn names_so_many(words: &[String], count: usize) -> bool
    ensures { IsTrue result → (job : Job) (names : List (List ℕ)) → Asks (map string_bytes words.now) job names → count ≡ length names }
{
    match read_words(words) {
        Some(request) => request.names.len() == count,
        None => true,
    }
}

// The disks, for these words; none where these name more of them, or fewer.
fn disks_for<D: Disk>(words: &[String], disks: Vec<D>) -> Option<Vec<D>>
    ensures { IfSome result (λ given. (job : Job) (names : List (List ℕ)) → Asks (map string_bytes words.now) job names → vec_len given ≡ length names) }
{
    if !names_so_many(words, disks.len()) {
        return None;
    }
    Some(disks)
}

// What comes of the words; none where these name more disks, or fewer.
fn carried_out<
    R: Threads + Wait + std::rt::Clock + Sync,
    D: Disk + Send,
    L: Source + Sink,
    C: Clock + Send,
    G: Door + Send,
    N: Nudge + Sync,
>(
    rt: &R,
    alloc: Global,
    words: &[String],
    disks: Vec<D>,
    link: &mut L,
    clock: &mut C,
    door: G,
    nudge: &N,
) -> Option<Outcome<D>> {
    let disks = disks_for(words, disks)?;
    // Of the images nothing is known.
    let sound = Noted::new();
    let (outcome, _door) = node_top(
        rt, alloc, words, &sound, disks, link, clock, door, nudge, &Silent,
    );
    Some(outcome)
}

// The words of a line.
fn words_of(alloc: Global, line: &str) -> Result<Vec<String>, AllocError> {
    let mut words = Vec::new(alloc);
    for word in line.split(' ') {
        words.push(String::from_str(alloc, word)?)?;
    }
    Ok(words)
}

// What comes of the words of a line at the time 1000, and what is written.
fn done<R: Threads + Wait + std::rt::Clock + Sync, G: Door + Send, N: Nudge + Sync>(
    rt: &R,
    alloc: Global,
    line: &str,
    disks: Vec<MemDisk>,
    input: &[u8],
    door: G,
    nudge: &N,
) -> Result<(Outcome<MemDisk>, Vec<u8>), Fail> {
    let words = words_of(alloc, line)?;
    let mut link = Both {
        source: TextSource::new(input.to_vec(alloc)?, Vec::new(alloc)),
        sink: TextSink::new(alloc, Vec::new(alloc)),
    };
    let mut clock = ListClock::new([1000].to_vec(alloc)?);
    let Some(outcome) = carried_out(rt, alloc, &words, disks, &mut link, &mut clock, door, nudge)
    else {
        return Err(Fail::new("there are more disks than names, or fewer"));
    };
    Ok((outcome, link.sink.written().to_vec(alloc)?))
}

/// What comes of a job that asks no door, as `run`, and what is written.
pub fn run<R: Threads + Wait + std::rt::Clock + Sync>(
    rt: &R,
    alloc: Global,
    line: &str,
    disks: Vec<MemDisk>,
    input: &[u8],
) -> Result<(Outcome<MemDisk>, Vec<u8>), Fail> {
    let door: ListDoor<Both<TextSource, TextSink>> = ListDoor::new(
        Vec::new(alloc),
        Vec::new(alloc),
    );
    done(rt, alloc, line, disks, input, door, &PlainNudge::new())
}

/// What comes of `serve` over these links, where the door's calls of these numbers fail.
pub fn serve<R: Threads + Wait + std::rt::Clock + Sync, L: Source + Sink + Send, N: Nudge + Sync>(
    rt: &R,
    alloc: Global,
    line: &str,
    disks: Vec<MemDisk>,
    links: Vec<L>,
    fails: Vec<u64>,
    nudge: &N,
) -> Result<Outcome<MemDisk>, Fail> {
    let (outcome, _text) = done(
        rt,
        alloc,
        line,
        disks,
        b"",
        ListDoor::new(links, fails),
        nudge,
    )?;
    Ok(outcome)
}

/// The disks of new devices with these names, each of 16 blocks of 16,384 bytes.
pub fn format<R: Threads + Wait + std::rt::Clock + Sync>(
    rt: &R,
    alloc: Global,
    names: &str,
) -> Result<Vec<MemDisk>, Fail> {
    let mut disks = Vec::new(alloc);
    for _ in names.split(' ') {
        disks.push(MemDisk::new(alloc, DISK_BYTES)?)?;
    }
    let line = format!(in alloc; "format --block-size 16384 --blocks 16 {names}")?;
    let (outcome, _text) = run(rt, alloc, line.as_str(), disks, b"")?;
    Ok(outcome.disks)
}
