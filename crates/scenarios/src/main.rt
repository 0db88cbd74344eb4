//! Worked examples: files of scenarios are played over disks in memory, and told whether all came out as written.
#![tactic(auto)]

mod link;
mod served;
mod terminal;

use crate::served::start;
use disk_model::MemDisk;
use node_words::read_words;
use scenario_device::serve_device;
use scenario_play::{Around, Ending, Notes, Program, play_text};
use scenario_text::{Report, Trouble};
use std::alloc::Global;
use std::env::args;
use std::fs;
use std::process::ExitCode;

// The program that ships; and, by the word `device`, the calls of one device.
struct Hemwaziq;

// The calls of one device.
fn call_device(
    alloc: Global,
    words: &[String],
    mut disks: Vec<MemDisk>,
    around: &Around,
) -> Result<Ending, Trouble> {
    let notes = Notes::new(alloc, &disks)?;
    let Some(disk) = disks.pop() else {
        return Err(Trouble::Line("which device?"));
    };
    let (disk, text) = serve_device(alloc, words, disk, &notes, &around.input)?;
    disks.push(disk)?;
    Ok(Ending {
        end: String::from_str(alloc, "= 0")?,
        text,
        disks,
        begun: notes.into_begun(),
    })
}

fn is_device(words: &[String]) -> bool {
    match words.first() {
        Some(first) => first.as_str() == "device",
        None => false,
    }
}

impl Program for Hemwaziq {
    fn start(
        &self,
        alloc: Global,
        words: &[String],
        disks: Vec<MemDisk>,
        around: &Around,
    ) -> Result<Ending, Trouble> {
        if is_device(words) {
            call_device(alloc, words, disks, around)
        } else {
            start(alloc, words, disks, around)
        }
    }

    fn names<'w>(&self, words: &'w [String]) -> &'w [String] {
        match (read_words(words), words) {
            (Some(request), _) => request.names,
            (None, [first, .., last]) if first.as_str() == "device" => std::slice::from_ref(last),
            _ => &[],
        }
    }
}

// Plays the file of this name, and prints a line for each of its scenarios.
fn play_file(rt: &HostRuntime, name: &str, report: &mut Report) -> Result<(), Trouble> {
    let Ok(text) = fs::read_to_string(rt, name) else {
        return Err(Trouble::Line("the file can't be read"));
    };
    play_text(rt.alloc(), &Hemwaziq, name, text.as_str(), report)
}

fn play_all(rt: &HostRuntime, report: &mut Report) -> Result<(), Trouble> {
    let Ok(names) = args(rt) else {
        return Err(Trouble::Line("the words can't be read"));
    };
    for name in names.skip(1) {
        play_file(rt, name.as_str(), report)?;
    }
    Ok(())
}

fn main(rt: HostRuntime) -> ExitCode {
    let mut report = Report::new(rt.alloc());
    let played = play_all(&rt, &mut report);
    let printed = print!(rt; "{}", report.as_str());
    if let Err(trouble) = &played {
        let _ = println!(rt; "stopped: {}", trouble.words());
    }
    if played.is_ok() && printed.is_ok() {
        ExitCode::SUCCESS
    } else {
        ExitCode::FAILURE
    }
}
