// The line that tells how far work is, where no scenario comes: while a file is made, to what is no terminal, of no work or more than all of
// it, and beside a clock's fork; and that lines are served.
use disk_file::{SystemDevices, make_device};
use disk_model::Disk;
use io_traits::{Clock, ListClock};
use node_progress::{CountedClock, Progress};
use std::alloc::Global;
use std::cell::RefCell;
use std::fmt::Display;
use std::io::{ErrorKind, IsTerminal};
use std::process::Abort;
use std::test::Fail;
use std::{fs, io};

// A stream that keeps what it was sent.
#[derive(Drop)]
struct Stream<'a> {
    is_terminal: bool,
    alloc: Global,
    sent: &'a RefCell<String>,
}

impl<'a> IsTerminal for Stream<'a> {
    fn is_terminal(&self) -> bool {
        self.is_terminal
    }
}

impl<'a> Eprint for Stream<'a> {
    fn eprint<D: Display + Drop>(&self, value: D) -> io::Result<()> {
        let Ok(text) = value.to_string(self.alloc) else {
            return Err(ErrorKind::OutOfMemory.into());
        };
        let Ok(mut sent) = self.sent.try_borrow_mut() else {
            return Err(ErrorKind::WouldBlock.into());
        };
        if sent.push_str(text.as_str()).is_err() {
            return Err(ErrorKind::OutOfMemory.into());
        }
        Ok(())
    }

    fn eprintln<D: Display + Drop>(&self, value: D) -> io::Result<()> {
        self.eprint(value)
    }
}

fn stream_of(alloc: Global, is_terminal: bool, sent: &RefCell<String>) -> Stream<'_> {
    Stream {
        is_terminal,
        alloc,
        sent,
    }
}

// What was sent is just this.
fn check_sent(rt: &impl Abort, sent: &RefCell<String>, wanted: &str) -> Result<(), Fail> {
    let sent = sent.try_borrow()?;
    assert_eq!(rt; sent.as_str(), wanted);
    Ok(())
}

#[test]
fn nothing_is_told_where_there_is_no_terminal(rt: HostRuntime) -> Result<(), Fail> {
    let alloc = rt.alloc();
    let sent = RefCell::new(String::new(alloc));
    let progress = Progress::new(stream_of(alloc, false, &sent));
    progress.tell("serving", 1, 2);
    progress.end();
    check_sent(&rt, &sent, "")
}

#[test]
fn no_more_than_all_is_told(rt: HostRuntime) -> Result<(), Fail> {
    let alloc = rt.alloc();
    let sent = RefCell::new(String::new(alloc));
    let progress = Progress::new(stream_of(alloc, true, &sent));
    progress.tell("reading", 0, 0);
    progress.tell("reading", 1, 1_000);
    progress.tell("writing", 1, 1_000);
    progress.tell("writing", 2_000, 1_000);
    progress.tell("writing", 1_000, 1_000);
    check_sent(
        &rt,
        &sent,
        "\rreading    0 %\rwriting    0 %\rwriting  100 %",
    )
}

// What is sent where a run is ready twice, of which a greeting was asked or not.
fn check_ready(
    rt: &impl Abort,
    alloc: Global,
    is_terminal: bool,
    greets: bool,
    wanted: &str,
) -> Result<(), Fail> {
    let sent = RefCell::new(String::new(alloc));
    let progress = Progress::new(stream_of(alloc, is_terminal, &sent));
    if greets {
        progress.greet();
    }
    progress.ready();
    progress.ready();
    check_sent(rt, &sent, wanted)
}

#[test]
fn ready_is_told_once_where_it_is_asked_for(rt: HostRuntime) -> Result<(), Fail> {
    let alloc = rt.alloc();
    let told = "ready: one command a line; quit or Ctrl-D ends the run\n";
    check_ready(&rt, alloc, true, true, told)?;
    check_ready(&rt, alloc, true, false, "")?;
    check_ready(&rt, alloc, false, true, "")
}

#[test]
fn a_clock_s_fork_tells_nothing(rt: HostRuntime) -> Result<(), Fail> {
    let alloc = rt.alloc();
    let sent = RefCell::new(String::new(alloc));
    let progress = Progress::new(stream_of(alloc, true, &sent));
    let clock = ListClock::new([5, 9].to_vec(alloc)?);
    let mut fork = CountedClock::new(clock, &progress, Some(4)).fork(alloc)?;
    assert_eq!(rt; (fork.now_ms(), fork.now_ms()), (5, 9));
    assert!(rt; !progress.has_begun());
    check_sent(&rt, &sent, "")
}

// The length of a file of two pieces, of whose making this tells.
fn length_of_made<E: Eprint + IsTerminal + Drop>(
    rt: &HostRuntime,
    progress: &Progress<E>,
) -> Result<u64, Fail> {
    let name = "test_system_made";
    let _ = fs::remove_file(rt, name);
    let mut devices = SystemDevices::new(rt);
    let made = make_device(
        &mut devices,
        rt.alloc(),
        name,
        2 << 20,
        &mut progress.making(),
    )?;
    let len = made.len();
    fs::remove_file(rt, name)?;
    Ok(len)
}

#[test]
fn a_new_file_is_told_and_cleared(rt: HostRuntime) -> Result<(), Fail> {
    let alloc = rt.alloc();
    let sent = RefCell::new(String::new(alloc));
    let progress = Progress::new(stream_of(alloc, true, &sent));
    assert_eq!(rt; length_of_made(&rt, &progress)?, 2 << 20);
    check_sent(
        &rt,
        &sent,
        "\rmaking    50 %\rmaking   100 %\r                    \r",
    )
}
