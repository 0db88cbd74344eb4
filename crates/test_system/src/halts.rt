// A halt, by a descriptor whose other end is closed.
use io_halt::{Halt, HaltingSource};
use io_traits::{Source, SourceFault, TextSource};
use std::alloc::Global;
use std::io::Write;
use std::os::fd::{AsRawFd, RawFd};
use std::os::unix::net::UnixStream;
use std::test::Fail;

// A number that no descriptor of a test has.
const NOT_OPEN: RawFd = 1_000;

// A source of three bytes, of which the first read fails, that is waited for by a descriptor.
fn source_of(
    alloc: Global,
    descriptor: RawFd,
    halt: Halt,
) -> Result<HaltingSource<TextSource>, Fail> {
    let bytes = Vec::from_array(alloc, *b"abc")?;
    let fails = Vec::from_array(alloc, [0u64])?;
    Ok(HaltingSource::new(TextSource::new(bytes, fails), descriptor, halt))
}

// Two reads, each of two bytes at most: a fault, and then the front of the bytes.
const READ_ON: [Result<usize, SourceFault>; 2] = [Err(SourceFault), Ok(2)];

fn read_twice<S: Source>(source: &mut S) -> [Result<usize, SourceFault>; 2] {
    let mut out = [0; 2];
    [source.read_some(&mut out), source.read_some(&mut out)]
}

#[test]
fn a_closed_end_halts_a_source_for_good(rt: HostRuntime) -> Result<(), Fail> {
    let (input, mut writer) = UnixStream::pair(&rt)?;
    let (end, other_end) = UnixStream::pair(&rt)?;
    let mut source = source_of(rt.alloc(), input.as_raw_fd(), Halt::by(end.as_raw_fd()))?;
    writer.write_all(b"abc")?;
    assert_eq!(rt; read_twice(&mut source), READ_ON);
    drop(other_end);
    assert_eq!(rt; read_twice(&mut source), [Ok(0), Ok(0)]);
    Ok(())
}

#[test]
fn a_halt_comes_while_nothing_is_to_be_had(rt: HostRuntime) -> Result<(), Fail> {
    let (input, _writer) = UnixStream::pair(&rt)?;
    let (end, other_end) = UnixStream::pair(&rt)?;
    let mut source = source_of(rt.alloc(), input.as_raw_fd(), Halt::by(end.as_raw_fd()))?;
    drop(other_end);
    assert_eq!(rt; read_twice(&mut source), [Ok(0), Ok(0)]);
    Ok(())
}

#[test]
fn without_a_halt_a_source_is_read_as_ever(rt: HostRuntime) -> Result<(), Fail> {
    let (input, _writer) = UnixStream::pair(&rt)?;
    for halt in [Halt::never(), Halt::by(NOT_OPEN), Halt::by(-1)] {
        let mut source = source_of(rt.alloc(), input.as_raw_fd(), halt)?;
        assert_eq!(rt; read_twice(&mut source), READ_ON);
    }
    Ok(())
}
