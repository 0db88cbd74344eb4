// Streams in memory, as a source and a sink over them tell what their calls came to.
use io_traits::{
    InputStream, OutputStream, Sink, SinkFault, Source, SourceFault, StandardInput, StandardOutput,
    TextInput, TextOutput, TextSink, TextSource,
};
use std::process::Abort;
use std::test::Fail;

// The first read of the stream fails, the second gives two bytes, and the third is at the end.
fn reads_once_each<S: InputStream>(rt: &impl Abort, stream: S) {
    let mut input = StandardInput::new(stream);
    let mut out = [0; 4];
    assert_eq!(rt; input.read_some(&mut out), Err(SourceFault));
    assert_eq!(rt; input.read_some(&mut out), Ok(2));
    assert_eq!(rt; out, *b"ab\0\0");
    assert_eq!(rt; input.read_some(&mut out), Ok(0));
}

#[test]
fn a_read_that_failed_is_told_and_not_made_again(rt: HostRuntime) -> Result<(), Fail> {
    let source = TextSource::new(
        b"ab".as_slice().to_vec(rt.alloc())?,
        vec![in rt.alloc(); 0]?,
    );
    reads_once_each(&rt, TextInput::new(source));
    Ok(())
}

// The first write of the stream goes well, and the second fails.
fn writes_once_each<S: OutputStream>(rt: &impl Abort, stream: S) {
    let mut output = StandardOutput::new(stream);
    assert_eq!(rt; output.write_some(b"ab"), Ok(2));
    assert_eq!(rt; output.write_some(b"cd"), Err(SinkFault));
    assert_eq!(rt; output.flush(), Ok(()));
}

#[test]
fn a_write_that_failed_is_told_and_not_made_again(rt: HostRuntime) -> Result<(), Fail> {
    let sink = TextSink::new(rt.alloc(), vec![in rt.alloc(); 1]?);
    writes_once_each(&rt, TextOutput::new(sink));
    Ok(())
}
