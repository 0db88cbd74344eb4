// The standard output as a sink.
use io_traits::{Sink, StandardOutput, SystemOutput};
use std::test::Fail;

#[test]
fn the_standard_output_takes_what_it_is_given(rt: HostRuntime) -> Result<(), Fail> {
    let mut output = StandardOutput::new(SystemOutput::new(rt.stdout()));
    assert_eq!(rt; output.write_some(b""), Ok(0));
    assert_eq!(rt; output.write_some(b"a line\n"), Ok(7));
    assert_eq!(rt; output.flush(), Ok(()));
    Ok(())
}
