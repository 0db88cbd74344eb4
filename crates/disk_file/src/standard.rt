// The standard streams at the start of a program.
use std::fs::{File, OpenOptions};
use std::io;
use std::os::fd::{AsRawFd, IntoRawFd};
use std::rt::Files;

/// Opens `/dev/null` in the place of each standard stream that the program was started without. It is to be called before anything
/// else is opened: a device would get the number of such a stream, and replies would be written over it.
pub fn fill_standard<R: Files<File = File>>(rt: &R) -> io::Result<()> {
    for _ in 0..3 {
        let null = OpenOptions::new()
            .read(true)
            .write(true)
            .open(rt, "/dev/null")?;
        if null.as_raw_fd() > 2 {
            break;
        }
        let _kept = null.into_raw_fd();
    }
    Ok(())
}
