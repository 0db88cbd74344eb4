// The machine's clock, and one that can't be read.
use io_traits::{Clock, SystemClock};
use std::cell::Cell;
use std::io;
use std::test::Fail;
use std::time::Duration;

// A clock that fails once it has given a time.
#[derive(Drop)]
struct Once {
    given: Cell<bool>,
}

impl std::rt::Clock for Once {
    fn monotonic(&self) -> io::Result<Duration> {
        Err(io::ErrorKind::Unsupported.into())
    }

    fn since_1970(&self) -> io::Result<Duration> {
        if self.given.replace(true) {
            return Err(io::ErrorKind::Unsupported.into());
        }
        Ok(Duration::from_millis(1234))
    }
}

#[test]
fn a_clock_that_cannot_be_read_stands_still(rt: HostRuntime) -> Result<(), Fail> {
    let once = Once {
        given: Cell::new(false),
    };
    let mut clock = SystemClock::new(&once);
    assert_eq!(rt; (clock.now_ms(), clock.now_ms()), (1234, 1234));
    let mut other = clock.fork(rt.alloc())?;
    assert_eq!(rt; other.now_ms(), 1234);
    Ok(())
}

// A clock that may go to another thread.
fn time_of<C: Clock + Send>(clock: &mut C) -> u64 {
    clock.now_ms()
}

#[test]
fn the_clock_of_the_machine_is_past_2020(rt: HostRuntime) -> Result<(), Fail> {
    let mut clock = SystemClock::new(&rt);
    let time = time_of(&mut clock);
    assert!(rt; time > 1_577_836_800_000 && time < 1 << 61);
    Ok(())
}
