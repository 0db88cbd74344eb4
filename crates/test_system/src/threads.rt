// What may go to another thread beside the line of the progress, which threads may share.
use disk_model::{Disk, MemDisk};
use io_traits::{Clock, ListClock, Source, TextSource};
use node_progress::{Cleared, CountedClock, Progress, Watched};
use std::process::Abort;
use std::test::Fail;

fn check_sent<D: Disk + Send, L: Source + Send, C: Clock + Send>(
    rt: &impl Abort,
    disk: &mut D,
    link: &mut L,
    clock: &mut C,
) {
    assert_eq!(rt; disk.sync(), Ok(()));
    assert_eq!(rt; link.read_some(&mut [0; 1]), Ok(0));
    assert_eq!(rt; clock.now_ms(), 5);
}

#[test]
fn threads_may_share_the_line_of_standard_error(rt: HostRuntime) -> Result<(), Fail> {
    let alloc = rt.alloc();
    let progress = Progress::new(rt.stderr());
    let clock = ListClock::new([5].to_vec(alloc)?);
    check_sent(
        &rt,
        &mut Watched::new(MemDisk::new(alloc, 1)?, &progress),
        &mut Cleared::new(TextSource::new(Vec::new(alloc), Vec::new(alloc)), &progress),
        &mut CountedClock::new(clock, &progress, Some(1)),
    );
    progress.end();
    Ok(())
}
