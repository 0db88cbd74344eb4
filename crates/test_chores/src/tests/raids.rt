// A tomb raider, turn by turn.
ghost use Rattle.std.specs.Prelude.{◌≡◌, ◌≤◌, ◌^◌};
ghost use Rattle.live_chores.specs.Raids.{raider};
ghost use Rattle.test_chores.specs.Trials.{IsHired, IsGiven};

use crate::tests::devices::{RISING, bury, counts, ended, flush, opened, put, rejoined, share};
use disk_model::MemDisk;
use live_chores::RaidChore;
use live_node::{Live, LivePass};
use node_workers::{Chore, Did};
use std::alloc::Global;
use std::sync::Wait;
use std::test::Fail;

// It rests for 10 seconds behind a raid.
fn hired<'a, R>(
    rt: &'a R,
    live: &'a Live<MemDisk>,
    pass: LivePass<MemDisk>,
) -> RaidChore<'a, R, MemDisk>
    requires given { IsGiven live.now pass }
    ensures hired { IsHired live.now (raider result) }
{
    RaidChore::new(rt, live, pass)
}

fn turn<'a, R: Wait>(
    alloc: Global,
    live: &Live<MemDisk>,
    chore: &mut RaidChore<'a, R, MemDisk>,
    now: u64,
) -> Did
    requires hired { IsHired live.now (raider chore.old) }
    requires now { now ≤ 2 ^ 61 }
    ensures hired { IsHired live.now (raider chore.new) }
{
    chore.turn(alloc, now)
}

fn given<'a, R>(live: &Live<MemDisk>, chore: RaidChore<'a, R, MemDisk>) -> LivePass<MemDisk>
    requires hired { IsHired live.now (raider chore) }
    ensures given { IsGiven live.now result }
{
    chore.into_pass()
}

// Takes turns at 12,000 milliseconds until one does nothing, and tells what came of that. Of a raid over 4,096 parts and 8 blocks there are fewer than
// 10,000 turns, where it finds one copy: each part is marked and ends, each block is scanned, the copy is compared.
fn raided<'a, R: Wait>(
    alloc: Global,
    live: &Live<MemDisk>,
    chore: &mut RaidChore<'a, R, MemDisk>,
) -> Did
    requires hired { IsHired live.now (raider chore.old) }
    ensures hired { IsHired live.now (raider chore.new) }
{
    for _ in 0..10_000u32 {
        let did = turn(alloc, live, chore, 12_000);
        if did != Did::Worked {
            return did;
        }
    }
    Did::Worked
}

// There is nothing to raid at first. The tombstone is 11 seconds old and has no older copy, and goes; then there is nothing again.
#[test]
fn a_tombstone_without_an_older_copy_goes(rt: HostRuntime) -> Result<(), Fail> {
    let alloc = rt.alloc();
    let (live, mut pass) = opened(alloc)?;
    let mut chore = hired(&rt, &live, share(&live, &mut pass));
    let nothing = turn(alloc, &live, &mut chore, 1000);
    let buried = bury(alloc, &rt, &live, &mut pass, &RISING);
    let before = counts(&rt, &live, &mut pass);
    let begun = turn(alloc, &live, &mut chore, 12_000);
    let over = raided(alloc, &live, &mut chore);
    let after = counts(&rt, &live, &mut pass);
    let late = turn(alloc, &live, &mut chore, 22_000);
    rejoined(&live, &mut pass, given(&live, chore));
    ended(live, pass);
    assert!(rt; buried);
    assert_eq!(rt; (nothing, begun, over), (Did::Idle, Did::Worked, Did::Idle));
    assert_eq!(rt; (before.tombstones, after.tombstones), (1, 0));
    assert_eq!(rt; late, Did::Idle);
    Ok(())
}

// The older copy is on the disk, so that its tombstone stays. Though it is there, no second raid begins within 10 seconds.
#[test]
fn a_tombstone_over_an_older_copy_stays_and_the_raider_rests(rt: HostRuntime) -> Result<(), Fail> {
    let alloc = rt.alloc();
    let (live, mut pass) = opened(alloc)?;
    let mut chore = hired(&rt, &live, share(&live, &mut pass));
    let one = put(alloc, &rt, &live, &mut pass, &RISING, 0, b"one");
    let flushed = flush(&rt, &live, &mut pass);
    let buried = bury(alloc, &rt, &live, &mut pass, &RISING);
    let over = raided(alloc, &live, &mut chore);
    let after = counts(&rt, &live, &mut pass);
    let rests = turn(alloc, &live, &mut chore, 21_999);
    let begins = turn(alloc, &live, &mut chore, 22_000);
    rejoined(&live, &mut pass, given(&live, chore));
    ended(live, pass);
    assert!(rt; one && flushed && buried);
    assert_eq!(rt; over, Did::Idle);
    assert_eq!(rt; after.tombstones, 1);
    assert_eq!(rt; (rests, begins), (Did::Idle, Did::Worked));
    Ok(())
}
