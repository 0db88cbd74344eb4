// An expirer, turn by turn.
ghost use Rattle.std.specs.Prelude.{◌≡◌, ◌≤◌, ◌^◌, IfOk, vec_len};
ghost use Rattle.live_chores.specs.Expires.{expirer};
ghost use Rattle.test_chores.specs.Trials.{IsHired, IsGiven};

use crate::tests::devices::{
    FALLING, MIDDLE, RISING, bury, counts, ended, opened, put, rejoined, share,
};
use disk_model::MemDisk;
use live_chores::ExpireChore;
use live_node::{Live, LivePass};
use node_workers::{Chore, Did};
use std::alloc::{AllocError, Global};
use std::sync::Wait;
use std::test::Fail;

fn hired<'a, R>(
    rt: &'a R,
    live: &'a Live<MemDisk>,
    pass: LivePass<MemDisk>,
) -> ExpireChore<'a, R, MemDisk>
    requires given { IsGiven live.now pass }
    ensures hired { IsHired live.now (expirer result) }
{
    ExpireChore::new(rt, live, pass)
}

fn turn<'a, R: Wait>(
    alloc: Global,
    live: &Live<MemDisk>,
    chore: &mut ExpireChore<'a, R, MemDisk>,
) -> Did
    requires hired { IsHired live.now (expirer chore.old) }
    ensures hired { IsHired live.now (expirer chore.new) }
{
    chore.turn(alloc, 5000)
}

fn given<'a, R>(live: &Live<MemDisk>, chore: ExpireChore<'a, R, MemDisk>) -> LivePass<MemDisk>
    requires hired { IsHired live.now (expirer chore) }
    ensures given { IsGiven live.now result }
{
    chore.into_pass()
}

// Takes so many turns. Says whether each was idle.
fn are_idle<'a, R: Wait>(
    alloc: Global,
    live: &Live<MemDisk>,
    chore: &mut ExpireChore<'a, R, MemDisk>,
    turns: u32,
) -> bool
    requires hired { IsHired live.now (expirer chore.old) }
    ensures hired { IsHired live.now (expirer chore.new) }
{
    let mut idle = true;
    for _ in 0..turns {
        let did = turn(alloc, live, chore);
        idle = idle && did == Did::Idle;
    }
    idle
}

// The device has 4,096 parts, of which two are looked at in a turn. Part 256 has an expired entry, to which it comes behind 128 turns; and so has
// part 531, to which it comes behind 137 more and a look.
#[test]
fn an_expirer_goes_from_part_to_part(rt: HostRuntime) -> Result<(), Fail> {
    let alloc = rt.alloc();
    let (live, mut pass) = opened(alloc)?;
    let mut chore = hired(&rt, &live, share(&live, &mut pass));
    let one = put(alloc, &rt, &live, &mut pass, &RISING, 1, b"one");
    let two = put(alloc, &rt, &live, &mut pass, &FALLING, 1, b"two");
    let first = are_idle(alloc, &live, &mut chore, 128);
    let second = turn(alloc, &live, &mut chore);
    let left = counts(&rt, &live, &mut pass);
    let third = are_idle(alloc, &live, &mut chore, 137);
    let fourth = turn(alloc, &live, &mut chore);
    let none = counts(&rt, &live, &mut pass);
    rejoined(&live, &mut pass, given(&live, chore));
    ended(live, pass);
    assert!(rt; one && two);
    assert_eq!(rt; (first, second), (true, Did::Worked));
    assert_eq!(rt; left.records, 1);
    assert_eq!(rt; (third, fourth), (true, Did::Worked));
    assert_eq!(rt; none.records, 0);
    Ok(())
}

// Nothing is expired in 4,096 parts: 2,048 turns end at the last, and the next begins with the first again.
#[test]
fn behind_the_last_part_comes_the_first(rt: HostRuntime) -> Result<(), Fail> {
    let alloc = rt.alloc();
    let (live, mut pass) = opened(alloc)?;
    let mut chore = hired(&rt, &live, share(&live, &mut pass));
    let idle = are_idle(alloc, &live, &mut chore, 2048);
    let one = put(alloc, &rt, &live, &mut pass, &RISING, 1, b"one");
    let first = are_idle(alloc, &live, &mut chore, 128);
    let second = turn(alloc, &live, &mut chore);
    rejoined(&live, &mut pass, given(&live, chore));
    ended(live, pass);
    assert!(rt; one && idle);
    assert_eq!(rt; (first, second), (true, Did::Worked));
    Ok(())
}

// A payload that fills a block.
fn whole(alloc: Global) -> Result<Vec<u8>, AllocError>
    ensures { IfOk result (λ v. vec_len v ≡ 12208) }
{
    vec![in alloc; 7u8; 12208]
}

// Four buffers wait and have no room, so that no tombstone finds any. The expired entry of part 256 wants one, since an older tombstone is covered by
// it: the turn that comes to it is refused, and those behind it come to the entry of part 531, which wants none.
#[test]
fn a_refused_entry_holds_up_no_other_part(rt: HostRuntime) -> Result<(), Fail> {
    let alloc = rt.alloc();
    let payload = whole(alloc)?;
    let (live, mut pass) = opened(alloc)?;
    let mut chore = hired(&rt, &live, share(&live, &mut pass));
    let buried = bury(alloc, &rt, &live, &mut pass, &RISING);
    let one = put(alloc, &rt, &live, &mut pass, &RISING, 1, b"one");
    let two = put(alloc, &rt, &live, &mut pass, &FALLING, 1, b"two");
    let full = put(alloc, &rt, &live, &mut pass, &MIDDLE, 0, payload.as_slice());
    let fuller = put(alloc, &rt, &live, &mut pass, &MIDDLE, 0, payload.as_slice());
    let fullest = put(alloc, &rt, &live, &mut pass, &MIDDLE, 0, payload.as_slice());
    let first = are_idle(alloc, &live, &mut chore, 128);
    let second = turn(alloc, &live, &mut chore);
    let third = are_idle(alloc, &live, &mut chore, 137);
    let fourth = turn(alloc, &live, &mut chore);
    let left = counts(&rt, &live, &mut pass);
    rejoined(&live, &mut pass, given(&live, chore));
    ended(live, pass);
    assert!(rt; buried && one && two && full && fuller && fullest);
    assert_eq!(rt; (first, second), (true, Did::Refused));
    assert_eq!(rt; (third, fourth), (true, Did::Worked));
    assert!(rt; left.records == 2 && left.covered == 1);
    Ok(())
}
