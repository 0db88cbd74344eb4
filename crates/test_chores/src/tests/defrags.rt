// A defragmenter, turn by turn.
ghost use Rattle.std.specs.Prelude.{◌≡◌, ◌≤◌, ◌^◌, vec_capacity};
ghost use Rattle.live_node.specs.Lives.{opening_at};
ghost use Rattle.live_node.specs.Vacates.{HasListRoom};
ghost use Rattle.live_chores.specs.Defrags.{defragger};
ghost use Rattle.test_chores.specs.Trials.{IsHired, IsGiven, IsAlone, IsBeside};

use crate::tests::devices::{
    FALLING, MIDDLE, RISING, counts, delete, ended, flush, opened, put, rejoined, share,
};
use disk_model::MemDisk;
use live_chores::DefragChore;
use live_node::{Live, LivePass};
use node_workers::{Chore, Did};
use rec_format::Digest;
use std::alloc::Global;
use std::sync::Wait;
use std::test::Fail;

fn hired<'a, R>(
    rt: &'a R,
    live: &'a Live<MemDisk>,
    pass: LivePass<MemDisk>,
    list: Vec<Digest>,
) -> DefragChore<'a, R, MemDisk>
    requires given { IsGiven live.now pass }
    requires room { HasListRoom (opening_at live.now) (vec_capacity list) }
    ensures hired { IsHired live.now (defragger result) }
{
    DefragChore::new(rt, live, pass, list)
}

fn turn<'a, R: Wait>(
    alloc: Global,
    live: &Live<MemDisk>,
    chore: &mut DefragChore<'a, R, MemDisk>,
) -> Did
    requires hired { IsHired live.now (defragger chore.old) }
    ensures hired { IsHired live.now (defragger chore.new) }
{
    chore.turn(alloc, 1000)
}

fn given<'a, R>(live: &Live<MemDisk>, chore: DefragChore<'a, R, MemDisk>) -> LivePass<MemDisk>
    requires hired { IsHired live.now (defragger chore) }
    ensures given { IsGiven live.now result }
{
    chore.into_pass()
}

// Puts two records into one block, and flushes it.
fn fill<R: Wait>(alloc: Global, rt: &R, live: &Live<MemDisk>, pass: &mut LivePass<MemDisk>) -> bool
    requires beside { IsBeside live.now pass.old }
    requires alone { IsAlone live.now }
    ensures beside { IsBeside live.now pass.new }
{
    let one = put(alloc, rt, live, pass, &RISING, 0, b"one");
    let two = put(alloc, rt, live, pass, &FALLING, 0, b"two");
    let flushed = flush(rt, live, pass);
    one && two && flushed
}

// One queued block alone gains nothing. Two do: the first has two records, of which one is deleted before it is moved, the second one.
#[test]
fn a_queued_block_is_emptied_turn_by_turn(rt: HostRuntime) -> Result<(), Fail> {
    let alloc = rt.alloc();
    let (live, mut pass) = opened(alloc)?;
    let list = match live.digest_list(alloc) {
        Ok(list) => list,
        Err(_) => {
            ended(live, pass);
            return Err(Fail::new("memory"));
        }
    };
    let mut chore = hired(&rt, &live, share(&live, &mut pass), list);
    let filled = fill(alloc, &rt, &live, &mut pass);
    let alone = turn(alloc, &live, &mut chore);
    let three = put(alloc, &rt, &live, &mut pass, &MIDDLE, 0, b"three");
    let again = flush(&rt, &live, &mut pass);
    let chosen = turn(alloc, &live, &mut chore);
    let gone = delete(alloc, &rt, &live, &mut pass, &FALLING);
    let moves = (
        turn(alloc, &live, &mut chore),
        turn(alloc, &live, &mut chore),
    );
    let other = turn(alloc, &live, &mut chore);
    let last = turn(alloc, &live, &mut chore);
    let nothing = turn(alloc, &live, &mut chore);
    let counts = counts(&rt, &live, &mut pass);
    rejoined(&live, &mut pass, given(&live, chore));
    ended(live, pass);
    assert!(rt; filled && three && again && gone);
    assert_eq!(rt; (alone, chosen), (Did::Idle, Did::Worked));
    assert_eq!(rt; moves, (Did::Worked, Did::Worked));
    assert_eq!(rt; (other, last), (Did::Worked, Did::Worked));
    assert_eq!(rt; nothing, Did::Idle);
    assert!(rt; counts.records == 2 && counts.queued == 0);
    Ok(())
}
