// A flusher, turn by turn.
ghost use Rattle.std.specs.Prelude.{◌≡◌, ◌≤◌, ◌^◌, IfOk, vec_len};
ghost use Rattle.live_node.specs.Lives.{IsPassAt};
ghost use Rattle.live_chores.specs.Flushes.{flusher};
ghost use Rattle.test_chores.specs.Trials.{IsHired, IsGiven};

use crate::tests::devices::{RISING, counts, ended, opened, put, rejoined, share};
use disk_model::MemDisk;
use live_chores::FlushChore;
use live_node::{Live, LivePass};
use node_workers::{Chore, Did};
use std::alloc::{AllocError, Global};
use std::sync::Wait;
use std::test::Fail;

pub fn hired<'a, R>(
    rt: &'a R,
    live: &'a Live<MemDisk>,
    pass: LivePass<MemDisk>,
) -> FlushChore<'a, R, MemDisk>
    requires given { IsGiven live.now pass }
    ensures hired { IsHired live.now (flusher result) }
{
    FlushChore::new(rt, live, pass)
}

fn turn<'a, R: Wait>(
    alloc: Global,
    live: &Live<MemDisk>,
    chore: &mut FlushChore<'a, R, MemDisk>,
) -> Did
    requires hired { IsHired live.now (flusher chore.old) }
    ensures hired { IsHired live.now (flusher chore.new) }
{
    chore.turn(alloc, 2000)
}

pub fn given<'a, R>(live: &Live<MemDisk>, chore: FlushChore<'a, R, MemDisk>) -> LivePass<MemDisk>
    requires hired { IsHired live.now (flusher chore) }
    ensures given { IsGiven live.now result }
{
    chore.into_pass()
}

// A payload of more than half a block.
pub fn long(alloc: Global) -> Result<Vec<u8>, AllocError>
    ensures { IfOk result (λ v. vec_len v ≡ 9000) }
{
    vec![in alloc; 7u8; 9000]
}

// The second put of a record takes a second block, and so seals the first buffer; the block of that has no live units then, and 6 are free, so
// that the second buffer is due too.
#[test]
fn a_flusher_flushes_one_buffer_in_each_turn(rt: HostRuntime) -> Result<(), Fail> {
    let alloc = rt.alloc();
    let payload = long(alloc)?;
    let (live, mut pass) = opened(alloc)?;
    let mut chore = hired(&rt, &live, share(&live, &mut pass));
    let one = put(alloc, &rt, &live, &mut pass, &RISING, 0, payload.as_slice());
    let idle = turn(alloc, &live, &mut chore);
    let two = put(alloc, &rt, &live, &mut pass, &RISING, 0, payload.as_slice());
    let first = turn(alloc, &live, &mut chore);
    let second = turn(alloc, &live, &mut chore);
    let third = turn(alloc, &live, &mut chore);
    let counts = counts(&rt, &live, &mut pass);
    rejoined(&live, &mut pass, given(&live, chore));
    ended(live, pass);
    assert!(rt; one && two);
    assert_eq!(rt; idle, Did::Idle);
    assert_eq!(rt;
        (first, second, third),
        (Did::Worked, Did::Worked, Did::Idle)
    );
    assert!(rt; counts.pending == 0 && counts.free == 7);
    Ok(())
}
