ghost use Rattle.std.specs.Prelude.{◌≡◌, Some, IfOk};
ghost use Rattle.entry_arena.specs.State.{entry_at};

use entry_arena::{Arena, NoMemory};
use rec_format::{Digest, Entry, Kind, Stamp};
use std::test::Fail;
use std::thread;

fn entry(block: u32) -> Entry
    ensures { result.block ≡ block }
{
    Entry {
        digest: Digest([7; 20]),
        block,
        stamp: Stamp { lut: 1, gen_: 1 },
        void: 0,
        mark: 0,
        unit: 0,
        units: 3,
        kind: Kind::Put,
        cover: false,
    }
}

// The arena with one entry more, and its slot.
fn with_entry(mut arena: Arena, entry: Entry) -> Result<(Arena, u32), NoMemory>
    ensures { IfOk result (λ r. entry_at r.0 r.1 ≡ Some entry) }
{
    arena.reserve(1)?;
    let slot = arena.put(entry);
    Ok((arena, slot))
}

#[test]
fn arenas_go_to_threads_and_come_back(rt: HostRuntime) -> Result<(), Fail> {
    let (one, other) = (Arena::new(rt.alloc()), Arena::new(rt.alloc()));
    let (first, second) = (entry(1), entry(2));
    let (one, other) = thread::join(
        &rt,
        move ||
            ensures { IfOk result (λ r. entry_at r.0 r.1 ≡ Some first) }
        { with_entry(one, first) },
        move ||
            ensures { IfOk result (λ r. entry_at r.0 r.1 ≡ Some second) }
        { with_entry(other, second) },
    );
    let ((one, a), (other, b)) = (one?, other?);
    assert_eq!(rt; one.get(a).block, 1);
    assert_eq!(rt; other.get(b).block, 2);
    Ok(())
}
