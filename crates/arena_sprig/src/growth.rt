// Room for more entries: slots of the arena, and their links and sizes beside it.
ghost use Rattle.std.specs.Prelude.{◌≡◌, ◌+◌, ◌≤◌, length, max, OnOk};
ghost use Rattle.arena_sprig.specs.Tree.{IsLinked};
ghost use Rattle.arena_sprig.specs.Growth.{IsLonger, IsGrown};

use crate::NoMemory;
use crate::links::{LEAF, Links};
use crate::sizes::Sizes;
use entry_arena::Arena;
use std::alloc::AllocError;

/// Makes room for `n` entries, stage by stage. Also where memory is wanting on the way each slot has its links.
pub fn grow(arena: &mut Arena, links: &mut Links, sizes: &mut Sizes, n: u32) -> Result<(), NoMemory>
    requires { IsLinked arena.old.slots links.old.items }
    ensures room { OnOk result (n ≤ arena.new.spare) }
    ensures grown { IsGrown arena.old links.old.items arena.new links.new.items }
{
    for step in 0..n {
        let _ = step;
        if n <= arena.spare() {
            return Ok(());
        }
        add_stage(arena, links, sizes)?;
    }
    Ok(())
}

/// The slots of one stage more. The links and sizes grow first: where memory is wanting for them, the arena is as it was.
fn add_stage(arena: &mut Arena, links: &mut Links, sizes: &mut Sizes) -> Result<(), NoMemory>
    requires { IsLinked arena.old.slots links.old.items }
    ensures room { OnOk result (arena.old.spare + 1 ≤ arena.new.spare) }
    ensures grown { IsGrown arena.old links.old.items arena.new links.new.items }
{
    let Some(slots) = arena.slots().checked_add(arena.next_width()) else {
        return Err(AllocError);
    };
    lengthen(links, slots as usize)?;
    lengthen_sizes(sizes, slots as usize)?;
    arena.grow()
}

/// Links for so many slots, if there aren't as many yet, or as they were.
fn lengthen(links: &mut Links, slots: usize) -> Result<(), NoMemory>
    ensures enough { OnOk result (slots ≤ length links.new.items) }
    ensures few { length links.new.items ≤ max (length links.old.items) slots }
    ensures kept { IsLonger links.old.items links.new.items }
{
    links.reserve_exact(slots.saturating_sub(links.len()))?;
    for slot in links.len()..slots {
        let _ = slot;
        links.push_reserved(LEAF);
    }
    Ok(())
}

/// Sizes for so many slots, if there aren't as many yet.
fn lengthen_sizes(sizes: &mut Sizes, slots: usize) -> Result<(), NoMemory>
    ensures { OnOk result (slots ≤ length sizes.new.items) }
{
    sizes.reserve_exact(slots.saturating_sub(sizes.len()))?;
    for slot in sizes.len()..slots {
        let _ = slot;
        sizes.push_reserved(0);
    }
    Ok(())
}
