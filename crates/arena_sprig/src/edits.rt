// Edits of a search tree whose entries are in an arena.
ghost use Rattle.std.specs.Prelude.{◌≡◌, ◌+◌, ◌-◌, ◌≤◌, None, Some, IsSome, length};
ghost use Rattle.sprig_tree.specs.Entries.{entry_of, with_entry, with_replaced, without_digest};
ghost use Rattle.arena_sprig.specs.Tree.{IsTree, entries_from};

use crate::links::{LEAF, Link, Links, NONE, link_of, point, set_link};
use crate::sizes::set_size;
use crate::walks::{last_below, reach, walk};
use entry_arena::Arena;
use rec_format::{Digest, Entry};

/// Puts in an entry of a digest that has none. It takes no memory.
pub fn insert(
    arena: &mut Arena,
    links: &mut [Link],
    sizes: &mut [u32],
    root: &mut u32,
    count: u32,
    entry: Entry,
)
    requires kept { IsTree arena.old.slots links.old root.old count }
    requires absent { entry_of entry.digest (entries_from count arena.old.slots links.old root.old) ≡ None }
    requires room { 1 ≤ arena.old.spare }
    ensures kept { IsTree arena.new.slots links.new root.new (count + 1) }
    ensures entries { entries_from (count + 1) arena.new.slots links.new root.new ≡ with_entry entry (entries_from count arena.old.slots links.old root.old) }
    ensures slots { length arena.new.slots ≡ length arena.old.slots }
    ensures spare { arena.new.spare ≡ arena.old.spare - 1 }
{
    let place = walk(arena, links, sizes, root, count, &entry.digest, 1);
    let slot = arena.put(entry);
    set_link(links, slot, LEAF);
    set_size(sizes, slot, 1);
    point(links, root, place.gap, slot);
}

/// Puts an entry in place of the one of its digest, which there must be, and answers that one.
pub fn replace(arena: &mut Arena, links: &Links, root: u32, count: u32, entry: Entry) -> Entry
    requires kept { IsTree arena.old.slots links.now.items root count }
    requires there { IsSome (entry_of entry.digest (entries_from count arena.old.slots links.now.items root)) }
    ensures value { entry_of entry.digest (entries_from count arena.old.slots links.now.items root) ≡ Some result }
    ensures kept { IsTree arena.new.slots links.now.items root count }
    ensures entries { entries_from count arena.new.slots links.now.items root ≡ with_replaced entry (entries_from count arena.old.slots links.now.items root) }
    ensures slots { length arena.new.slots ≡ length arena.old.slots }
    ensures spare { arena.new.spare ≡ arena.old.spare }
{
    let place = reach(arena, links, root, count, &entry.digest);
    let old = *arena.get(place.at);
    arena.set(place.at, entry);
    old
}

/// Takes out the entry of a digest, which there must be.
pub fn remove(
    arena: &mut Arena,
    links: &mut [Link],
    sizes: &mut [u32],
    root: &mut u32,
    count: u32,
    digest: &Digest,
) -> Entry
    requires kept { IsTree arena.old.slots links.old root.old count }
    requires there { IsSome (entry_of digest.now (entries_from count arena.old.slots links.old root.old)) }
    ensures value { entry_of digest.now (entries_from count arena.old.slots links.old root.old) ≡ Some result }
    ensures kept { IsTree arena.new.slots links.new root.new (count - 1) }
    ensures entries { entries_from (count - 1) arena.new.slots links.new root.new ≡ without_digest digest.now (entries_from count arena.old.slots links.old root.old) }
    ensures slots { length arena.new.slots ≡ length arena.old.slots }
    ensures spare { arena.new.spare ≡ arena.old.spare + 1 }
{
    let place = walk(arena, links, sizes, root, count, digest, u32::MAX);
    let at = place.at;
    let link = link_of(links, at);
    if link.left == NONE {
        point(links, root, place.gap, link.right);
        return arena.take(at);
    }
    let last = last_below(links, sizes, root, at, count);
    let rest = link_of(links, last.at).left;
    point(links, root, last.gap, rest);
    let moved = arena.take(last.at);
    let entry = *arena.get(at);
    arena.set(at, moved);
    entry
}
