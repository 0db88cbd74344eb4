// Ways through a search tree: to the place of a digest, to the entry after a digest, to the first entry and to the last one before a slot.
ghost use Rattle.std.specs.Prelude.{◌≡◌, ◌≤◌, Some, None};
ghost use Rattle.sprig_tree.specs.Entries.{entry_of, entry_after};
ghost use Rattle.arena_sprig.specs.Tree.{IsTree, IsReached, FindsLast, entries_from};

use crate::links::{Gap, Link, Links, NONE, Place, link_of};
use crate::sizes::{set_size, size_of};
use crate::turns::even_out;
use entry_arena::Arena;
use rec_format::{Digest, Entry};
use std::cmp::Ordering;

/// The place of a digest's entry, or where it would go.
pub fn reach(arena: &Arena, links: &Links, root: u32, count: u32, digest: &Digest) -> Place
    requires { IsTree arena.now.slots links.now.items root count }
    ensures { IsReached arena.now.slots links.now.items root (entries_from count arena.now.slots links.now.items root) digest.now result.gap result.at count }
{
    let mut gap = Gap::Root;
    let mut at = root;
    for step in 0..count {
        let _ = step;
        if at == NONE {
            return Place { gap, at };
        }
        match arena.get(at).digest.cmp(digest) {
            Ordering::Equal => return Place { gap, at },
            Ordering::Less => {
                gap = Gap::Right(at);
                at = link_of(links, at).right;
            }
            Ordering::Greater => {
                gap = Gap::Left(at);
                at = link_of(links, at).left;
            }
        }
    }
    Place { gap, at }
}

/// The entry of a digest; none where it has none.
pub fn look_up(
    arena: &Arena,
    links: &Links,
    root: u32,
    count: u32,
    digest: &Digest,
) -> Option<Entry>
    requires { IsTree arena.now.slots links.now.items root count }
    ensures { result ≡ entry_of digest.now (entries_from count arena.now.slots links.now.items root) }
{
    let place = reach(arena, links, root, count, digest);
    if place.at == NONE {
        return None;
    }
    Some(*arena.get(place.at))
}

/// How many slots `reach` looks at on its way. No contract rests on it: the fewer they are, the faster is a look-up.
pub fn steps_to(arena: &Arena, links: &Links, root: u32, count: u32, digest: &Digest) -> u32
    requires { IsTree arena.now.slots links.now.items root count }
    ensures { result ≤ count }
{
    let mut at = root;
    for step in 0..count {
        if at == NONE {
            return step;
        }
        match arena.get(at).digest.cmp(digest) {
            Ordering::Equal => return step + 1,
            Ordering::Less => at = link_of(links, at).right,
            Ordering::Greater => at = link_of(links, at).left,
        }
    }
    count
}

/// As `reach`, and on the way each tree that leans is evened out, and each size is changed by what is to come: the number goes around at
/// 2^32, so one that is one below 0 takes one away.
pub fn walk(
    arena: &Arena,
    links: &mut [Link],
    sizes: &mut [u32],
    root: &mut u32,
    count: u32,
    digest: &Digest,
    change: u32,
) -> Place
    requires { IsTree arena.now.slots links.old root.old count }
    ensures { IsReached arena.now.slots links.new root.new (entries_from count arena.now.slots links.old root.old) digest.now result.gap result.at count }
{
    let mut gap = Gap::Root;
    let mut at = *root;
    for step in 0..count {
        let _ = step;
        at = even_out(links, sizes, root, gap, at);
        if at == NONE {
            return Place { gap, at };
        }
        set_size(sizes, at, size_of(sizes, at).wrapping_add(change));
        let link = link_of(links, at);
        match arena.get(at).digest.cmp(digest) {
            Ordering::Equal => return Place { gap, at },
            Ordering::Less => {
                gap = Gap::Right(at);
                at = link.right;
            }
            Ordering::Greater => {
                gap = Gap::Left(at);
                at = link.left;
            }
        }
    }
    Place { gap, at }
}

/// The place of the last entry before that of a slot, among those below the slot, of which there must be one. On the way each tree that
/// leans is evened out, and each size falls by one.
pub fn last_below(
    links: &mut [Link],
    sizes: &mut [u32],
    root: &mut u32,
    slot: u32,
    count: u32,
) -> Place
    ensures { FindsLast links.old root.old links.new root.new slot count result.gap result.at }
{
    let mut gap = Gap::Left(slot);
    let mut at = link_of(links, slot).left;
    for step in 0..count {
        let _ = step;
        at = even_out(links, sizes, root, gap, at);
        set_size(sizes, at, size_of(sizes, at).wrapping_sub(1));
        let right = link_of(links, at).right;
        if right == NONE {
            return Place { gap, at };
        }
        gap = Gap::Right(at);
        at = right;
    }
    Place { gap, at }
}

/// The first entry after a digest.
pub fn first_after(
    arena: &Arena,
    links: &[Link],
    root: u32,
    count: u32,
    digest: &Digest,
) -> Option<Entry>
    requires { IsTree arena.now.slots links.now root count }
    ensures { result ≡ entry_after (Some digest.now) (entries_from count arena.now.slots links.now root) }
{
    let mut at = root;
    let mut next = None;
    for step in 0..count {
        let _ = step;
        if at == NONE {
            return next;
        }
        let entry = *arena.get(at);
        let link = link_of(links, at);
        match entry.digest.cmp(digest) {
            Ordering::Less => at = link.right,
            Ordering::Equal => at = link.right,
            Ordering::Greater => {
                next = Some(entry);
                at = link.left;
            }
        }
    }
    next
}

/// The first entry of all.
pub fn first(arena: &Arena, links: &[Link], root: u32, count: u32) -> Option<Entry>
    requires { IsTree arena.now.slots links.now root count }
    ensures { result ≡ entry_after None (entries_from count arena.now.slots links.now root) }
{
    let mut at = root;
    let mut next = None;
    for step in 0..count {
        let _ = step;
        if at == NONE {
            return next;
        }
        next = Some(*arena.get(at));
        at = link_of(links, at).left;
    }
    next
}
