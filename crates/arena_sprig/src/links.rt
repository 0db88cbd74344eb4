// The links of a search tree, which stand by slot, and the places in it.
ghost use Rattle.std.specs.Prelude.{◌≡◌, slice_index_or, slice_set};
ghost use Rattle.arena_sprig.specs.Tree.{no_link, with_left, with_right, pointed, root_by};

use entry_arena::FIRST;
use smallvec::SmallVec;

/// No slot.
pub const NONE: u32 = u32::MAX;

/// The slots below a slot: of smaller digests, and of greater ones.
#[derive(Clone, Copy, Default)]
pub struct Link {
    pub left: u32,
    pub right: u32,
}

/// Links by slot. Those of an arena's first slots lie in the value.
pub type Links = SmallVec<Link, FIRST>;

/// The links of a slot that has none below it.
pub const LEAF: Link = Link {
    left: NONE,
    right: NONE,
};

/// What leads to a place: the root, or a link of a slot.
#[derive(Clone, Copy)]
pub enum Gap {
    Root,
    Left(u32),
    Right(u32),
}

/// What leads to a place, and the slot there.
#[derive(Clone, Copy)]
pub struct Place {
    pub gap: Gap,
    pub at: u32,
}

/// The links of a slot.
pub fn link_of(links: &[Link], slot: u32) -> Link
    ensures { result ≡ slice_index_or links.now slot no_link }
{
    let at = slot as usize;
    if at < links.len() { links[at] } else { LEAF }
}

/// Gives a slot these links.
pub fn set_link(links: &mut [Link], slot: u32, link: Link)
    ensures { links.new ≡ slice_set links.old slot link }
{
    let at = slot as usize;
    if at < links.len() {
        links[at] = link;
    }
}

pub fn set_left(links: &mut [Link], slot: u32, to: u32)
    ensures { links.new ≡ with_left slot to links.old }
{
    let right = link_of(links, slot).right;
    set_link(links, slot, Link { left: to, right });
}

pub fn set_right(links: &mut [Link], slot: u32, to: u32)
    ensures { links.new ≡ with_right slot to links.old }
{
    let left = link_of(links, slot).left;
    set_link(links, slot, Link { left, right: to });
}

/// Lets what leads to a place lead to this slot.
pub fn point(links: &mut [Link], root: &mut u32, gap: Gap, to: u32)
    ensures links { links.new ≡ pointed gap to links.old }
    ensures root { root.new ≡ root_by gap to root.old }
{
    match gap {
        Gap::Root => *root = to,
        Gap::Left(slot) => set_left(links, slot, to),
        Gap::Right(slot) => set_right(links, slot, to),
    }
}
