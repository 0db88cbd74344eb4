// The turns of a search tree, and when it is turned.
ghost use Rattle.arena_sprig.specs.declared.links.Gap.{Gap};
ghost use Rattle.arena_sprig.specs.Tree.{left_raised, right_raised, Turns, Evens};

use crate::links::{Gap, Link, NONE, link_of, point, set_left, set_right};
use crate::sizes::{set_size, size_of, weight};

/// The slot to the left comes up to the place of this one, which hangs to its right then. Answers the slot at the place: where
/// there is none to the left, nothing changes.
pub fn raise_left(links: &mut [Link], sizes: &mut [u32], root: &mut u32, gap: Gap, at: u32) -> u32
    ensures { Turns left_raised links.old root.old links.new root.new gap at result }
{
    let left = link_of(links, at).left;
    if left == NONE {
        return at;
    }
    let inner = link_of(links, left).right;
    set_left(links, at, inner);
    set_right(links, left, at);
    point(links, root, gap, left);
    pass_size(links, sizes, at, left);
    left
}

/// The same to the other side.
pub fn raise_right(links: &mut [Link], sizes: &mut [u32], root: &mut u32, gap: Gap, at: u32) -> u32
    ensures { Turns right_raised links.old root.old links.new root.new gap at result }
{
    let right = link_of(links, at).right;
    if right == NONE {
        return at;
    }
    let inner = link_of(links, right).left;
    set_right(links, at, inner);
    set_left(links, right, at);
    point(links, root, gap, right);
    pass_size(links, sizes, at, right);
    right
}

/// After a turn the slot that came up has the size of the other, and that one the size of what hangs there now.
fn pass_size(links: &[Link], sizes: &mut [u32], down: u32, up: u32) {
    let link = link_of(links, down);
    let whole = size_of(sizes, down);
    set_size(sizes, up, whole);
    let below = size_of(sizes, link.left).saturating_add(weight(sizes, link.right));
    set_size(sizes, down, below);
}

/// Evens out the tree at a place where one side weighs more than three times what the other does, by one turn or two. Answers the
/// slot at the place then.
pub fn even_out(links: &mut [Link], sizes: &mut [u32], root: &mut u32, gap: Gap, at: u32) -> u32
    ensures { Evens links.old root.old links.new root.new gap at result }
{
    let link = link_of(links, at);
    let (left, right) = (weight(sizes, link.left), weight(sizes, link.right));
    if left > right.saturating_mul(3) {
        lift_left(links, sizes, root, gap, at)
    } else if right > left.saturating_mul(3) {
        lift_right(links, sizes, root, gap, at)
    } else {
        at
    }
}

/// Raises the left side. What is within it is raised before where it has two thirds of that side.
fn lift_left(links: &mut [Link], sizes: &mut [u32], root: &mut u32, gap: Gap, at: u32) -> u32
    ensures { Evens links.old root.old links.new root.new gap at result }
{
    tuck_left(links, sizes, root, at);
    raise_left(links, sizes, root, gap, at)
}

fn lift_right(links: &mut [Link], sizes: &mut [u32], root: &mut u32, gap: Gap, at: u32) -> u32
    ensures { Evens links.old root.old links.new root.new gap at result }
{
    tuck_right(links, sizes, root, at);
    raise_right(links, sizes, root, gap, at)
}

fn tuck_left(links: &mut [Link], sizes: &mut [u32], root: &mut u32, at: u32)
    ensures { (gap : Gap) → Evens links.old root.old links.new root.new gap at at }
{
    let left = link_of(links, at).left;
    let link = link_of(links, left);
    if left == NONE || weight(sizes, link.right) / 2 < weight(sizes, link.left) {
        return;
    }
    raise_right(links, sizes, root, Gap::Left(at), left);
}

fn tuck_right(links: &mut [Link], sizes: &mut [u32], root: &mut u32, at: u32)
    ensures { (gap : Gap) → Evens links.old root.old links.new root.new gap at at }
{
    let right = link_of(links, at).right;
    let link = link_of(links, right);
    if right == NONE || weight(sizes, link.left) / 2 < weight(sizes, link.right) {
        return;
    }
    raise_left(links, sizes, root, Gap::Right(at), right);
}
