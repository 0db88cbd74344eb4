mod digests;
mod pairs;
mod sprigs;

use self::digests::Order;
use self::pairs::gives_the_same;
use self::sprigs::keeps_many;
use std::test::Fail;

#[test]
fn a_sprig_keeps_rising_digests(rt: HostRuntime) -> Result<(), Fail> {
    keeps_many(rt.alloc(), Order::Rising)
}

#[test]
fn a_sprig_keeps_falling_digests(rt: HostRuntime) -> Result<(), Fail> {
    keeps_many(rt.alloc(), Order::Falling)
}

#[test]
fn a_sprig_keeps_digests_that_come_from_both_ends(rt: HostRuntime) -> Result<(), Fail> {
    keeps_many(rt.alloc(), Order::BothEnds)
}

#[test]
fn a_sprig_keeps_scattered_digests(rt: HostRuntime) -> Result<(), Fail> {
    keeps_many(rt.alloc(), Order::Scattered)
}

#[test]
fn a_sprig_answers_as_a_row_does(rt: HostRuntime) -> Result<(), Fail> {
    gives_the_same(rt.alloc(), Order::Rising)?;
    gives_the_same(rt.alloc(), Order::BothEnds)?;
    gives_the_same(rt.alloc(), Order::Scattered)
}
