//! What each step tells. These types are for the proofs alone.
ghost use Rattle.std.specs.Prelude.{ℕ};
ghost use Rattle.turn_table.specs.Plays.{took_part, took_hub, gave_part, gave_back, gave_with, first_share, last_share, joined_view, looked};

use crate::machine::Machine;
use crate::rule::{Place, View};
use atomic_table::{Join, Play, Split};
use std::marker::{Brand, PhantomData};

pub(crate) struct TakePart<M> {
    machine: PhantomData<M>,
}

impl<M: Machine> Play<Place<M::Hub, M::Part, M::Event>, View<M::Event, M::Opening>>
    for TakePart<M> {
    ghost then = { took_part M.hub_fits M.part_fits M.may_follow M.part_named };
}

pub(crate) struct TakeHub<M> {
    machine: PhantomData<M>,
}

impl<M: Machine> Play<Place<M::Hub, M::Part, M::Event>, View<M::Event, M::Opening>> for TakeHub<M> {
    ghost then = { took_hub M.hub_fits M.part_fits M.may_follow M.part_named };
}

pub(crate) struct GivePart<M> {
    machine: PhantomData<M>,
}

impl<M: Machine> Play<Place<M::Hub, M::Part, M::Event>, View<M::Event, M::Opening>>
    for GivePart<M> {
    ghost then = { λ st m r n. gave_part M.hub_fits M.part_fits M.may_follow M.part_named m n };
}

pub(crate) struct GiveBack<M> {
    machine: PhantomData<M>,
}

impl<M: Machine> Play<Place<M::Hub, M::Part, M::Event>, View<M::Event, M::Opening>>
    for GiveBack<M> {
    ghost then = { λ st m r n. gave_back M.hub_fits M.part_fits M.may_follow M.part_named m n };
}

pub(crate) struct GiveWith<M> {
    machine: PhantomData<M>,
}

impl<M: Machine> Play<Place<M::Hub, M::Part, M::Event>, View<M::Event, M::Opening>>
    for GiveWith<M> {
    ghost then = { λ st m r n. gave_with M.hub_fits M.part_fits M.may_follow M.part_named m n };
}

// How many numbers go to the new pass. Each call picks it.
pub(crate) trait Cutting {
    ghost share: { ℕ };
}

impl Cutting for Brand {
    ghost share = { 0 };
}

pub(crate) struct Cut<C> {
    cutting: PhantomData<C>,
}

impl<E, O, C: Cutting> Split<View<E, O>> for Cut<C> {
    ghost left = { first_share C.share };

    ghost right = { last_share C.share };
}

pub(crate) struct Glue;

impl<E, O> Join<View<E, O>> for Glue {
    ghost use Rattle.turn_table.specs.Rule.{nobody};

    ghost both = { joined_view };

    ghost spent = { nobody };
}

pub(crate) struct Look<M> {
    machine: PhantomData<M>,
}

impl<M: Machine> Play<Place<M::Hub, M::Part, M::Event>, View<M::Event, M::Opening>> for Look<M> {
    ghost then = { λ st m r n. looked M.hub_fits M.part_fits M.may_follow M.part_named m n };
}
