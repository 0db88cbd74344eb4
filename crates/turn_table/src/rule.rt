//! What lies in a slot, what a pass knows, and the rule between any two steps.
use crate::machine::Machine;
use crate::noted::Noted;
use atomic_table::TableRule;
use std::collections::LinkedList;
use std::marker::PhantomData;
use std::snapshot::Snapshot;

/// One event of the list, under the number of the pass that entered it. No value of it is made: contracts alone read it.
pub struct Entry<E> {
    /// The number of the pass that entered it.
    pub by: u64,
    pub event: E,
}

/// What a pass knows. No value of it is made: contracts alone read it.
///
/// A view that is spent has no pass numbers.
pub struct View<E, O> {
    /// What the table opened with.
    pub opening: Option<O>,
    /// The entries that it has seen, a beginning of the table's list.
    pub seen: LinkedList<Entry<E>>,
    /// The shorter of the two lists that were put together when another pass was joined last.
    pub told: LinkedList<Entry<E>>,
    /// The events that it entered, in the order of its calls.
    pub mine: LinkedList<E>,
    /// The slots that its own exchanges found out, one for each such exchange, in their order.
    pub found_out: LinkedList<u64>,
    /// Its own pass number.
    pub first: u64,
    /// How many pass numbers it has, of which its own is the first.
    pub own: u64,
    /// How many pass numbers were joined into it.
    pub joined: u64,
    /// The part that it holds.
    pub part: Option<u64>,
    /// Whether it holds the hub.
    pub hub: bool,
}

/// What a slot holds. A hub comes back with the event that it is given with, if there is one.
pub enum Place<H, P, E> {
    Hub(H, Snapshot<Option<E>>),
    Part(P),
    /// The value is in the hands of the pass that took it.
    Away,
}

/// The rule between any two steps at the table of a machine.
pub struct Turns<M> {
    machine: PhantomData<M>,
}

impl<M: Machine> TableRule<
    Place<M::Hub, M::Part, M::Event>,
    View<M::Event, M::Opening>,
    Noted<M::Opening>,
> for Turns<M> {
    ghost use Rattle.turn_table.specs.Rule.{IsKept, newcomer};

    ghost holds = { λ key. IsKept M.hub_fits M.part_fits M.may_follow M.part_named key.value };

    ghost first = { λ key. newcomer key.value };
}
