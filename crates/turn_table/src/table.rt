//! The table and its passes.
ghost use Rattle.std.specs.Prelude.{◌≡◌, ◌+◌, ◌<◌, ◌≤◌, false, None, vec_len, vec_capacity};

use crate::machine::Machine;
use crate::noted::Noted;
use crate::rule::{Place, Turns, View};
use crate::waiters::Waiters;
use atomic_table::{Seat, TableRule};
use std::alloc::Global;

/// A thread's seat at a table. It knows what the table opened with, the events that it has seen and its own,
/// and it holds at most one part and the hub, the part being taken before the hub.
///
/// It has a range of pass numbers, of which the first is its own number: its events stand under that.
/// A pass that is dropped is never joined into another, so its table is never closed.
///
/// [`Pass`] is its name for the types of a machine.
pub struct PassOf<H, P, E, O> {
    pub(crate) seat: Seat<Place<H, P, E>, View<E, O>>,
    pub(crate) own: u64,
    pub(crate) joined: u64,
    pub(crate) part: Option<u32>,
    pub(crate) hub: bool,
}

/// A pass of the table of a machine.
pub type Pass<M> = PassOf<
    <M as Machine>::Hub,
    <M as Machine>::Part,
    <M as Machine>::Event,
    <M as Machine>::Opening,
>;

/// One slot for each part, and the hub's behind them. [`Table`] is its name for the types of a machine.
pub struct Slotted<S, V, K, Q: TableRule<S, V, K>, P> {
    pub(crate) table: atomic_table::Table<S, V, K, Q, Global>,
    pub(crate) parts: usize,
    // The emptied `Vec` of the parts, for the end.
    pub(crate) spare: Vec<P>,
    pub(crate) part_waiters: Waiters,
    pub(crate) hub_waiters: Waiters,
    ghost room: { (vec_len spare ≡ 0) × (parts ≤ vec_capacity spare) × (0 < parts) },
    ghost sized: { (table.shared.table_id.words ≡ parts + 1) × (table.shared.table_id.slots ≡ parts + 1) },
}

/// The table of a machine: its hub and at least one part, each at home in its slot or out to one pass.
pub type Table<M> = Slotted<
    Place<<M as Machine>::Hub, <M as Machine>::Part, <M as Machine>::Event>,
    View<<M as Machine>::Event, <M as Machine>::Opening>,
    Noted<<M as Machine>::Opening>,
    Turns<M>,
    <M as Machine>::Part,
>;

/// There was no memory for a table. The hub and the parts come back.
pub struct NotMade<H, P> {
    /// The hub as it was given.
    pub hub: H,
    /// The parts as they were given.
    pub parts: Vec<P>,
}

/// That, by the types of a machine.
pub type NewRefusal<M> = NotMade<<M as Machine>::Hub, <M as Machine>::Part>;

/// Another pass is not joined yet, directly or through a third. Table and pass come back.
pub struct NotClosed<T, S> {
    pub table: T,
    pub pass: S,
    /// How many pass numbers are missing, at least one.
    pub out: u64,
}

/// That, by the types of a machine.
pub type StillOut<M> = NotClosed<Table<M>, Pass<M>>;

impl<M: Machine> Table<M> {
    ghost use Rattle.turn_table.specs.Passes.{part_count};

    /// How many parts it has. They are numbered from 0.
    pub fn parts(&self) -> usize
        ensures { result ≡ part_count self.now }
    {
        self.parts
    }
}

impl<H, P, E, O> PassOf<H, P, E, O> {
    ghost use Rattle.turn_table.specs.Passes.{own_count, joined_count};

    /// How many pass numbers it has, at least one. Splitting takes some away.
    pub fn own(&self) -> u64
        ensures { result ≡ own_count self.now }
    {
        self.own
    }

    /// How many pass numbers other passes had that were joined into it, with those that were joined into them.
    pub fn joined(&self) -> u64
        ensures { result ≡ joined_count self.now }
    {
        self.joined
    }

    // The pass of a seat that holds nothing, and that nothing was joined into.
    pub(crate) fn seated(seat: Seat<Place<H, P, E>, View<E, O>>, own: u64) -> PassOf<H, P, E, O>
        ensures seat { result.seat ≡ seat }
        ensures fields { (result.own ≡ own) × (result.joined ≡ 0) × (result.part ≡ None) × (result.hub ≡ false) }
    {
        PassOf {
            seat,
            own,
            joined: 0,
            part: None,
            hub: false,
        }
    }

    pub(crate) fn into_seat(self) -> Seat<Place<H, P, E>, View<E, O>>
        ensures { result ≡ self.seat }
    {
        let Self {
            seat,
            own: _,
            joined: _,
            part: _,
            hub: _,
        } = self;
        seat
    }
}

impl<H, P, E, O> Drop for PassOf<H, P, E, O> {
    fn drop(self) {
        let Self {
            seat: _,
            own: _,
            joined: _,
            part: _,
            hub: _,
        } = self;
    }
}
