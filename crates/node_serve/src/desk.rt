// The door that all seats share, and what is known of it.
ghost use Rattle.std.specs.Prelude.{◌≡◌, ◌≤◌, ◌<◌, ◌+◌, ◌-◌, ◌↔◌, ℕ, true, None, Some, IsTrue, IsSome, IfSome, IfNone, OnSome};
ghost use Rattle.model_faults.specs.Counts.{Rose};
ghost use Rattle.node_serve.specs.declared.closed.Closed.{Closed};
ghost use Rattle.node_serve.specs.Closing.{IsClosed};

use crate::Closed;
use crate::post::Post;
use io_traits::{Door, DoorFault};
use std::marker::Brand;
use std::sync::Wait;
use std::sync::ledger::{Book, Ledger, Share};

/// What a server knew of its door when it took it. Its ledger counts the links that were given since.
pub trait Entry<L>: Ledger {
    /// How often the door had failed.
    ghost faults: { ℕ };

    /// How many links it had given.
    ghost given: { ℕ };

    /// The links that it might give.
    ghost may_give: { L → Type 0 };
}

impl<L> Entry<L> for Brand {
    ghost faults = { 0 };

    ghost given = { 0 };

    ghost may_give = { λ link. Unit {0} };
}

/// A door, why it gives no further link, if that is known, and how many seats haven't ended. Its books count the links that it gave, and
/// how often a seat was told that no further one comes.
#[derive(Drop)]
pub struct Desk<G: Door, E: Entry<G::Link>, M: Ledger> {
    door: G,
    closed: Option<Closed>,
    seats: usize,
    links: Book<E>,
    ends: Book<M>,
    ghost later: { E.faults ≤ G.faults door },
    ghost ended_is: { closed ≡ Some Closed.Ended → G.ended door ≡ true },
    ghost failed_is: { closed ≡ Some Closed.Failed → Rose E.faults (G.faults door) },
    ghost counted: { G.given door ≡ E.given + links.total },
    ghost told: { 0 < ends.total → IsSome closed },
    ghost fewer: { (link : G.Link) → G.may_give door link → ∥ E.may_give link ∥₁ },
}

impl<G: Door, E: Entry<G::Link>, M: Ledger> Desk<G, E, M> {
    /// The desk of so many seats.
    pub fn new(door: G, seats: usize, links: Book<E>, ends: Book<M>) -> Desk<G, E, M>
        requires faults { G.faults door ≡ E.faults }
        requires given { G.given door ≡ E.given }
        requires may { (link : G.Link) → G.may_give door link → ∥ E.may_give link ∥₁ }
        requires empty { (links.total ≡ 0) × (ends.total ≡ 0) }
        ensures door { result.door ≡ door }
        ensures closed { result.closed ≡ None }
        ensures seats { result.seats ≡ seats }
    {
        Desk {
            door,
            closed: None,
            seats,
            links,
            ends,
        }
    }

    /// The next link of the door, which the post counts. None is that the door has failed or given none, now or before; from then on it
    /// isn't asked, and the post counts that it was told.
    pub fn next_link(&mut self, post: &mut Post<E, M>) -> Option<G::Link>
        ensures kept { IsSome self.old.closed → (result ≡ None) × (self.new.door ≡ self.old.door) × (self.new.closed ≡ self.old.closed) }
        ensures given { IfSome result (λ link. ∥ E.may_give link ∥₁ × (post.new.links.amount ≡ post.old.links.amount + 1)) }
        ensures told { IfNone result ((post.new.links.amount ≡ post.old.links.amount) × (0 < post.new.ends.amount)) }
        ensures open { OnSome result (self.new.closed ≡ None) }
        ensures closed { IfNone result (IsSome self.new.closed) }
        ensures seats { self.new.seats ≡ self.old.seats }
    {
        let Desk {
            door,
            closed,
            seats: _,
            links,
            ends,
        } = self;
        let Post {
            links: taken,
            ends: told,
        } = post;
        if closed.is_none() {
            match door.next_link() {
                Ok(Some(link)) => {
                    links.add(taken, 1);
                    return Some(link);
                }
                Ok(None) => *closed = Some(Closed::Ended),
                Err(DoorFault) => *closed = Some(Closed::Failed),
            }
        }
        ends.add(told, 1);
        None
    }

    /// A seat ends. It tells whether that was the last.
    pub fn leave(&mut self) -> bool
        ensures fewer { self.new.seats ≡ self.old.seats - 1 }
        ensures last { IsTrue result ↔ (self.new.seats ≡ 0) }
        ensures same { (self.new.door ≡ self.old.door) × (self.new.closed ≡ self.old.closed) }
    {
        self.seats = self.seats.saturating_sub(1);
        self.seats == 0
    }

    /// The door, and why it gives no further link. Where a seat was told so, the door gave as many links as were counted. Where it isn't
    /// known, as where there was no seat, the door is asked until it is, and links that it gives meanwhile are let go.
    pub fn close<R: Wait>(self, rt: &R, taken: Share<E>, told: Share<M>) -> (G, Closed)
        requires whole { (taken.parts ≡ E.parts) × (told.parts ≡ M.parts) }
        ensures later { E.faults ≤ G.faults result.0 }
        ensures why { IsClosed result.1 E.faults (G.faults result.0) (G.ended result.0) }
        ensures all { 0 < told.amount → G.given result.0 ≡ E.given + taken.amount }
    {
        let Desk {
            door,
            closed,
            seats: _,
            links,
            ends,
        } = self;
        let (mut links, mut ends, mut taken, mut told) = (links, ends, taken, told);
        links.audit(&mut taken);
        ends.audit(&mut told);
        match closed {
            Some(closed) => (door, closed),
            None => ask_on(rt, door),
        }
    }
}

// Asks a door until it fails or gives no further link. Those that it gives meanwhile are let go.
fn ask_on<R: Wait, G: Door>(rt: &R, door: G) -> (G, Closed)
    ensures later { G.faults door ≤ G.faults result.0 }
    ensures why { IsClosed result.1 (G.faults door) (G.faults result.0) (G.ended result.0) }
{
    let mut door = door;
    for _ in rt.forever() {
        match door.next_link() {
            Ok(Some(_unserved)) => {}
            Ok(None) => return (door, Closed::Ended),
            Err(DoorFault) => return (door, Closed::Failed),
        }
    }
    unreachable!()
}
