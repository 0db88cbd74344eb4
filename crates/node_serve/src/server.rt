// The threads of a server.
ghost use Rattle.std.specs.Prelude.{◌≡◌, ◌+◌, ◌≤◌, ◌<◌, ◌^◌, ℕ, List, length, vec_len, MatchOption};
ghost use Rattle.node_session.specs.declared.ended.Ended.{Ended};
ghost use Rattle.node_serve.specs.Closing.{IsClosed};
ghost use Rattle.node_serve.specs.Calling.{Call, Calls};
ghost use Rattle.node_serve.specs.Manning.{DoesManned, EachManned, duty_of, links_of, ends_of};
ghost use Rattle.node_serve.specs.Serving.{ServesLink, ServesLinks, DoesDuty, AllDone, is_seat, seat_count};

use crate::Closed;
use crate::desk::{Desk, Entry};
use crate::duty::Duty;
use crate::manning::{man_all, relieve_all};
use crate::post::{Manned, Post};
use io_traits::{Clock, Door, Nudge, Sink, Source};
use line_proto::Store;
use node_session::session;
use node_workers::{Chore, work};
use std::alloc::Global;
use std::marker::Brand;
use std::sync::ledger::{Blank, Ledger};
use std::sync::{Mutex, Wait};
use std::thread::{Threads, for_each_mut};

// How many bytes are taken from one link at most.
const LIMIT: u64 = 1 << 40;

// Serves a link to its end.
fn serve_link<E: Entry<L>, S: Store, L: Source + Sink, C: Clock>(
    alloc: Global,
    store: &mut S,
    link: L,
    clock: &mut C,
)
    requires { ∥ E.may_give link ∥₁ }
    ensures link { (how : Ended) × ServesLink S.acts S.tends E.may_give L.taken L.left L.written L.handed L.source_faults L.sink_faults (2 ^ 40)
        store.old (C.times clock.old) how store.new (C.times clock.new) }
    ensures calls { (calls : List Call) × Calls S.acts S.tends calls store.old store.new }
{
    let mut link = link;
    let _ended = session(alloc, store, &mut link, clock, LIMIT);
}

// Takes links from the desk and serves them until there is none.
fn serve_links<R: Wait, E: Entry<G::Link>, M: Ledger, S: Store, C: Clock, G: Door>(
    rt: &R,
    alloc: Global,
    desk: &Mutex<Desk<G, E, M>>,
    post: &mut Post<E, M>,
    store: &mut S,
    clock: &mut C,
)
    ensures links { (hows : List Ended)
        × ServesLinks (ServesLink S.acts S.tends E.may_give G.Link.taken G.Link.left G.Link.written G.Link.handed G.Link.source_faults G.Link.sink_faults (2 ^ 40)) hows
        store.old (C.times clock.old) store.new (C.times clock.new)
        × (post.new.links.amount ≡ post.old.links.amount + length hows) }
    ensures calls { (calls : List Call) × Calls S.acts S.tends calls store.old store.new }
    ensures told { 0 < post.new.ends.amount }
{
    for _ in rt.forever() {
        // The desk is free while the link is served.
        let next = desk.lock(rt).next_link(post);
        let Some(link) = next else {
            return;
        };
        serve_link::<E, S, G::Link, C>(alloc, store, link, clock);
    }
    unreachable!()
}

// Does a duty to its end. The last seat that ends tells the workers to end.
fn do_duty<
    R: Wait + std::rt::Clock,
    E: Entry<G::Link>,
    M: Ledger,
    S: Store,
    K: Chore,
    C: Clock,
    G: Door,
    N: Nudge,
>(rt: &R, alloc: Global, desk: &Mutex<Desk<G, E, M>>, nudge: &N, manned: &mut Manned<S, K, C, E, M>)
    ensures { DoesManned (DoesDuty
        (ServesLink S.acts S.tends E.may_give G.Link.taken G.Link.left G.Link.written G.Link.handed G.Link.source_faults G.Link.sink_faults (2 ^ 40))
        S.acts S.tends K.turns (N.tells nudge.now) C.times) is_seat duty_of links_of ends_of manned.old manned.new }
{
    let Manned { duty, post } = manned;
    match duty {
        Duty::Seat { store, clock } => {
            serve_links(rt, alloc, desk, post, store, clock);
            if desk.lock(rt).leave() {
                nudge.stop();
            }
        }
        Duty::Worker { chore, clock, who } => {
            let _turns = work(rt, alloc, chore, clock, nudge, *who);
        }
    }
}

// Does all duties, each in a thread of its own.
fn do_all<
    E: Entry<G::Link> + Send + Sync,
    M: Ledger + Send + Sync,
    R: Threads + Wait + std::rt::Clock + Sync,
    S: Store + Send,
    K: Chore + Send,
    C: Clock + Send,
    G: Door + Send,
    N: Nudge + Sync,
>(
    rt: &R,
    alloc: Global,
    desk: &Mutex<Desk<G, E, M>>,
    nudge: &N,
    manned: &mut Vec<Manned<S, K, C, E, M>>,
)
    ensures { EachManned (DoesManned (DoesDuty
        (ServesLink S.acts S.tends E.may_give G.Link.taken G.Link.left G.Link.written G.Link.handed G.Link.source_faults G.Link.sink_faults (2 ^ 40))
        S.acts S.tends K.turns (N.tells nudge.now) C.times) is_seat duty_of links_of ends_of) manned.old.items manned.new.items }
{
    let threads = manned.len().max(1);
    for_each_mut(
        rt,
        manned.as_mut_slice(),
        threads,
        &|_, manned| do_duty(rt, alloc, desk, nudge, manned),
    );
}

// How many of the duties are seats.
fn count_seats<S, K, C>(duties: &[Duty<S, K, C>]) -> usize
    ensures { result ≡ seat_count duties.now }
{
    duties
        .iter()
        .filter(|duty| matches!(duty, Duty::Seat { .. }))
        .count()
}

// Serves the links of a door of which all is known that the entry says.
fn serve_from<
    E: Entry<G::Link> + Send + Sync,
    M: Ledger + Send + Sync,
    R: Threads + Wait + std::rt::Clock + Sync,
    S: Store + Send,
    K: Chore + Send,
    C: Clock + Send,
    G: Door + Send,
    N: Nudge + Sync,
>(
    rt: &R,
    alloc: Global,
    door: G,
    nudge: &N,
    links: Blank,
    ends: Blank,
    duties: &mut Vec<Duty<S, K, C>>,
) -> (G, Option<Closed>)
    requires faults { G.faults door ≡ E.faults }
    requires given { G.given door ≡ E.given }
    requires may { (link : G.Link) → G.may_give door link → ∥ E.may_give link ∥₁ }
    requires links { (links.name ≡ E.name) × (links.parts ≡ E.parts) × (links.parts ≡ vec_len duties.old) }
    requires ends { (ends.name ≡ M.name) × (ends.parts ≡ M.parts) × (ends.parts ≡ vec_len duties.old) }
    ensures later { E.faults ≤ G.faults result.0 }
    ensures came { MatchOption result.1 ((result.0 ≡ door) × (duties.new.items ≡ duties.old.items))
        (λ why. IsClosed why E.faults (G.faults result.0) (G.ended result.0)
        × AllDone (DoesDuty (ServesLink S.acts S.tends E.may_give G.Link.taken G.Link.left G.Link.written G.Link.handed G.Link.source_faults G.Link.sink_faults (2 ^ 40))
        S.acts S.tends K.turns (N.tells nudge.now) C.times) E.given (G.given result.0) duties.old.items duties.new.items) }
{
    let Ok(mut manned) = Vec::with_capacity(alloc, duties.len()) else {
        return (door, None);
    };
    let (link_book, mut taken) = links.open::<E>();
    let (end_book, mut told) = ends.open::<M>();
    let seats = count_seats(duties);
    if seats == 0 {
        nudge.stop();
    }
    let desk: Mutex<Desk<G, E, M>> = Mutex::new(Desk::new(door, seats, link_book, end_book));
    man_all(duties, &mut manned, &mut taken, &mut told);
    do_all(rt, alloc, &desk, nudge, &mut manned);
    relieve_all(manned, duties, &mut taken, &mut told);
    let (door, closed) = desk.into_inner().close(rt, taken, told);
    (door, Some(closed))
}

/// Does all duties, each in a thread of its own, until the door fails or gives no further link, and gives the door back and tells which.
/// Each seat takes a link from the door, serves it to its end, and asks again. The door isn't asked again once it has failed or given
/// none. The last seat that ends tells the workers to end, and where there is no seat they are told at once. The workers are to stand in
/// front of the seats: where no thread can be made the last duty is done first, and so no worker is waited for before the seats have
/// ended. None is that there was no memory for the threads: then nothing was done, and the door wasn't asked.
pub fn serve<
    R: Threads + Wait + std::rt::Clock + Sync,
    S: Store + Send,
    K: Chore + Send,
    C: Clock + Send,
    G: Door + Send,
    N: Nudge + Sync,
>(rt: &R, alloc: Global, door: G, nudge: &N, duties: &mut Vec<Duty<S, K, C>>) -> (G, Option<Closed>)
    ensures seats { seat_count duties.new.items ≡ seat_count duties.old.items }
    ensures later { G.faults door ≤ G.faults result.0 }

    // The door's last answer was that no further link comes; or it failed in this call. Each seat serves links one after the other, each
    // by a session over its store; each worker takes turns of its chore. Where there is a seat, each link that the door gave was served.
    ensures came { MatchOption result.1 ((result.0 ≡ door) × (duties.new.items ≡ duties.old.items))
        (λ why. IsClosed why (G.faults door) (G.faults result.0) (G.ended result.0)
        × AllDone (DoesDuty (ServesLink S.acts S.tends (G.may_give door) G.Link.taken G.Link.left G.Link.written G.Link.handed G.Link.source_faults G.Link.sink_faults (2 ^ 40))
        S.acts S.tends K.turns (N.tells nudge.now) C.times) (G.given door) (G.given result.0) duties.old.items duties.new.items) }
{
    let parts = duties.len() as u64;
    serve_from::<Brand, Brand, R, S, K, C, G, N>(
        rt,
        alloc,
        door,
        nudge,
        Blank::new(parts),
        Blank::new(parts),
        duties,
    )
}
