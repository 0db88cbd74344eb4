// How the devices of a node are served by many threads.
ghost use Rattle.std.specs.Prelude.{◌≡◌, ◌≤◌, [], ◌^◌, All, MatchOption, vec_len, vec_capacity};
ghost use Rattle.live_node.specs.Lives.{IsPassAt};
ghost use Rattle.live_store.specs.Pairs.{EachPair};
ghost use Rattle.live_store.specs.Known.{known_each};
ghost use Rattle.live_store.specs.Stores.{Acts};
ghost use Rattle.node_serve.specs.Closing.{IsClosed};
ghost use Rattle.node_serve.specs.Serving as many;
ghost use Rattle.node_serve.specs.Serving.{seat_count};
ghost use Rattle.live_crew.specs.Crews.{AreAtWork, AreOfNode, HasAllNumbers};
ghost use Rattle.live_crew.specs.Dealing.{CanBeDealt};
ghost use Rattle.live_serve.specs.Crew.{HaveServed};
ghost use Rattle.live_serve.specs.Devices.{AreOfOneNode, StandsAsNoted, named_each};
ghost use Rattle.live_serve.specs.Serving.{SeatsServe, ServedBy, ServesLink};

use crate::closing::{Closing, close_all, flush_all};
use crate::opening::open_all;
use disk_model::Disk;
use io_traits::{Clock, Door, Nudge};
use live_crew::{Duties, collect, deal};
use live_node::{DeviceState, Live, LivePass};
use node_serve::{Closed, serve};
use shard_core::Shard;
use std::alloc::Global;
use std::sync::Wait;
use std::thread::Threads;
use turn_table::Noted;

/// What became of devices that were served.
#[derive(Drop)]
pub struct Served<D: Disk, G> {
    /// Each device, in order, with what its closing flush answered.
    pub closings: Vec<Closing<D>>,
    pub door: G,
    /// Why the door gives no further link. It is none where there was no memory for a crew, and then the door wasn't asked.
    pub closed: Option<Closed>,
}

// A crew is dealt out, and does its duties.
fn work_through<
    'a,
    R: Threads + Wait + std::rt::Clock + Sync,
    D: Disk + Send,
    C: Clock + Send,
    G: Door + Send,
    N: Nudge + Sync,
>(
    rt: &'a R,
    alloc: Global,
    lives: &'a [Live<D>],
    passes: &mut [LivePass<D>],
    seats: u8,
    clock: &C,
    door: G,
    nudge: &N,
    duties: &mut Duties<'a, D, R, C>,
) -> (G, Option<Closed>)
    requires devices { AreOfNode lives.now }
    requires seated { EachPair IsPassAt lives.now passes.old }
    requires passes { All CanBeDealt passes.old }
    requires none { duties.old.items ≡ [] }
    ensures at_work { AreAtWork lives.now passes.new duties.new.items }
    ensures later { G.faults door ≤ G.faults result.0 }
    ensures came { MatchOption result.1 (result.0 ≡ door)
        (λ why. IsClosed why (G.faults door) (G.faults result.0) (G.ended result.0) × (seat_count duties.new.items ≡ seats)
        × HaveServed (many.ServesLink (Acts D.view) (λ old new. new ≡ old) (G.may_give door) G.Link.taken G.Link.left G.Link.written G.Link.handed G.Link.source_faults
        G.Link.sink_faults (2 ^ 40)) lives.now (C.times clock.now) (G.given door) (G.given result.0) duties.new.items) }
{
    match deal(alloc, rt, lives, passes, seats, clock, duties) {
        Ok(()) => serve(rt, alloc, door, nudge, duties),
        Err(_) => (door, None),
    }
}

// The links of the door are served over devices under their tables, and all passes come back.
fn serve_door<
    R: Threads + Wait + std::rt::Clock + Sync,
    D: Disk + Send,
    C: Clock + Send,
    G: Door + Send,
    N: Nudge + Sync,
>(
    rt: &R,
    alloc: Global,
    lives: &[Live<D>],
    passes: &mut [LivePass<D>],
    seats: u8,
    clock: &C,
    door: G,
    nudge: &N,
) -> (G, Option<Closed>)
    requires devices { AreOfNode lives.now }
    requires seated { EachPair IsPassAt lives.now passes.old }
    requires passes { All CanBeDealt passes.old }
    ensures seated { EachPair IsPassAt lives.now passes.new }
    ensures all { All HasAllNumbers passes.new }
    ensures later { G.faults door ≤ G.faults result.0 }
    ensures came { MatchOption result.1 (result.0 ≡ door)
        (λ why. IsClosed why (G.faults door) (G.faults result.0) (G.ended result.0)
        × SeatsServe (ServesLink D.view (G.may_give door) G.Link.taken G.Link.left G.Link.written G.Link.handed G.Link.source_faults G.Link.sink_faults)
        (known_each lives.now passes.new) (C.times clock.now) seats (G.given door) (G.given result.0)) }
{
    let mut duties = Vec::new(alloc);
    let came = work_through(
        rt,
        alloc,
        lives,
        passes,
        seats,
        clock,
        door,
        nudge,
        &mut duties,
    );
    collect(lives, passes, duties);
    came
}

/// The links of the door are served over these devices of a node, 1 to 16, in order, by so many seats at the same time, beside four workers of
/// each device; and then each device has its closing flush. The caller names a state for which each device stands.
pub fn serve_shards<
    R: Threads + Wait + std::rt::Clock + Sync,
    D: Disk + Send,
    C: Clock + Send,
    G: Door + Send,
    N: Nudge + Sync,
>(
    rt: &R,
    alloc: Global,
    shards: Vec<Shard<D>>,
    states: Vec<Noted<DeviceState>>,
    closings: Vec<Closing<D>>,
    seats: u8,
    clock: &C,
    door: G,
    nudge: &N,
) -> Served<D, G>
    requires devices { AreOfOneNode shards.items }
    requires stands { EachPair StandsAsNoted shards.items states.items }
    requires none { closings.items ≡ [] }
    requires room { vec_len shards ≤ vec_capacity closings }
    ensures { ServedBy D.view (ServesLink D.view (G.may_give door) G.Link.taken G.Link.left G.Link.written G.Link.handed G.Link.source_faults G.Link.sink_faults)
        (named_each shards.items states.items) (C.times clock.now) seats (G.faults door) (G.faults result.door) (G.given door) (G.given result.door) (G.ended result.door)
        (result.door ≡ door) result.closings.items result.closed }
{
    match open_all(alloc, shards, states, closings) {
        Ok(mut tables) => {
            let lent = &mut tables;
            let (door, closed) = serve_door(
                rt,
                alloc,
                &lent.lives,
                &mut lent.passes,
                seats,
                clock,
                door,
                nudge,
            );
            Served {
                closings: close_all(tables),
                door,
                closed,
            }
        }
        Err(back) => Served {
            closings: flush_all(back.shards, back.closings),
            door,
            closed: None,
        },
    }
}
