// `serve`: the devices are started, the links of a door are served over them by many threads, the devices are closed behind that, and the disks
// handed back.
ghost use Rattle.std.specs.Prelude.{◌≡◌, ◌≤◌, [], IsTrue, length, vec_len, vec_capacity};
ghost use Rattle.shard_core.specs.View.{IsSettings};
ghost use Rattle.law_run.specs.Promises.{IsTold, AreReady, disks_between};
ghost use Rattle.live_serve.specs.Serving.{ServesLink};
ghost use Rattle.law_serve.specs.Promises.{Serves, first_failed, disks_closed, serving_end};

use crate::outcome::{Outcome, after_closing, after_refusal};
use crate::started::tell_all_started;
use core_run::{start_all, stop_all};
use disk_model::Disk;
use io_traits::{Clock, Door, Nudge};
use live_serve::{Closing, Served, name_each, serve_shards, stop_closed};
use model_node::RunEnd;
use node_serve::Closed;
use shard_core::Settings;
use sprig_advice::Teller;
use std::alloc::Global;
use std::sync::Wait;
use std::thread::Threads;
use turn_table::Noted;

// The first of the devices whose disk failed in its closing flush, if any did.
fn failed_first<D: Disk>(closings: &[Closing<D>]) -> Option<u16>
    requires { length closings.now ≤ 16 }
    ensures { result ≡ first_failed 0 closings.now }
{
    for (device, closing) in closings.iter().enumerate() {
        if closing.flushed.is_err() {
            return Some(device as u16);
        }
    }
    None
}

// How a server ends, whose door gives no further link for this reason, if it was asked, and of whose devices this one failed in the closing, if any
// did.
fn after_serving(closed: Option<Closed>, failed: Option<u16>) -> RunEnd
    ensures { result ≡ serving_end closed failed }
{
    match closed {
        None => RunEnd::NoMemory,
        Some(Closed::Failed) => RunEnd::DoorFault,
        Some(Closed::Ended) => after_closing(failed),
    }
}

// What is left of a server whose door gives no further link for this reason, if it was asked, and whose devices were closed so, with room for their
// disks.
fn outcome_of<D: Disk>(
    closings: Vec<Closing<D>>,
    closed: Option<Closed>,
    disks: Vec<D>,
) -> Outcome<D>
    requires few { vec_len closings ≤ 16 }
    requires none { disks.items ≡ [] }
    requires room { vec_len closings ≤ vec_capacity disks }
    ensures end { IsTold (serving_end closed (first_failed 0 closings.items)) result.status result.note }
    ensures disks { result.disks.items ≡ disks_closed closings.items }
{
    let end = after_serving(closed, failed_first(&closings));
    Outcome::new(end, stop_closed(closings, disks))
}

/// Serves the links of the door over the 1 to 16 devices, in order, until it gives none or fails, so many at the same time, and answers how it
/// ended, as a status and a note, the disks, in order, and the door. Each link that the door gives is served. Beside the links four workers of each device flush, vacate blocks, remove what
/// is expired and raid tombs. At status 0 the door gave none and nothing is pending. The caller may know that the disks are honest, that each has
/// one image, and that it is sound; then a crash leaves of a device at each moment what some state of its list of events allows, and from the end
/// on what its last state allows. The teller is told of the start.
pub fn serve_with<
    R: Threads + Wait + std::rt::Clock + Sync,
    D: Disk + Send,
    C: Clock + Send,
    G: Door + Send,
    N: Nudge + Sync,
    T: Teller,
>(
    rt: &R,
    alloc: Global,
    set: Settings,
    seats: u8,
    sound: &Noted<bool>,
    mut disks: Vec<D>,
    clock: &C,
    door: G,
    nudge: &N,
    teller: &T,
) -> (Outcome<D>, G)
    requires disks { (1 ≤ vec_len disks) × (vec_len disks ≤ 16) }
    requires set { IsSettings set }
    requires sound { IsTrue sound.now.value → AreReady set (disks_between D.view disks.items disks.items) }
    ensures { Serves D.view (ServesLink D.view (G.may_give door) G.Link.taken G.Link.left G.Link.written G.Link.handed G.Link.source_faults G.Link.sink_faults) sound.now.value set seats
        result.0.status result.0.note (C.times clock.now) disks.items result.0.disks.items (G.faults door) (G.faults result.1) (G.given door) (G.given result.1) (G.ended result.1)
        (result.1 ≡ door) }
{
    let Ok(mut shards) = Vec::with_capacity(alloc, disks.len()) else {
        return (Outcome::new(RunEnd::NoMemory, disks), door);
    };
    let Ok(closings) = Vec::with_capacity(alloc, disks.len()) else {
        return (Outcome::new(RunEnd::NoMemory, disks), door);
    };
    match start_all(alloc, &mut disks, &mut shards, set) {
        Ok(()) => {
            let Ok(states) = name_each(alloc, &shards, sound) else {
                stop_all(&mut shards, &mut disks);
                return (Outcome::new(RunEnd::NoMemory, disks), door);
            };
            tell_all_started(teller, &shards, set.sprigs);
            let served = serve_shards(
                rt, alloc, shards, states, closings, seats, clock, door, nudge,
            );
            let Served {
                closings,
                door,
                closed,
            } = served;
            (outcome_of(closings, closed, disks), door)
        }
        Err((device, cause)) => (Outcome::new(after_refusal(device, &cause), disks), door),
    }
}
