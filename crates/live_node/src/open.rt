// How a device comes under a table, and how it is taken out again.
ghost use Rattle.std.specs.Prelude.{◌≡◌, ℕ, ◌+◌, ◌<◌, ◌≤◌, ◌^◌, [], Some, IfOk, IfErr, vec_len, vec_capacity, slice_get};
ghost use Rattle.rec_format.specs.Versions.{block_capacity};
ghost use Rattle.block_format.specs.Layout.{most_records};
ghost use Rattle.sprig_tree.specs.State.{SprigState};
ghost use Rattle.shard_core.specs.Stands.{Agrees, IsWhole};
ghost use Rattle.turn_table.specs.Rule.{all_numbers, newcomer};
ghost use Rattle.turn_table.specs.Passes.{view, own_count, joined_count};
ghost use Rattle.live_node.specs.Opening.{Opening, IsTableOf, WasSafe, opened, state_at, faults_at};
ghost use Rattle.live_node.specs.Fits.{HubFits, PartFits, IsSafeSince};
ghost use Rattle.live_node.specs.Calls.{seen_by, IsLegalFrom};
ghost use Rattle.live_node.specs.Lives.{opening_at, IsPassAt, SameLive};

use crate::hub::Hub;
use crate::live::{Live, LiveOut};
use crate::machine::{Device, DeviceState, LivePass};
use arena_sprig::Sprig;
use block_format::Geometry;
use disk_model::Disk;
use rec_format::{Digest, NoMemory};
use shard_core::{Parts, Settings, Shard, tally_sum};
use std::alloc::{AllocError, Global};
use turn_table::{NotClosed, NotMade, Noted, Table};

// What is beside the hub and the sprigs of a device.
struct Rest {
    geometry: Geometry,
    set: Settings,
    listed: Vec<Digest>,
}

// The hub, the sprigs and the rest of a device come back.
struct NotOpened<D: Disk> {
    hub: Hub<D>,
    sprigs: Vec<Sprig>,
    rest: Rest,
}

// A table of this hub and these sprigs, at these types alone.
fn made<D: Disk>(
    alloc: Global,
    hub: Hub<D>,
    sprigs: Vec<Sprig>,
    rest: Rest,
    state: &Noted<DeviceState>,
) -> Result<(Live<D>, LivePass<D>), NotOpened<D>>
    ghost opening: { Opening D }
    requires count { (0 < vec_len sprigs) × (vec_len sprigs + 1 < 2 ^ 32) }
    requires over { IsTableOf opening rest.geometry rest.set (vec_len sprigs) }
    requires room { most_records (block_capacity rest.geometry.block_size) ≤ vec_capacity rest.listed }
    requires hub { HubFits D.view opening [] hub.shelf.value hub.tally.value }
    requires parts { (k : ℕ) (p : SprigState) → slice_get sprigs.items k ≡ Some p → PartFits opening [] k p }
    ensures opening { IfOk result (λ r. opening_at r.0 ≡ opening) }
    ensures pass { IfOk result (λ r. IsPassAt r.0 r.1 × (view r.1 ≡ newcomer opening)) }
    ensures numbers { IfOk result (λ r. (own_count r.1 ≡ all_numbers) × (joined_count r.1 ≡ 0)) }
    ensures err { IfErr result (λ e. (e.hub ≡ hub) × (e.sprigs.items ≡ sprigs.items) × (e.rest ≡ rest)) }
{
    let _ = state;
    match Table::<Device<D>>::new(alloc, hub, sprigs) {
        Ok((table, pass)) => {
            let Rest {
                geometry,
                set,
                listed,
            } = rest;
            let live = Live {
                table,
                geometry,
                set,
                listed,
            };
            Ok((live, pass))
        }
        Err(NotMade { hub, parts }) => Err(NotOpened {
            hub,
            sprigs: parts,
            rest,
        }),
    }
}

impl<D: Disk> Live<D> {
    /// Puts a device under a table. The caller names a state for which it stands, by a value of no bytes (`Noted::about`). That state, with
    /// the disk as it is now, is what the pass opens with; it has all pass numbers, has seen nothing and made no call.
    ///
    /// # Errors
    ///
    /// There is no memory. The device comes back.
    pub fn open(
        alloc: Global,
        shard: Shard<D>,
        state: &Noted<DeviceState>,
    ) -> Result<(Live<D>, LivePass<D>), (Shard<D>, NoMemory)>
        requires { Agrees shard state.now.value }
        ensures opening { IfOk result (λ r. opening_at r.0 ≡ opened shard state.now.value) }
        ensures pass { IfOk result (λ r. IsPassAt r.0 r.1 × (view r.1 ≡ newcomer (opened shard state.now.value))) }
        ensures numbers { IfOk result (λ r. (own_count r.1 ≡ all_numbers) × (joined_count r.1 ≡ 0)) }
        ensures err { IfErr result (λ e. e.0 ≡ shard) }
    {
        let Parts {
            shelf,
            set,
            sprigs,
            listed,
        } = shard.into_parts();
        let geometry = shelf.geometry();
        let tally = tally_sum(&sprigs);
        let hub = match Hub::new(alloc, shelf, tally) {
            Ok(hub) => hub,
            Err(shelf) => {
                let shard = Shard::of_parts(Parts {
                    shelf,
                    set,
                    sprigs,
                    listed,
                });
                return Err((shard, AllocError));
            }
        };
        let rest = Rest {
            geometry,
            set,
            listed,
        };
        match made(alloc, hub, sprigs, rest, state) {
            Ok(opened) => Ok(opened),
            Err(NotOpened { hub, sprigs, rest }) => Err((together(hub, sprigs, rest), AllocError)),
        }
    }

    /// Takes the device out of its table. It stands for the state at the end of the list that the pass has seen, which is the whole list. Its
    /// shape and settings are those that it opened with, and its disk has failed as often as the list tells. Over a disk that was honest, and
    /// whose image was sound, each image that the disk might have left since the opening survives the state after some of the events, or
    /// after some of the steps of the next one.
    ///
    /// # Errors
    ///
    /// Another pass is not joined into this one, directly or through a third.
    pub fn close(self, pass: LivePass<D>) -> Result<Shard<D>, LiveOut<D>>
        requires { IsPassAt self pass }
        ensures all { IfOk result (λ _. own_count pass + joined_count pass ≡ all_numbers) }
        ensures legal { IfOk result (λ _. IsLegalFrom D.view (opening_at self) (seen_by (view pass))) }
        ensures stands { IfOk result (λ shard. Agrees shard (state_at (opening_at self) (seen_by (view pass)))) }
        ensures set { IfOk result (λ shard. shard.set ≡ (opening_at self).set) }
        ensures shape { IfOk result (λ shard. shard.shelf.geometry ≡ (opening_at self).shelf.geometry) }
        ensures faults { IfOk result (λ shard. (D.view shard.shelf.disk).faults ≡ faults_at D.view (opening_at self) (seen_by (view pass))) }
        ensures left { IfOk result (λ shard. WasSafe D.view (opening_at self) → IsSafeSince D.view (opening_at self) (seen_by (view pass)) shard.shelf) }
        ensures err { IfErr result (λ e. SameLive self e.live × (e.pass ≡ pass) × (0 < e.out) × (own_count pass + joined_count pass + e.out ≡ all_numbers)) }
    {
        let Live {
            table,
            geometry,
            set,
            listed,
        } = self;
        match table.close(pass) {
            Ok((hub, sprigs)) => {
                let rest = Rest {
                    geometry,
                    set,
                    listed,
                };
                Ok(together(hub, sprigs, rest))
            }
            Err(NotClosed { table, pass, out }) => Err(LiveOut {
                live: Live {
                    table,
                    geometry,
                    set,
                    listed,
                },
                pass,
                out,
            }),
        }
    }
}

// The device of a hub, its sprigs and the rest.
fn together<D: Disk>(hub: Hub<D>, sprigs: Vec<Sprig>, rest: Rest) -> Shard<D>
    requires whole { IsWhole (record { shelf = hub.shelf.value; set = rest.set; sprigs = sprigs.items }) }
    requires room { most_records (block_capacity hub.shelf.value.geometry.block_size) ≤ vec_capacity rest.listed }
    ensures { result ≡ record { shelf = hub.shelf.value; set = rest.set; sprigs = sprigs.items } }
{
    let Hub { shelf, tally: _ } = hub;
    let Rest {
        geometry: _,
        set,
        listed,
    } = rest;
    Shard::of_parts(Parts {
        shelf: Box::into_inner(shelf),
        set,
        sprigs,
        listed,
    })
}
