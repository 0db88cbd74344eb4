// Calls that wait for nobody.
ghost use Rattle.std.specs.Prelude.{◌≡◌, ℕ, ◌+◌, ◌<◌, ◌≤◌, ◌^◌, [], ◌∷◌, ◌++◌, true, false, Some, None, IfOk, IfErr, IfSome, IfNone};
ghost use Rattle.model_device.specs.Device.{part_of, seen as seen_version};
ghost use Rattle.sprig_tree.specs.State.{SprigState};
ghost use Rattle.shard_core.specs.Calls.{meta_of};
ghost use Rattle.turn_table.specs.Rule.{all_numbers};
ghost use Rattle.turn_table.specs.Passes.{view, found_out, held_part, own_count, joined_count, KeepsNumbers};
ghost use Rattle.live_node.specs.Opening.{IsOwn, setup_at, state_at};
ghost use Rattle.live_node.specs.Fits.{HubFits, PartFits};
ghost use Rattle.live_node.specs.Calls.{seen_by, IsRight};
ghost use Rattle.live_node.specs.Lives.{opening_at, shelf_slot, Holds, IsPassAt};
ghost use Rattle.live_node.specs.Tries.{TryAnswers, IsTried};

use crate::hub::Hub;
use crate::live::Live;
use crate::machine::LivePass;
use crate::reads::Get;
use arena_sprig::Sprig;
use block_shelf::ReadRefusal;
use disk_model::Disk;
use rec_format::{Digest, Head, Version};
use shard_core::{Meta, meta_step};
use std::alloc::Global;

/// A slot was out. Parts are slots 0 and up, the shelf is the last.
#[derive(Clone, Copy, Debug, PartialEq, Eq)]
pub struct Again {
    pub slot: u32,
}

/// Why a record wasn't read at once.
#[derive(Clone, Copy, PartialEq, Eq)]
pub enum TryRefusal {
    /// A slot was out. Parts are slots 0 and up, the shelf is the last.
    Again { slot: u32 },
    /// The head of the entry's record doesn't stand at its place: what the entry keeps, and the 48 bytes that were read.
    Damaged { kept: Head, read: [u8; 48] },
    /// There was no memory for it.
    Memory,
    /// The disk failed.
    Fault,
}

impl<D: Disk> Live<D> {
    /// What is known of the record that is seen of a digest at `now`, in milliseconds, as `meta` answers it, where its part is at home. It is no
    /// event.
    ///
    /// # Errors
    ///
    /// This call found the part's slot out. So some other pass is not joined into this one.
    pub fn try_meta(
        &self,
        pass: &mut LivePass<D>,
        digest: &Digest,
        now: u64,
    ) -> Result<Option<Meta>, Again>
        requires pass { IsPassAt self.now pass.old }
        requires own { IsOwn (opening_at self.now) digest.now }
        ensures pass { IsPassAt self.now pass.new }
        ensures numbers { KeepsNumbers pass.old pass.new }
        ensures right { IsRight D.view (opening_at self.now) (view pass.old) (view pass.new) [] }
        ensures answer { IfOk result (λ meta. (meta ≡ meta_of (seen_version (state_at (opening_at self.now) (seen_by (view pass.new))) now digest.now)) × (found_out pass.new ≡ found_out pass.old)) }
        ensures again { IfErr result (λ e. (e.slot ≡ part_of (setup_at (opening_at self.now)) digest.now) × (found_out pass.new ≡ found_out pass.old ++ e.slot ∷ []) × (own_count pass.old + joined_count pass.old < all_numbers)) }
    {
        let part = self.part_of(digest);
        let Some(sprig) = self.try_part(pass, part) else {
            return Err(Again { slot: part });
        };
        let answer = meta_step(&sprig, digest, now);
        self.give_part(pass, sprig, part);
        Ok(answer)
    }

    /// The record that is seen of a digest at `now`, in milliseconds, as `get` answers it, where its part and the shelf are at home. It is one
    /// event of the device, but where a slot was out.
    ///
    /// # Errors
    ///
    /// This call found the slot of the part or of the shelf out, and so some other pass is not joined into this one; or the read was refused.
    pub fn try_get(
        &self,
        alloc: Global,
        pass: &mut LivePass<D>,
        digest: &Digest,
        now: u64,
    ) -> Result<Option<Version>, TryRefusal>
        requires pass { IsPassAt self.now pass.old }
        requires own { IsOwn (opening_at self.now) digest.now }
        requires now { now ≤ 2 ^ 61 }
        ensures pass { IsPassAt self.now pass.new }
        ensures numbers { KeepsNumbers pass.old pass.new }
        ensures answers { TryAnswers D.view (opening_at self.now) (view pass.old) (view pass.new) (own_count pass.old + joined_count pass.old) (shelf_slot self.now) digest.now now result }
    {
        self.known();
        let part = self.part_of(digest);
        let Some(mut sprig) = self.try_part(pass, part) else {
            return Err(TryRefusal::Again { slot: part });
        };
        let Some(hub) = self.try_hub(pass) else {
            self.give_part(pass, sprig, part);
            return Err(TryRefusal::Again { slot: self.parts() });
        };
        let answer = self.enter(
            alloc,
            &mut Vec::new(alloc),
            pass,
            hub,
            &mut sprig,
            part,
            &Get { digest, now },
        );
        self.give_part(pass, sprig, part);
        tried(answer)
    }

    // Takes the sprig of a part, where it is at home.
    fn try_part(&self, pass: &mut LivePass<D>, part: u32) -> Option<Sprig>
        requires pass { IsPassAt self.now pass.old }
        requires part { part < shelf_slot self.now }
        ensures numbers { KeepsNumbers pass.old pass.new }
        ensures right { IsRight D.view (opening_at self.now) (view pass.old) (view pass.new) [] }
        ensures none { IfNone result (IsPassAt self.now pass.new × (found_out pass.new ≡ found_out pass.old ++ part ∷ []) × (own_count pass.old + joined_count pass.old < all_numbers)) }
        ensures some { IfSome result (λ sprig. Holds self.now (Some part) false pass.new × (found_out pass.new ≡ found_out pass.old) × PartFits (opening_at self.now) (seen_by (view pass.new)) part sprig) }
    {
        let Some(sprig) = self.table.try_part(pass, part) else {
            return None;
        };
        Some(sprig)
    }

    // Takes the hub, where it is at home. What fitted as the part that the pass holds fits still.
    fn try_hub(&self, pass: &mut LivePass<D>) -> Option<Hub<D>>
        requires pass { Holds self.now (held_part pass.old) false pass.old }
        ensures numbers { KeepsNumbers pass.old pass.new }
        ensures right { IsRight D.view (opening_at self.now) (view pass.old) (view pass.new) [] }
        ensures none { IfNone result (Holds self.now (held_part pass.old) false pass.new × (found_out pass.new ≡ found_out pass.old ++ shelf_slot self.now ∷ []) × (own_count pass.old + joined_count pass.old < all_numbers) × (seen_by (view pass.new) ≡ seen_by (view pass.old))) }
        ensures some { IfSome result (λ hub. Holds self.now (held_part pass.old) true pass.new × (found_out pass.new ≡ found_out pass.old) × HubFits D.view (opening_at self.now) (seen_by (view pass.new)) hub.shelf.value hub.tally.value
            × ((k : ℕ) (p : SprigState) → held_part pass.old ≡ Some k → PartFits (opening_at self.now) (seen_by (view pass.old)) k p → PartFits (opening_at self.now) (seen_by (view pass.new)) k p)) }
    {
        let Some(hub) = self.table.try_hub(pass) else {
            return None;
        };
        Some(hub)
    }
}

// The answer of a read as a trying call hands it on.
fn tried(answer: Result<Option<Version>, ReadRefusal>) -> Result<Option<Version>, TryRefusal>
    ensures { IsTried answer result }
{
    match answer {
        Ok(found) => Ok(found),
        Err(ReadRefusal::Damaged { kept, read }) => Err(TryRefusal::Damaged { kept, read }),
        Err(ReadRefusal::Memory) => Err(TryRefusal::Memory),
        Err(ReadRefusal::Fault) => Err(TryRefusal::Fault),
    }
}
