// How what lies in a block is moved out by the index, where the block's body named less than that: over a disk that lies.
ghost use Rattle.std.specs.Prelude.{◌≡◌, ◌<◌, ◌≤◌, ◌^◌, true, false, List, [], Some, IfOk, MatchResult};
ghost use Rattle.model_device.specs.Book.{use_of};
ghost use Rattle.model_device.specs.Steps.{part_total};
ghost use Rattle.sprig_tree.specs.Entries.{entry_of};
ghost use Rattle.shard_core.specs.Vacating.{lies_in};
ghost use Rattle.turn_table.specs.Passes.{view, KeepsNumbers};
ghost use Rattle.live_node.specs.Opening.{setup_at, state_at};
ghost use Rattle.live_node.specs.Fits.{PartFits};
ghost use Rattle.live_node.specs.Calls.{seen_by, IsRight};
ghost use Rattle.live_node.specs.Lives.{opening_at, Holds, IsPassAt};
ghost use Rattle.live_node.specs.Several.{Placed, placed_events, Shows};
ghost use Rattle.live_node.specs.Vacates.{MovesOut, MovesFirst, MovesNext, LeavesNone};

use crate::live::Live;
use crate::machine::LivePass;
use crate::vacate::{Move, cause_of};
use arena_sprig::Sprig;
use disk_model::Disk;
use rec_format::Digest;
use shard_core::{DefragCause, DefragRefusal, first_in};
use std::alloc::Global;
use std::sync::Wait;

// In a block that waits to be vacated fewer units are live.
const MOST_UNITS: u32 = 1 << 16;

impl<D: Disk> Live<D> {
    // Moves the records of all entries that lie in the block out of it, part after part, until nothing is live in it. Where more is used of it
    // than of a block that waits, all have left it, and it was taken for another use.
    pub(crate) fn move_rest<R: Wait>(
        &self,
        alloc: Global,
        rt: &R,
        pass: &mut LivePass<D>,
        block: u32,
    ) -> Result<u32, DefragRefusal>
        requires pass { IsPassAt self.now pass.old }
        requires block { block < (opening_at self.now).shelf.geometry.blocks }
        ensures pass { IsPassAt self.now pass.new }
        ensures numbers { KeepsNumbers pass.old pass.new }
        ensures moves { (events : List Placed) × Shows D.view (opening_at self.now) (view pass.old) (view pass.new) events × MovesOut (opening_at self.now) block [] result (placed_events events) }
        ensures few { MatchResult result (λ moved. moved ≤ 2 ^ 16) (λ refusal. refusal.moved ≤ 2 ^ 16) }
        ensures leaves { IfOk result (λ moved. LeavesNone (opening_at self.now) (seen_by (view pass.old)) (seen_by (view pass.new)) block) }
    {
        self.known();
        let left = self.used(rt, pass, block).min(MOST_UNITS);
        let mut part = 0;
        for moved in 0..left {
            match self.move_next(alloc, rt, pass, part, block) {
                Ok(Some(at)) => part = at,
                Ok(None) => return Ok(moved),
                Err(cause) => return Err(DefragRefusal { moved, cause }),
            }
        }
        Ok(left)
    }

    // How many units are live in a block. It is no event.
    fn used<R: Wait>(&self, rt: &R, pass: &mut LivePass<D>, block: u32) -> u32
        requires pass { IsPassAt self.now pass.old }
        requires block { block < (opening_at self.now).shelf.geometry.blocks }
        ensures pass { IsPassAt self.now pass.new }
        ensures numbers { KeepsNumbers pass.old pass.new }
        ensures right { IsRight D.view (opening_at self.now) (view pass.old) (view pass.new) [] }
        ensures answer { result ≡ use_of (state_at (opening_at self.now) (seen_by (view pass.new))).book block }
    {
        let hub = self.take_hub(rt, pass);
        let used = hub.shelf.used(block);
        self.give_back(pass, hub);
        used
    }

    // Moves one record out of the block, in the first part from this one on of which one lies there, and answers the part.
    fn move_next<R: Wait>(
        &self,
        alloc: Global,
        rt: &R,
        pass: &mut LivePass<D>,
        first: u32,
        block: u32,
    ) -> Result<Option<u32>, DefragCause>
        requires pass { IsPassAt self.now pass.old }
        requires here { IsRight D.view (opening_at self.now) (view pass.old) (view pass.old) [] }
        ensures pass { IsPassAt self.now pass.new }
        ensures numbers { KeepsNumbers pass.old pass.new }
        ensures moves { MovesNext D.view (opening_at self.now) (view pass.old) (view pass.new) first block result }
    {
        for part in first..self.parts() {
            if self.move_first(alloc, rt, pass, part, block)? {
                return Ok(Some(part));
            }
        }
        Ok(None)
    }

    // Moves the first record of a part that lies in the block out of it, and answers whether there was one.
    fn move_first<R: Wait>(
        &self,
        alloc: Global,
        rt: &R,
        pass: &mut LivePass<D>,
        part: u32,
        block: u32,
    ) -> Result<bool, DefragCause>
        requires pass { IsPassAt self.now pass.old }
        requires part { part < part_total (setup_at (opening_at self.now)) }
        ensures pass { IsPassAt self.now pass.new }
        ensures numbers { KeepsNumbers pass.old pass.new }
        ensures moves { MovesFirst D.view (opening_at self.now) (view pass.old) (view pass.new) part block result }
    {
        self.known();
        let mut sprig = self.take_part(rt, pass, part);
        let answer = self.move_lying(alloc, rt, pass, &mut sprig, part, block);
        self.give_part(pass, sprig, part);
        answer
    }

    // Moves the first record that lies in the block of the part that the pass holds, if there is one.
    fn move_lying<R: Wait>(
        &self,
        alloc: Global,
        rt: &R,
        pass: &mut LivePass<D>,
        sprig: &mut Sprig,
        part: u32,
        block: u32,
    ) -> Result<bool, DefragCause>
        requires pass { Holds self.now (Some part) false pass.old }
        requires here { IsRight D.view (opening_at self.now) (view pass.old) (view pass.old) [] }
        requires fits { PartFits (opening_at self.now) (seen_by (view pass.old)) part sprig.old }
        ensures pass { Holds self.now (Some part) false pass.new }
        ensures numbers { KeepsNumbers pass.old pass.new }
        ensures fits { PartFits (opening_at self.now) (seen_by (view pass.new)) part sprig.new }
        ensures moves { MovesFirst D.view (opening_at self.now) (view pass.old) (view pass.new) part block result }
    {
        match first_in(sprig, block) {
            Some(digest) => self.move_found(alloc, rt, pass, sprig, part, &digest, block),
            None => Ok(false),
        }
    }

    // Moves the record of a digest that lies in the block of the part that the pass holds. It is one event.
    fn move_found<R: Wait>(
        &self,
        alloc: Global,
        rt: &R,
        pass: &mut LivePass<D>,
        sprig: &mut Sprig,
        part: u32,
        digest: &Digest,
        block: u32,
    ) -> Result<bool, DefragCause>
        requires pass { Holds self.now (Some part) false pass.old }
        requires fits { PartFits (opening_at self.now) (seen_by (view pass.old)) part sprig.old }
        requires lies { lies_in block (entry_of digest.now sprig.old.entries) ≡ true }
        ensures pass { Holds self.now (Some part) false pass.new }
        ensures numbers { KeepsNumbers pass.old pass.new }
        ensures fits { PartFits (opening_at self.now) (seen_by (view pass.new)) part sprig.new }
        ensures moves { MovesFirst D.view (opening_at self.now) (view pass.old) (view pass.new) part block result }
    {
        self.known();
        let hub = self.take_hub(rt, pass);
        let moving = Move { digest, block };
        let moved = self.enter(alloc, &mut Vec::new(alloc), pass, hub, sprig, part, &moving);
        match moved {
            Ok(was_there) => Ok(was_there),
            Err(refusal) => Err(cause_of(refusal)),
        }
    }
}
