// How a block is vacated at the table: it is chosen, and its records are moved, one after another, each by an event of its own.
ghost use Rattle.std.specs.Prelude.{◌≡◌, ◌<◌, ◌≤◌, ◌^◌, List, [], length, vec_capacity, IfOk, MatchBool};
ghost use Rattle.model_device.specs.Events.{happened};
ghost use Rattle.model_device.specs.Vacating.{moved_by};
ghost use Rattle.shard_core.specs.Vacating.{move_cause, vacate_cause};
ghost use Rattle.turn_table.specs.Passes.{view, KeepsNumbers};
ghost use Rattle.live_node.specs.Opening.{IsOwn};
ghost use Rattle.live_node.specs.Calls.{seen_by, IsRight};
ghost use Rattle.live_node.specs.Lives.{opening_at, IsPassAt};
ghost use Rattle.live_node.specs.Several.{Placed, placed_events, Shows};
ghost use Rattle.live_node.specs.Vacates.{HasListRoom, MovesOne, MovesOut, LeavesNone, Defrags, TendsSo};
ghost use Rattle.live_node.specs.Turns.{MovesRecord};

use crate::live::Live;
use crate::machine::LivePass;
use crate::steps::{EventCall, Step};
use arena_sprig::Sprig;
use block_format::{capacity, most_records};
use block_shelf::{Shelf, VacateRefusal};
use defrag_pass::{MoveRefusal, move_one};
use disk_model::Disk;
use partition_map::device_of;
use rec_format::{Digest, NoMemory};
use shard_core::{Damage, DefragCause, DefragRefusal, Settings, Vacated};
use std::alloc::Global;
use std::sync::Wait;

// The record of a digest is moved out of a block.
#[derive(Drop)]
pub(crate) struct Move<'a> {
    pub digest: &'a Digest,
    pub block: u32,
}

impl<'a> EventCall for Move<'a> {
    ghost use Rattle.model_device.specs.Events.{move_call};
    ghost use Rattle.defrag_pass.specs.Moves.{Answers};

    type Answer = Result<bool, MoveRefusal>;

    ghost call = { λ c. move_call c.digest.now c.block };

    ghost answers = { λ c result answer. Answers result answer };
}

impl<'a, D: Disk> Step<D> for Move<'a> {
    ghost use Rattle.std.specs.Prelude.{refl};
    ghost use Rattle.model_device.specs.Device.{part_of};

    ghost asks = { λ c. Unit {0} };

    ghost part = { λ c setup. part_of setup c.digest.now };

    fn step(
        &self,
        alloc: Global,
        _room: &mut Vec<u8>,
        sprig: &mut Sprig,
        shelf: &mut Shelf<D>,
        set: &Settings,
    ) -> Result<bool, MoveRefusal> {
        let _ = set;
        move_one(alloc, sprig, shelf, self.digest, self.block)
    }

    ghost named = { λ c setup. refl };
}

impl<D: Disk> Live<D> {
    /// An empty list with room for the digests of the most records that a block of the device can have, to be lent to `defrag_one` and `tend`.
    pub fn digest_list(&self, alloc: Global) -> Result<Vec<Digest>, NoMemory>
        ensures room { IfOk result (λ list. HasListRoom (opening_at self.now) (vec_capacity list)) }
    {
        let most = most_records(capacity(self.geometry.block_size));
        Vec::with_capacity(alloc, most as usize)
    }

    /// Moves the record of a digest of the device out of a block, and answers whether it lay there; where it has left the block, or was
    /// written over, nothing is moved. It is one event of the device. A refusal leaves the state before it, but that after a `Fault` the first free
    /// block, whose gate couldn't be closed, may be at the back of the free ones.
    pub fn move_record<R: Wait>(
        &self,
        alloc: Global,
        rt: &R,
        pass: &mut LivePass<D>,
        digest: &Digest,
        block: u32,
    ) -> Result<bool, MoveRefusal>
        requires pass { IsPassAt self.now pass.old }
        requires own { IsOwn (opening_at self.now) digest.now }
        ensures pass { IsPassAt self.now pass.new }
        ensures numbers { KeepsNumbers pass.old pass.new }
        ensures moves { MovesRecord D.view (opening_at self.now) (view pass.old) (view pass.new) digest.now block result }
    {
        let part = self.part_of(digest);
        self.turn(
            alloc,
            &mut Vec::new(alloc),
            rt,
            pass,
            part,
            &Move { digest, block },
        )
    }

    /// Whether the digest is one of the device.
    pub fn is_own(&self, digest: &Digest) -> bool
        ensures { MatchBool result (IsOwn (opening_at self.now) digest.now) (IsOwn (opening_at self.now) digest.now → ⊥) }
    {
        device_of(digest, self.geometry.devices) == self.geometry.device
    }

    /// Vacates the block that has waited longest, as `Shard::defrag_one` does, and answers it and how many records were moved; none where no
    /// block waited. Where it answers a block each record that was live in it has left it since, whatever the disk. The choice and each move
    /// are events of the device of their own, and other passes' events may come between them. It takes the list that it is lent for the
    /// digests of the block's records, which has room for them. At a refusal the records before it stay moved, and what it leaves is as with
    /// `move_record`.
    pub fn defrag_one<R: Wait>(
        &self,
        alloc: Global,
        rt: &R,
        pass: &mut LivePass<D>,
        list: &mut Vec<Digest>,
    ) -> Result<Option<Vacated>, DefragRefusal>
        requires pass { IsPassAt self.now pass.old }
        requires room { HasListRoom (opening_at self.now) (vec_capacity list.old) }
        ensures pass { IsPassAt self.now pass.new }
        ensures numbers { KeepsNumbers pass.old pass.new }
        ensures room { vec_capacity list.new ≡ vec_capacity list.old }
        ensures defrags { Defrags D.view (opening_at self.now) (view pass.old) (view pass.new) result }
    {
        match self.choose(rt, pass, list) {
            Ok(Some(block)) => match self.vacate(alloc, rt, pass, list, block) {
                Ok(moved) => Ok(Some(Vacated { block, moved })),
                Err(refusal) => Err(refusal),
            },
            Ok(None) => Ok(None),
            Err(refusal) => Err(DefragRefusal {
                moved: 0,
                cause: choice_cause(refusal),
            }),
        }
    }

    /// Makes room, as `Shard::tend` does, and answers nothing: it flushes what is sealed, and vacates the block that has waited longest where
    /// that can gain room, whatever comes of either. What was done before a refusal stands, and what that leaves is as with `flush` and
    /// `move_record`.
    pub fn tend<R: Wait>(
        &self,
        alloc: Global,
        rt: &R,
        pass: &mut LivePass<D>,
        list: &mut Vec<Digest>,
    )
        requires pass { IsPassAt self.now pass.old }
        requires room { HasListRoom (opening_at self.now) (vec_capacity list.old) }
        ensures pass { IsPassAt self.now pass.new }
        ensures numbers { KeepsNumbers pass.old pass.new }
        ensures room { vec_capacity list.new ≡ vec_capacity list.old }
        ensures tends { TendsSo D.view (opening_at self.now) (view pass.old) (view pass.new) }
    {
        let _ = self.flush_sealed(rt, pass);
        if self.can_gain(rt, pass) {
            let _ = self.defrag_one(alloc, rt, pass, list);
        }
    }
}

impl<D: Disk> Live<D> {
    // Moves the records of the device's digests in the list out of the block, and then what lies there besides: that is nothing but over a
    // disk that doesn't give what was written.
    fn vacate<R: Wait>(
        &self,
        alloc: Global,
        rt: &R,
        pass: &mut LivePass<D>,
        list: &[Digest],
        block: u32,
    ) -> Result<u32, DefragRefusal>
        requires pass { IsPassAt self.now pass.old }
        requires here { IsRight D.view (opening_at self.now) (view pass.old) (view pass.old) [] }
        requires few { length list.now < 2 ^ 31 }
        requires block { block < (opening_at self.now).shelf.geometry.blocks }
        ensures pass { IsPassAt self.now pass.new }
        ensures numbers { KeepsNumbers pass.old pass.new }
        ensures moves { (events : List Placed) × Shows D.view (opening_at self.now) (view pass.old) (view pass.new) events × MovesOut (opening_at self.now) block list.now result (placed_events events) }
        ensures leaves { IfOk result (λ moved. LeavesNone (opening_at self.now) (seen_by (view pass.old)) (seen_by (view pass.new)) block) }
    {
        let moved = self.move_listed(alloc, rt, pass, list, block)?;
        match self.move_rest(alloc, rt, pass, block) {
            Ok(rest) => Ok(moved + rest),
            Err(refusal) => Err(DefragRefusal {
                moved: moved + refusal.moved,
                cause: refusal.cause,
            }),
        }
    }

    // Moves the records of the device's digests in the list out of the block. Others may have moved them, or written over them, in between.
    fn move_listed<R: Wait>(
        &self,
        alloc: Global,
        rt: &R,
        pass: &mut LivePass<D>,
        list: &[Digest],
        block: u32,
    ) -> Result<u32, DefragRefusal>
        requires pass { IsPassAt self.now pass.old }
        requires here { IsRight D.view (opening_at self.now) (view pass.old) (view pass.old) [] }
        requires few { length list.now < 2 ^ 31 }
        ensures pass { IsPassAt self.now pass.new }
        ensures numbers { KeepsNumbers pass.old pass.new }
        ensures moves { (events : List Placed) × Shows D.view (opening_at self.now) (view pass.old) (view pass.new) events × MovesOut (opening_at self.now) block list.now result (placed_events events) }
        ensures few { IfOk result (λ moved. moved ≤ length list.now) }
    {
        let mut moved = 0;
        for digest in list {
            match self.move_own(alloc, rt, pass, digest, block) {
                Ok(was_there) => moved += count_of(was_there),
                Err(cause) => return Err(DefragRefusal { moved, cause }),
            }
        }
        Ok(moved)
    }

    // Moves the record of a digest out of the block, where it is the device's.
    fn move_own<R: Wait>(
        &self,
        alloc: Global,
        rt: &R,
        pass: &mut LivePass<D>,
        digest: &Digest,
        block: u32,
    ) -> Result<bool, DefragCause>
        requires pass { IsPassAt self.now pass.old }
        requires here { IsRight D.view (opening_at self.now) (view pass.old) (view pass.old) [] }
        ensures pass { IsPassAt self.now pass.new }
        ensures numbers { KeepsNumbers pass.old pass.new }
        ensures moves { (events : List Placed) × Shows D.view (opening_at self.now) (view pass.old) (view pass.new) events × MovesOne (opening_at self.now) block digest.now result (placed_events events) }
    {
        if !self.is_own(digest) {
            return Ok(false);
        }
        match self.move_record(alloc, rt, pass, digest, block) {
            Ok(was_there) => Ok(was_there),
            Err(refusal) => Err(cause_of(refusal)),
        }
    }
}

// A record that was in the block counts as one that was moved.
fn count_of(was_there: bool) -> u32
    ensures moved { result ≡ moved_by (happened was_there) }
    ensures one { result ≤ 1 }
{
    if was_there { 1 } else { 0 }
}

// What a refused move is to the vacating.
pub(crate) fn cause_of(refusal: MoveRefusal) -> DefragCause
    ensures { result ≡ move_cause refusal }
{
    match refusal {
        MoveRefusal::Spent => DefragCause::Spent,
        MoveRefusal::Load => DefragCause::Load,
        MoveRefusal::Space => DefragCause::Space,
        MoveRefusal::Damaged { kept, read } => DefragCause::Damaged(Damage::Record { kept, read }),
        MoveRefusal::Memory => DefragCause::Memory,
        MoveRefusal::Fault => DefragCause::Fault,
    }
}

// What a refused choice is to it.
fn choice_cause(refusal: VacateRefusal) -> DefragCause
    ensures { result ≡ vacate_cause refusal }
{
    match refusal {
        VacateRefusal::Damaged { block, place } => DefragCause::Damaged(Damage::Block {
            block,
            place,
        }),
        VacateRefusal::Memory => DefragCause::Memory,
        VacateRefusal::Fault => DefragCause::Fault,
    }
}
