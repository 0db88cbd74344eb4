// The defragmenter.
ghost use Rattle.std.specs.Prelude.{◌≡◌, [], vec_capacity};
ghost use Rattle.live_node.specs.Lives.{opening_at, IsPassAt};
ghost use Rattle.live_node.specs.Vacates.{HasListRoom};

use crate::station::Station;
use block_shelf::VacateRefusal;
use defrag_pass::MoveRefusal;
use disk_model::Disk;
use live_node::{Live, LivePass};
use node_workers::{Chore, Did};
use rec_format::Digest;
use std::alloc::Global;
use std::sync::Wait;

/// Vacates blocks, record after record. With no block in hand it chooses the one that has waited longest, where that gains room; each
/// further turn moves a record out of it, until none is left in hand.
#[derive(Drop)]
pub struct DefragChore<'a, R, D: Disk> {
    station: Station<'a, R, D>,
    block: u32,
    // The digests of the block's records that it hasn't come to. It has no block in hand where there are none.
    left: Vec<Digest>,
    ghost room: { HasListRoom (opening_at station.live.now) (vec_capacity left) },
}

impl<'a, R, D: Disk> DefragChore<'a, R, D> {
    ghost use Rattle.live_chores.specs.Stations.{live_at, pass_at};
    ghost use Rattle.live_chores.specs.Defrags.{defragger, hand_of};

    /// A defragmenter of a device, with a pass of its own and a list of the device, as `Live::digest_list` makes it. It has no block in hand.
    pub fn new(
        rt: &'a R,
        live: &'a Live<D>,
        pass: LivePass<D>,
        mut list: Vec<Digest>,
    ) -> DefragChore<'a, R, D>
        requires pass { IsPassAt live.now pass }
        requires room { HasListRoom (opening_at live.now) (vec_capacity list) }
        ensures live { live_at (defragger result) ≡ live.now }
        ensures pass { pass_at (defragger result) ≡ pass }
        ensures none { (hand_of result).left ≡ [] }
    {
        list.clear();
        DefragChore {
            station: Station { rt, live, pass },
            block: 0,
            left: list,
        }
    }

    /// Gives its pass back, to be joined.
    pub fn into_pass(self) -> LivePass<D>
        ensures pass { result ≡ pass_at (defragger self.entry) }
        ensures at { IsPassAt (live_at (defragger self.entry)) result }
    {
        self.station.pass
    }
}

impl<'a, R: Wait, D: Disk> DefragChore<'a, R, D> {
    ghost use Rattle.live_chores.specs.Stations.{opened_at, known_at, Stays};
    ghost use Rattle.live_chores.specs.Defrags.{defragger, hand_of, ChoosesBlock, MovesOn};

    // A block is chosen, where that gains room.
    fn choose(&mut self) -> Did
        ensures stays { Stays (defragger self.old) (defragger self.new) }
        ensures chooses { ChoosesBlock D.view (opened_at (defragger self.old)) (known_at (defragger self.old)) (known_at (defragger self.new)) result (hand_of self.new) }
    {
        let at = &mut self.station;
        match at.live.choose_gaining(at.rt, &mut at.pass, &mut self.left) {
            Ok(Some(block)) => {
                self.block = block;
                Did::Worked
            }
            Ok(None) => Did::Idle,
            Err(VacateRefusal::Memory) => Did::Memory,
            Err(_) => Did::Refused,
        }
    }

    // The record of a digest is moved out of the block in hand, where the digest is the device's.
    fn move_out(&mut self, alloc: Global, digest: &Digest) -> Did
        ensures stays { Stays (defragger self.old) (defragger self.new) }
        ensures moves { MovesOn D.view (opened_at (defragger self.old)) (known_at (defragger self.old)) (known_at (defragger self.new)) digest.now (hand_of self.old) result (hand_of self.new) }
    {
        let at = &mut self.station;
        if !at.live.is_own(digest) {
            return Did::Worked;
        }
        match at
            .live
            .move_record(alloc, at.rt, &mut at.pass, digest, self.block)
        {
            Ok(_) => Did::Worked,
            Err(MoveRefusal::Memory) => {
                self.left.clear();
                Did::Memory
            }
            Err(_) => {
                self.left.clear();
                Did::Refused
            }
        }
    }
}

impl<'a, R: Wait, D: Disk> Chore for DefragChore<'a, R, D> {
    ghost use Rattle.live_chores.specs.Defrags.{defragger, hand_of, DefragsOnce};

    ghost turns = { λ old now did new. DefragsOnce D.view (defragger old) (hand_of old) did (defragger new) (hand_of new) };

    fn turn(&mut self, alloc: Global, _now: u64) -> Did {
        match self.left.pop() {
            Some(digest) => self.move_out(alloc, &digest),
            None => self.choose(),
        }
    }
}
