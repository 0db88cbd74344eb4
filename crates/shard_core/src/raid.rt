// How a raid takes its turns.
ghost use Rattle.std.specs.Prelude.{◌≡◌, ◌<◌, ◌+◌, ◌==◌, ℕ, Err, None, Some, IfErr, IfSome, OnOk, OnErr, if◌then◌else◌, length};
ghost use Rattle.disk_model.specs.Disk.{IsHonest};
ghost use Rattle.rec_format.specs.Versions.{top_number};
ghost use Rattle.model_device.specs.Device.{State};
ghost use Rattle.model_device.specs.Events.{begin_call, raid_numbered};
ghost use Rattle.model_device.specs.Passes.{turn_part};
ghost use Rattle.raid_book.specs.Books.{begun};
ghost use Rattle.raid_book.specs.Turns.{turn_of};
ghost use Rattle.block_shelf.specs.Disks.{IsLater};
ghost use Rattle.block_shelf.specs.Sure.{StaysSure};
ghost use Rattle.shard_raid.specs.Raids.{IsNext, begun_raid, number_of};
ghost use Rattle.shard_core.specs.View.{SameSetup};
ghost use Rattle.shard_core.specs.Stands.{Agrees};
ghost use Rattle.shard_core.specs.Calls.{Makes};
ghost use Rattle.shard_core.specs.Raids.{TakesTurn, TurnMakes};
ghost use Rattle.shard_core.specs.Refusals.{TurnLeaves};

use crate::Shard;
use disk_model::Disk;
use shard_raid::{Raid, RaidDid, RaidRefusal, part_turn, raid_begin, shelf_turn};
use std::alloc::Global;

impl<D: Disk> Shard<D> {
    /// At `Some` a raid has begun, also over a running one, whose marks are void then; it stands in memory alone, and a start finds none.
    /// Its number is one more than the last; where that was 2^62 none begins, and nothing changes. It calls no disk, and takes no memory.
    /// Aerospike's tomb raider.
    pub fn raid_begin(&mut self) -> Option<Raid>
        ensures makes { (s : State) → Agrees self.old s → Makes D.view begin_call (raid_numbered (number_of result)) self.old s self.new }
        ensures raid { result ≡ (if self.old.shelf.raid.number == top_number then None else Some (begun_raid (self.old.shelf.raid.number + 1))) }
        ensures next { IfSome result (λ raid. IsNext raid self.new.shelf.raid) }
        ensures book { self.new ≡ (if self.old.shelf.raid.number == top_number then self.old else record self.old { shelf = record self.old.shelf { raid = begun self.old.shelf.raid } }) }
    {
        raid_begin(&mut self.shelf)
    }

    /// At `Ok` the next turn of the raid was taken, and it answers by its kind, `Done` where none is left. On a sound device without an
    /// unsure gate the scan of a block finds each copy in it that a start may find and that is older than a marked entry, and only copies
    /// that a start may find: the marks of such entries go in the turns after it. It is refused as stale exactly where another raid has
    /// begun since, or it was given up, or somebody else took its turn: then nothing changes. After any other refusal the raid is given
    /// up: none of its marks counts, what it found is gone, and nothing else has changed but the gate of the block, if it was unsure and is
    /// closed now. `now` is in milliseconds. Only the scan of a block takes memory or calls the disk.
    pub fn raid_step(
        &mut self,
        alloc: Global,
        raid: &mut Raid,
        now: u64,
    ) -> Result<RaidDid, RaidRefusal>
        ensures makes { (s : State) → Agrees self.old s → TurnMakes D.view raid.old now result self.old s self.new }
        ensures taken { IsNext raid.old self.old.shelf.raid → TakesTurn D.view raid.old.next now result self.old self.new }
        ensures stale { (IsNext raid.old self.old.shelf.raid → ⊥) → (result ≡ Err (RaidRefusal.Stale self.old.shelf.raid.number self.old.shelf.raid.next)) × (self.new ≡ self.old) }
        ensures follows { OnOk result (IsNext raid.new self.new.shelf.raid × (raid.new.number ≡ raid.old.number)) }
        ensures kept { OnErr result (raid.new ≡ raid.old) }
        ensures left { IfErr result (TurnLeaves self.old self.new) }
        ensures sure { StaysSure D.view self.old.shelf self.new.shelf }
        ensures later { IsLater (D.view self.old.shelf.disk) (D.view self.new.shelf.disk) }
        ensures honest { IsHonest (D.view self.old.shelf.disk) → IsHonest (D.view self.new.shelf.disk) }
        ensures shape { SameSetup self.old self.new }
    {
        // By its book's shape the turn that is next is one at a part that has a sprig, if it is at a part.
        let _next = self.shelf.raid().next();
        match raid.part() {
            Some(part) if (part as usize) < self.sprigs.len() => self.turn_at(part, raid, now),
            _ => self.turn_aside(alloc, raid),
        }
    }
}

impl<D: Disk> Shard<D> {
    // A turn at a part: `part_turn` over its sprig.
    fn turn_at(&mut self, part: u32, raid: &mut Raid, now: u64) -> Result<RaidDid, RaidRefusal>
        requires part { turn_part (turn_of raid.old.next) ≡ Some part }
        requires there { part < length self.old.sprigs }
        ensures makes { (s : State) → Agrees self.old s → TurnMakes D.view raid.old now result self.old s self.new }
        ensures taken { IsNext raid.old self.old.shelf.raid → TakesTurn D.view raid.old.next now result self.old self.new }
        ensures stale { (IsNext raid.old self.old.shelf.raid → ⊥) → (result ≡ Err (RaidRefusal.Stale self.old.shelf.raid.number self.old.shelf.raid.next)) × (self.new ≡ self.old) }
        ensures follows { OnOk result (IsNext raid.new self.new.shelf.raid × (raid.new.number ≡ raid.old.number)) }
        ensures kept { OnErr result (raid.new ≡ raid.old) }
        ensures left { IfErr result (TurnLeaves self.old self.new) }
        ensures sure { StaysSure D.view self.old.shelf self.new.shelf }
        ensures later { IsLater (D.view self.old.shelf.disk) (D.view self.new.shelf.disk) }
        ensures honest { IsHonest (D.view self.old.shelf.disk) → IsHonest (D.view self.new.shelf.disk) }
        ensures shape { SameSetup self.old self.new }
    {
        // By its shape the device has at most 2^32 places, and at most 2^20 parts.
        let _shape = self.shelf.geometry();
        let _parts = self.parts();
        let place = part as usize;
        let before = self.sprigs[place].tally();
        let answer = part_turn(
            &mut self.sprigs[place],
            &mut self.shelf,
            raid,
            self.set.raid_age,
            now,
        );
        self.tally = self.tally.minus(before).plus(self.sprigs[place].tally());
        answer
    }

    // A turn at no part: `shelf_turn`.
    fn turn_aside(&mut self, alloc: Global, raid: &mut Raid) -> Result<RaidDid, RaidRefusal>
        requires { IsNext raid.old self.old.shelf.raid → turn_part (turn_of raid.old.next) ≡ None }
        ensures makes { (s : State) (now : ℕ) → Agrees self.old s → TurnMakes D.view raid.old now result self.old s self.new }
        ensures taken { (now : ℕ) → IsNext raid.old self.old.shelf.raid → TakesTurn D.view raid.old.next now result self.old self.new }
        ensures stale { (IsNext raid.old self.old.shelf.raid → ⊥) → (result ≡ Err (RaidRefusal.Stale self.old.shelf.raid.number self.old.shelf.raid.next)) × (self.new ≡ self.old) }
        ensures follows { OnOk result (IsNext raid.new self.new.shelf.raid × (raid.new.number ≡ raid.old.number)) }
        ensures kept { OnErr result (raid.new ≡ raid.old) }
        ensures left { IfErr result (TurnLeaves self.old self.new) }
        ensures sure { StaysSure D.view self.old.shelf self.new.shelf }
        ensures later { IsLater (D.view self.old.shelf.disk) (D.view self.new.shelf.disk) }
        ensures honest { IsHonest (D.view self.old.shelf.disk) → IsHonest (D.view self.new.shelf.disk) }
        ensures shape { SameSetup self.old self.new }
    {
        shelf_turn(alloc, &mut self.shelf, raid)
    }
}
