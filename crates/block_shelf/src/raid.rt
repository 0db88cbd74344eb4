// The raid of a device, as its shelf keeps it: its number, its turns, and what its scans found.
ghost use Rattle.std.specs.Prelude.{◌≡◌, ◌≢◌, ◌+◌, ◌++◌, ◌==◌, ℕ, [], ◌↔◌, None, Some, IsNone, if◌then◌else◌};
ghost use Rattle.std.specs.Option.{option_to_list};
ghost use Rattle.rec_format.specs.Versions.{top_number};
ghost use Rattle.model_device.specs.Passes.{turn_part};
ghost use Rattle.raid_book.specs.Books.{begun, given_up, after_turn};
ghost use Rattle.raid_book.specs.Found.{copies_for};
ghost use Rattle.raid_book.specs.Turns.{turn_of};
ghost use Rattle.block_shelf.specs.View.{IsShelf};

use crate::Shelf;
use disk_model::Disk;
use raid_book::RaidBook;
use rec_format::{Digest, Stamp};

impl<D: Disk> Shelf<D> {
    /// The book of the raid: its number, and the next turn.
    pub fn raid(&self) -> &RaidBook
        ensures book { result.now ≡ self.now.raid }
        ensures whole { IsShelf D.view self.now }
    {
        &self.raid
    }

    /// At `Some` a raid has begun, also over a running one, whose marks are void then, and it answers its number, which is one more than
    /// the last. Where that was 2^62 none begins, and nothing changes. It takes no memory, and calls no disk.
    pub fn begin_raid(&mut self) -> Option<u64>
        ensures answer { result ≡ (if self.old.raid.number == top_number then None else Some (self.old.raid.number + 1)) }
        ensures book { self.new ≡ record self.old { raid = (if self.old.raid.number == top_number then self.old.raid else begun self.old.raid) } }
    {
        self.raid.begin()
    }

    /// Takes out a copy of a part that the last scan found, the last one first; none exactly where the part has none left.
    pub fn found_for(&mut self, part: u32) -> Option<(Digest, Stamp)>
        ensures none { IsNone result ↔ (copies_for part self.old.raid.found ≡ []) }
        ensures taken { copies_for part self.old.raid.found ≡ copies_for part self.new.raid.found ++ option_to_list result }
        ensures others { (other : ℕ) → other ≢ part → copies_for other self.new.raid.found ≡ copies_for other self.old.raid.found }
        ensures rest { self.new ≡ record self.old { raid = record self.old.raid { found = self.new.raid.found } } }
    {
        self.raid.found_for(part)
    }

    /// Goes on after a turn of this part, to the next turn.
    pub fn end_turn(&mut self, part: u32)
        requires { turn_part (turn_of self.old.raid.next) ≡ Some part }
        ensures { self.new ≡ record self.old { raid = after_turn self.old.raid.next part self.old.raid } }
    {
        self.raid.done_part(part);
    }

    // Gives the raid up.
    pub(crate) fn give_up(&mut self)
        ensures { self.new ≡ record self.old { raid = given_up self.old.raid } }
    {
        self.raid.give_up();
    }
}
