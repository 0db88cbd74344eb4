// How a copy stops being live.
ghost use Rattle.std.specs.Prelude.{◌≡◌, ◌≢◌, ◌<◌, [], ◌∷◌, false, Contains, IsSomeAnd, MatchBool};
ghost use Rattle.std.specs.List.{AllByRecursion};
ghost use Rattle.disk_model.specs.Disk.{IsHonest};
ghost use Rattle.rec_format.specs.declared.version.Digest.{Digest as DigestValue};
ghost use Rattle.model_device.specs.Book.{Setup};
ghost use Rattle.model_device.specs.Device.{State, entry_is_covered};
ghost use Rattle.model_device.specs.Steps.{removed, rid_of};
ghost use Rattle.law_facts.specs.Facts.{NoneOlder};
ghost use Rattle.block_shelf.specs.Lives.{copies_in, copy_at};
ghost use Rattle.block_shelf.specs.View.{IsShelf, SameShape, IsSetupOf, IsUnused};
ghost use Rattle.block_shelf.specs.Standing.{StandsFor, ImagesHold};
ghost use Rattle.block_shelf.specs.Scans.{possible_copies};
ghost use Rattle.block_shelf.specs.Calls.{Goes, copy_live};
ghost use Rattle.block_shelf.specs.Changes.{without_copy, with_free};
ghost use Rattle.block_shelf.specs.Keeping.{KeepsAll};

use crate::let_go::is_bare;
use crate::{Place, Shelf};
use disk_model::Disk;

impl<D: Disk> Shelf<D> {
    /// The copy at a place is no longer live then, and its block is queued as its use says; nothing is written, and a start may find the
    /// copy. Where nothing else in its block is live, no buffer has the block, and none holds it, the block comes to the back of the free
    /// ones. It takes no memory.
    pub fn drop_live(&mut self, place: Place)
        requires block { place.block < self.old.geometry.blocks }
        requires live { IsSomeAnd (copy_at place.unit (copies_in place.block self.old.lives)) (λ c. c.units ≡ place.units) }
        ensures dropped { (setup : Setup) (s : State) (digest : DigestValue) → IsSetupOf setup self.old → StandsFor setup self.old s
            → Contains s.book.live (copy_live digest place) → entry_is_covered s digest ≡ false → Goes D.view setup (removed digest ∷ []) self.old s self.new }

        // So it is where a raid removes a tombstone's entry: then no possible copy of its digest may be older.
        ensures rid { (setup : Setup) (s : State) (digest : DigestValue) → IsSetupOf setup self.old → StandsFor setup self.old s
            → Contains s.book.live (copy_live digest place) → (IsHonest (D.view self.old.disk) → ImagesHold setup D.view self.old s → NoneOlder s (possible_copies D.view self.old s) digest)
            → Goes D.view setup (rid_of digest ∷ []) self.old s self.new }
        ensures disk { self.new.disk ≡ self.old.disk }
        ensures gates { self.new.gates ≡ self.old.gates }
        ensures buffers { self.new.buffers ≡ self.old.buffers }
        ensures kept { KeepsAll self.old self.new }
        ensures shape { SameShape self.old self.new }
    {
        self.take_live(place);
        self.requeue(place.block);
        if self.is_unused(place.block) {
            self.free_block(place.block);
        }
    }
}

impl<D: Disk> Shelf<D> {
    // The copy at a place leaves the live ones of its block.
    fn take_live(&mut self, place: Place)
        requires block { place.block < self.old.geometry.blocks }
        requires live { IsSomeAnd (copy_at place.unit (copies_in place.block self.old.lives)) (λ c. c.units ≡ place.units) }
        ensures taken { self.new ≡ without_copy place self.old }
        ensures unlisted { AllByRecursion (λ b. b ≢ place.block) self.old.free }
        ensures whole { IsShelf D.view self.old }
    {
        self.ledger.drop_live(place);
    }

    // Whether no buffer has a block, nothing in it is live, and no buffer holds it.
    pub(crate) fn is_unused(&self, block: u32) -> bool
        requires block { block < self.now.geometry.blocks }
        ensures { MatchBool result (IsUnused self.now block) (IsUnused self.now block → ⊥) }
    {
        !self.holds.held(block) && is_bare(&self.buffers, &self.ledger, block)
    }

    // A block comes to the back of the free ones.
    pub(crate) fn free_block(&mut self, block: u32)
        requires block { block < self.old.geometry.blocks }
        requires unused { IsUnused self.old block }
        requires unlisted { AllByRecursion (λ b. b ≢ block) self.old.free }
        ensures { self.new ≡ with_free block self.old }
    {
        let put: Result<_, _> = self.free.push_back(block);
        put.unwrap();
    }
}
