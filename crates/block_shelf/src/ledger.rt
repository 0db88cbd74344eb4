// Which copies are live in each block: of each block their units are in memory, and the list of them is there for clauses alone.
ghost use Rattle.std.specs.Prelude.{◌≡◌, ◌+◌, ◌≤◌, ◌<◌, [], length, replicate, None, IsSomeAnd, IsOk, IfOk};
ghost use Rattle.block_shelf.specs.Lives.{copies_in, copy_at, lives_with, lives_without, use_in};

use crate::copies::LiveCopies;
use crate::{NoMemory, Place};
use rec_format::Digest;
use std::alloc::Global;
use std::marker::Model;
use unit_ledger::Ledger;

// The live copies of each block of a device, numbered from 0. All memory is taken when it is made, and each other call takes constant
// time.
#[derive(Drop)]
pub(crate) struct LiveLedger {
    uses: Ledger,
    copies: LiveCopies,
}

impl Model for LiveLedger {
    ghost use Rattle.std.specs.Prelude.{List};
    ghost use Rattle.block_shelf.specs.Lives.{LiveCopy, AreCounted};

    ghost Value = { List (List LiveCopy) };

    ghost view = { λ l. l.copies.lists };

    ghost invariant = { λ l. AreCounted l.uses l.copies.lists };
}

impl LiveLedger {
    // At `Ok` nothing is live in any of so many blocks. An `Err` is want of memory.
    pub(crate) fn new(alloc: Global, blocks: u32) -> Result<LiveLedger, NoMemory>
        ensures { IfOk result (λ ledger. ledger ≡ replicate blocks []) }
    {
        let uses = Ledger::new(alloc, blocks)?;
        Ok(LiveLedger {
            uses,
            copies: LiveCopies::new(blocks),
        })
    }

    // There is always room for a copy: the answer is `Ok`, and nothing changes.
    pub(crate) fn reserve(&mut self, block: u32) -> Result<(), NoMemory>
        requires { block < length self.old }
        ensures ok { IsOk result }
        ensures same { self.new ≡ self.old }
    {
        self.uses.reserve(block)
    }

    // A copy of the digest is live at the place then. No other may begin there, and its block's use may come to 65,278 units, the capacity of
    // the greatest block.
    pub(crate) fn add(&mut self, place: Place, digest: &Digest)
        requires in_range { place.block < length self.old }
        requires absent { copy_at place.unit (copies_in place.block self.old) ≡ None }
        requires fits { use_in place.block self.old + place.units ≤ 65278 }
        ensures { self.new ≡ lives_with place.block (record { digest = digest.now; unit = place.unit; units = place.units }) self.old }
    {
        self.uses.add(place.block, place.units);
        self.copies = self.copies.with(&place, digest);
    }

    // The copy at a place is no longer live then.
    pub(crate) fn drop_live(&mut self, place: Place)
        requires in_range { place.block < length self.old }
        requires live { IsSomeAnd (copy_at place.unit (copies_in place.block self.old)) (λ c. c.units ≡ place.units) }
        ensures { self.new ≡ lives_without place.block place.unit self.old }
    {
        let _left = self.uses.drop_live(place.block, place.units);
        self.copies = self.copies.without(&place);
    }

    // The units that are live in a block.
    pub(crate) fn used(&self, block: u32) -> u32
        requires { block < length self.now }
        ensures { result ≡ use_in block self.now }
    {
        self.uses.used(block)
    }
}
