// The live copies of all blocks, for clauses alone.
ghost use Rattle.std.specs.Prelude.{◌≡◌, List, [], replicate};
ghost use Rattle.std.specs.Borrow.{ftrue};
ghost use Rattle.block_shelf.specs.Lives.{LiveCopy, lives_with, lives_without};

use crate::Place;
use rec_format::Digest;
use std::marker::{Model, PhantomData};

// The live copies of each block, which only clauses read. It takes no memory, and its methods do nothing when they run.
#[derive(Drop)]
pub(crate) struct LiveCopies {
    marker: PhantomData<u8>,
    pub ghost lists: { List (List LiveCopy) },
}

impl Model for LiveCopies {
    ghost also_owns = { λ _. ftrue };
}

// It owns nothing.
unsafe impl Send for LiveCopies {}

impl LiveCopies {
    // No copy in any of so many blocks.
    pub(crate) fn new(_blocks: u32) -> LiveCopies
        ensures { result.lists ≡ replicate _blocks [] }
    {
        LiveCopies {
            marker: PhantomData,
        }
    }

    // One more, as the last one of its block.
    pub(crate) fn with(&self, _place: &Place, _digest: &Digest) -> LiveCopies
        ensures { result.lists ≡ lives_with _place.now.block (record { digest = _digest.now; unit = _place.now.unit; units = _place.now.units }) self.now.lists }
    {
        LiveCopies {
            marker: PhantomData,
        }
    }

    // Those that don't begin at this place.
    pub(crate) fn without(&self, _place: &Place) -> LiveCopies
        ensures { result.lists ≡ lives_without _place.now.block _place.now.unit self.now.lists }
    {
        LiveCopies {
            marker: PhantomData,
        }
    }
}
