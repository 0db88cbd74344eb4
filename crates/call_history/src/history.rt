// The calls that were made, for clauses alone.
ghost use Rattle.std.specs.Prelude.{◌≡◌, ℕ, List, [], ◌∷◌, ◌++◌};
ghost use Rattle.std.specs.Borrow.{ftrue};

use std::marker::{Model, PhantomData};

/// A list of calls that only clauses read. It takes no memory, and its methods do nothing when they run.
#[derive(Drop)]
pub struct History {
    marker: PhantomData<u8>,
    pub ghost notes: { List (List ℕ × List ℕ) },
}

impl Model for History {
    ghost also_owns = { λ _. ftrue };
}

// It owns nothing.
unsafe impl Send for History {}

impl History {
    /// No call.
    pub fn new() -> History
        ensures { result.notes ≡ [] }
    {
        History {
            marker: PhantomData,
        }
    }

    /// One more call, by its numbers and its bytes.
    pub fn note(&mut self, _numbers: &[u64], _bytes: &[u8])
        ensures { self.new.notes ≡ self.old.notes ++ (_numbers.now, _bytes.now) ∷ [] }
    {}
}
