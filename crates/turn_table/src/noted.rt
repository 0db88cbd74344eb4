//! Values that contracts alone see, and that no code ever holds.
ghost use Rattle.std.specs.Prelude.{◌≡◌};
ghost use base.Fml.{ftrue};

use std::marker::{Model, PhantomData};

/// A `T` as contracts see it. It has no bytes, so it can be an event or an opening that is plain data.
pub struct Noted<T> {
    marker: PhantomData<T>,
    pub ghost value: { T },
}

impl<T> Model for Noted<T> {
    ghost also_owns = { λ _. ftrue };
}

/// Which values may be noted about what an `A` shows, for [`Noted::about`].
pub trait Notes<A, T> {
    // The value may be noted about this.
    ghost may_note: { A → T → Type 0 };
}

impl<T> Noted<T> {
    /// Its value is the one that the caller names.
    pub fn new() -> Noted<T>
        ghost known: { T }
        ensures { result.value ≡ known }
    {
        Noted {
            marker: PhantomData,
        }
    }

    /// Its value is one that may be noted about `about`. The caller shows that there is one, and not which.
    pub fn about<A, N: Notes<A, T>>(about: &A) -> Noted<T>
        requires { (x : T) × N.may_note about.now x }
        ensures { N.may_note about.now result.value }
    {
        let _ = about;
        Noted {
            marker: PhantomData,
        }
    }
}

unsafe impl<T> Send for Noted<T> {}

unsafe impl<T> Sync for Noted<T> {}

impl<T> Drop for Noted<T> {
    fn drop(self) {
        let Self { marker: _ } = self;
    }
}
