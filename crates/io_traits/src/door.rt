// Where links come from.
ghost use Rattle.std.specs.Prelude.{◌≡◌, ◌+◌, ℕ, Bool, IfOk, IfSome};
ghost use Rattle.model_faults.specs.Counts.{IsCaused};
ghost use Rattle.io_traits.specs.Door.{gave_none, links_given};

use crate::{Sink, Source};

/// No link could be had.
#[derive(Clone, Copy, Debug, PartialEq, Eq)]
pub struct DoorFault;

/// What links are had from, one after another.
pub trait Door: Drop {
    /// A link. The thread that serves it needn't be the one that took it.
    type Link: Source + Sink + Send;

    /// How often it failed.
    ghost faults: { Self → ℕ };

    /// Whether its last answer was that no further link comes.
    ghost ended: { Self → Bool };

    /// How many links it has given.
    ghost given: { Self → ℕ };

    /// That the link, as it stands, is one that it may give from now on.
    ghost may_give: { Self → Self.Link → Type 0 };

    /// At `Ok` the next link, or None, which is the end: no further link comes. An `Err` comes only where the count of faults rose, and
    /// another link may be had behind it.
    fn next_link(&mut self) -> Result<Option<Self::Link>, DoorFault>
        ensures cause { IsCaused (faults self.old) (faults self.new) result }
        ensures last { ended self.new ≡ gave_none result }
        ensures given { given self.new ≡ given self.old + links_given result }
        ensures may { IfOk result (λ next. IfSome next (may_give self.old)) }
        ensures fewer { (link : Self.Link) → may_give self.new link → may_give self.old link };
}
