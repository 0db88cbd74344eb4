// Each thread of a server counts what it did, at a post of its own.
ghost use Rattle.std.specs.Prelude.{◌≡◌};

use crate::duty::Duty;
use std::sync::ledger::{Ledger, Share};

/// Where a thread counts the links that it took, and that it was told that no further one comes.
#[derive(Drop)]
pub struct Post<E: Ledger, M: Ledger> {
    pub links: Share<E>,
    pub ends: Share<M>,
    pub ghost counts_links: { links.parts ≡ 1 },
    pub ghost counts_ends: { ends.parts ≡ 1 },
}

/// A duty, and the post of the thread that does it.
#[derive(Drop)]
pub struct Manned<S, K, C, E: Ledger, M: Ledger> {
    pub duty: Duty<S, K, C>,
    pub post: Post<E, M>,
}
