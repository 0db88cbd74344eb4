//! A session: the lines of a source are carried out by a store, each is answered into a sink, and the store is tended. A
//! session has no disk: what a crash leaves is the store's to say.
#![tactic(auto)]

mod ended;
mod input;
mod piece;
mod replies;
mod stop;
mod turn;

pub use ended::Ended;
pub use input::session;
pub use replies::send;
