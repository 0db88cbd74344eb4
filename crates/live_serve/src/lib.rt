//! The devices of a node under their tables, for many threads: how they come under them, are served, come out, and are flushed in the end.
#![tactic(auto)]

mod closing;
mod naming;
mod opening;
mod serving;
mod tables;

pub use closing::{Closing, close_all, stop_closed};
pub use naming::name_each;
pub use opening::{NotOpened, open_all};
pub use serving::{Served, serve_shards};
pub use tables::Tables;
