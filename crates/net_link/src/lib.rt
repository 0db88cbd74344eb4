//! Connections of the network as links of a session, which also end where a halt comes or the peer is silent for too long, and the door
//! that gives them. Which bytes went through a link is kept for clauses alone: no clause tells what its input holds, or what becomes of its
//! output.
#![tactic(auto)]

mod door;
mod link;

pub use door::TcpDoor;
pub use link::{Stop, TcpLink};
