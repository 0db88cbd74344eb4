//! A table of slots that threads take turns at: one hub, and numbered parts beside it.
//!
//! One list of events is the table's past. A thread takes a slot's value out with its [`Pass`], works
//! on it, and gives it back. Each value at home fits a beginning of the list, and only giving the hub
//! back with an event makes the list longer. A [`Machine`] says what fits, and which events may follow.
#![tactic(auto)]

mod ends;
mod machine;
mod noted;
mod plays;
mod row;
mod rule;
mod shares;
mod steps;
mod table;
mod waiters;

pub use machine::Machine;
pub use noted::{Noted, Notes};
pub use rule::{Entry, Place, Turns, View};
pub use table::{NewRefusal, NotClosed, NotMade, Pass, PassOf, Slotted, StillOut, Table};
