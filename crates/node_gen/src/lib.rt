//! The script of a number of records, which is made line by line as it is read; a count of the replies to it; and the line
//! that sums a run up.
#![tactic(auto)]

mod counter;
mod counts;
mod cursor;
mod line;
mod script;
mod step;
mod summary;

pub use counter::ReplyCounter;
pub use counts::ReplyCounts;
pub use script::Script;
pub use step::lines_of;
pub use summary::Summary;
