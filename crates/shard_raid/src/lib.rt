//! The turns of a raid over the sprig of a part and the shelf. A raid begins. Then, part by part, it marks the entries that may go. Block by
//! block it scans for copies that are there, or that a crash may bring back; and where its scans found copies of a part, it takes the mark
//! from each entry that one of them is earlier than. At last, part by part, marked tombstones lose their entries and marked puts their cover
//! flags. Only a scan takes memory and calls the disk; where it is refused the raid is given up.
#![tactic(auto)]

mod begin;
mod compare;
mod end;
mod mark;
mod scan;
mod turn;

pub use begin::{Raid, raid_begin};
pub use compare::raid_apply;
pub use end::raid_end;
pub use mark::raid_mark;
pub use scan::{RaidRefusal, raid_scan};
pub use turn::{RaidDid, part_turn, shelf_turn};
