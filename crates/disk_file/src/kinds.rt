// The kinds of calls that are kept of a file and of names; the definitions give them their meaning.

pub const READ: u64 = 0;

pub const WRITE: u64 = 1;

pub const SYNC: u64 = 2;

pub const LENGTH: u64 = 3;

pub const LET_GO: u64 = 4;

pub const OPENED: u64 = 5;

pub const MADE: u64 = 6;

pub const LOCKED: u64 = 7;

pub const SETTLED: u64 = 8;

pub const NAMED: u64 = 9;

pub const SEEN: u64 = 10;

// What is kept of files that are made and removed.
pub const MAKES: u64 = 0;

pub const REMOVES: u64 = 1;
