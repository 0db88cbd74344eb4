// Who is told of a start.

/// Is told what a start found. What it makes of that no clause says.
pub trait Teller {
    /// The devices are started: the index has so many entries, and each partition so many sprigs.
    fn started(&self, entries: u64, sprigs: u32);
}

/// Tells nobody.
#[derive(Clone, Copy, Drop)]
pub struct Silent;

impl Teller for Silent {
    fn started(&self, _entries: u64, _sprigs: u32) {}
}
