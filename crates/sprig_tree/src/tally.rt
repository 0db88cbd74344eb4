// How many entries of each kind there are.
ghost use Rattle.std.specs.Prelude.{◌≡◌, [], ◌∷◌};
ghost use Rattle.sprig_tree.specs.Tallies.{tally_of, joined, parted};

use rec_format::{Entry, Kind};

/// How many entries are puts, expired ones too, how many are tombstones, and how many are puts with the cover flag.
#[derive(Clone, Copy, PartialEq, Eq, Debug, Default)]
pub struct Tally {
    pub records: u64,
    pub tombstones: u64,
    pub covered: u64,
}

impl Tally {
    /// That of one entry.
    pub fn of(entry: &Entry) -> Tally
        ensures { result ≡ tally_of (entry.now ∷ []) }
    {
        match entry.kind {
            Kind::Put => Tally {
                records: 1,
                tombstones: 0,
                covered: u64::from(entry.cover),
            },
            Kind::Tomb => Tally {
                records: 0,
                tombstones: 1,
                covered: 0,
            },
        }
    }

    /// With another, number by number. A sum goes around at 2^64.
    pub fn plus(self, other: Tally) -> Tally
        ensures { result ≡ joined self other }
    {
        Tally {
            records: self.records.wrapping_add(other.records),
            tombstones: self.tombstones.wrapping_add(other.tombstones),
            covered: self.covered.wrapping_add(other.covered),
        }
    }

    /// Without another, number by number. A difference goes around below 0.
    pub fn minus(self, other: Tally) -> Tally
        ensures { result ≡ parted self other }
    {
        Tally {
            records: self.records.wrapping_sub(other.records),
            tombstones: self.tombstones.wrapping_sub(other.tombstones),
            covered: self.covered.wrapping_sub(other.covered),
        }
    }
}
