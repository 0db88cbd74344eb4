// The bytes of many sprigs, over which entries are spread as if by chance: how many a sprig has is a Poisson distribution about their mean.
use crate::bytes::bytes_for;

/// A mean is told in so many parts of 1, so that also one far below 1 is told from none.
const PARTS: u64 = 1 << 16;

/// The weight of the number with the greatest chance; that of another is as much less as its chance is.
const MOST: u64 = 1 << 24;

/// The bytes that so many sprigs ask for, over which so many entries are spread.
pub fn bytes_over(entries: u64, sprigs: u64) -> u64 {
    let mean = entries.saturating_mul(PARTS) / sprigs.max(1);
    let mut spread = Spread {
        weight: 0,
        bytes: 0,
    };
    spread.add_from_mean(mean);
    spread.add_below(mean);
    spread.mean_bytes().saturating_mul(sprigs) >> 10
}

/// How far from a mean a number may lie whose chance counts.
fn reach(mean: u64) -> u64 {
    (mean / PARTS).isqrt().saturating_mul(6) + 16
}

/// The weights of some numbers of entries, and the bytes of a sprig with so many, each by its weight.
#[derive(Drop)]
struct Spread {
    weight: u64,
    bytes: u64,
}

impl Spread {
    fn add(&mut self, weight: u64, entries: u64) {
        self.weight = self.weight.saturating_add(weight);
        let bytes = bytes_for(entries).saturating_mul(weight);
        self.bytes = self.bytes.saturating_add(bytes);
    }

    /// The numbers from the mean on: the chance of one is that of the one before times the mean, over the number.
    fn add_from_mean(&mut self, mean: u64) {
        let first = mean / PARTS;
        let mut weight = MOST;
        for entries in first..first.saturating_add(reach(mean)) {
            self.add(weight, entries);
            let next = PARTS.saturating_mul(entries.saturating_add(1));
            weight = weight.saturating_mul(mean) / next.max(1);
        }
    }

    /// The numbers below the mean, from the greatest on.
    fn add_below(&mut self, mean: u64) {
        let first = mean / PARTS;
        let mut weight = MOST;
        for entries in (first.saturating_sub(reach(mean))..first).rev() {
            let next = PARTS.saturating_mul(entries.saturating_add(1));
            weight = weight.saturating_mul(next) / mean.max(1);
            self.add(weight, entries);
        }
    }

    /// The mean bytes of a sprig, in parts of 2^10.
    fn mean_bytes(&self) -> u64 {
        self.bytes / (self.weight >> 10).max(1)
    }
}
