// What is known of all copies, gone through in the order of digests and stamps.
ghost use Rattle.std.specs.Prelude.{ℕ, List};
ghost use Rattle.block_format.specs.declared.geometry.Geometry.{Geometry};
ghost use Rattle.block_format.specs.Copies.{Copy};
ghost use Rattle.sound_scan.specs.Least.{IsLeast};
ghost use Rattle.sound_scan.specs.Tallied.{has_bare_in, HasPast};

use crate::tally::{Past, Stamped};
use crate::verdict::is_found;
use rec_format::Digest;
use std::collections::BTreeMap;

/// The least digest of which an uncovered put is later than a tombstone that is later than another copy.
pub(crate) fn least_bare(past: &BTreeMap<Stamped, Past>) -> Option<Digest>
    ensures { (g : Geometry) (bytes : List ℕ) (copies : List Copy) → HasPast g bytes copies past.now → IsLeast (has_bare_in copies) result }
{
    let mut last = None;
    // Whether a tombstone of the last digest is later than another of its copies.
    let mut behind = false;
    for (name, known) in past.iter() {
        let again = is_found(last, name.digest);
        if again && behind && known.uncovered {
            return Some(name.digest);
        }
        behind = again && (behind || known.tombstone);
        last = Some(name.digest);
    }
    None
}
