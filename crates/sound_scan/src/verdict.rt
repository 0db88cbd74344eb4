// What an image is found to be.
ghost use Rattle.std.specs.Prelude.{◌≡◌, Bool};
ghost use Rattle.rec_format.specs.declared.version.Digest.{Digest};
ghost use Rattle.sound_scan.specs.Least.{lesser, is_found, IsLeast, IsFirst};

use rec_format::Digest;
use std::cmp::Ordering;

/// What an image is found to be: sound, or the least digest at which a rule fails, and the first rule that fails there, in this order.
#[derive(Clone, Copy, PartialEq, Eq)]
pub enum Verdict {
    /// No rule fails.
    Sound,
    /// There is a copy of this digest, which belongs to another device.
    Stray(Digest),
    /// Two of its copies have one stamp and differ.
    Twins(Digest),
    /// An uncovered put of it is later than a tombstone that is later than another copy.
    Bare(Digest),
}

/// The lesser of two digests; one that isn't there is above all.
pub(crate) fn least_of(a: Option<Digest>, b: Option<Digest>) -> Option<Digest>
    ensures { result ≡ lesser a b }
{
    match (a, b) {
        (Some(a), Some(b)) => match b.cmp(&a) {
            Ordering::Less => Some(b),
            Ordering::Equal | Ordering::Greater => Some(a),
        },
        (Some(a), None) => Some(a),
        (None, b) => b,
    }
}

/// Whether it is this digest.
pub(crate) fn is_found(found: Option<Digest>, digest: Digest) -> bool
    ensures { result ≡ is_found found digest }
{
    match found {
        Some(found) => matches!(found.cmp(&digest), Ordering::Equal),
        None => false,
    }
}

/// The verdict by the least digests at which each rule fails.
pub(crate) fn first_of(
    stray: Option<Digest>,
    twins: Option<Digest>,
    bare: Option<Digest>,
) -> Verdict
    ensures { (p q r : Digest → Bool) → IsLeast p stray → IsLeast q twins → IsLeast r bare → IsFirst p q r result }
{
    match least_of(least_of(stray, twins), bare) {
        None => Verdict::Sound,
        Some(least) if is_found(stray, least) => Verdict::Stray(least),
        Some(least) if is_found(twins, least) => Verdict::Twins(least),
        Some(least) => Verdict::Bare(least),
    }
}
