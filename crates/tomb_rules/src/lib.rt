//! Decisions on covers and tombstones, each from one entry of the index. A covered entry may have
//! an older copy behind it on the device, which a removal from the index alone would bring back at
//! a cold start. No call takes memory. Tombstones of durable deletes, and a tomb raider that takes
//! them away after an age, are Aerospike's, by its documentation.
#![tactic(auto)]

ghost use Rattle.std.specs.Prelude.{◌≡◌};
ghost use Rattle.std.specs.Option.{option_copied};
ghost use Rattle.rec_format.specs.Versions.{is_later_stamp};
ghost use Rattle.tomb_rules.specs.Covers.{cover_of, is_eligible_entry};

use rec_format::{Entry, Kind, Stamp};

/// The cover flag of a put that takes the place of this entry: the entry's own, and clear where
/// there is none.
pub fn cover_after(prior: Option<&Entry>) -> bool
    ensures { result ≡ cover_of (option_copied prior.entry) }
{
    prior.is_some_and(|entry| entry.cover)
}

/// Whether an ordinary delete or an expiry of the entry is carried out as a tombstone. Else it
/// removes the entry alone and writes nothing.
pub fn delete_writes(entry: &Entry) -> bool
    ensures { result ≡ entry.now.cover }
{
    entry.cover
}

/// Whether a raid marks the entry: a tombstone of at least `age` seconds at the time `now`, in
/// milliseconds, or a covered put of any age.
pub fn eligible(entry: &Entry, age: u64, now: u64) -> bool
    ensures { result ≡ is_eligible_entry age now entry.now }
{
    match entry.kind {
        // In this form nothing overflows, whatever the three numbers are.
        Kind::Tomb => entry.stamp.lut <= now && age <= (now - entry.stamp.lut) / 1000,
        Kind::Put => entry.cover,
    }
}

/// Whether a copy that a raid found is earlier than the entry, which then stays as it is.
pub fn older(found: Stamp, entry: &Entry) -> bool
    ensures { result ≡ is_later_stamp entry.now.stamp found }
{
    found < entry.stamp
}
