//! Void times: from which second on a put is expired, and what of an entry a reader sees. An
//! expired entry is invisible before it is removed. Times are in milliseconds, void times in
//! seconds, 0 for never. No call takes memory. Void time and time to live are Aerospike's, by its
//! documentation.
#![tactic(auto)]

ghost use Rattle.std.specs.Prelude.{◌≡◌};
ghost use Rattle.std.specs.Option.{option_copied};
ghost use Rattle.rec_format.specs.Versions.{void_time, is_expired};
ghost use Rattle.expiry_rule.specs.Seen.{seen_entry, expired_entry};

use rec_format::{Entry, Kind};

/// The void time of a put with this lifetime in seconds, written at the time `now`: a lifetime of 0
/// has none.
pub fn void_of(ttl: u32, now: u64) -> u64
    ensures { result ≡ void_time ttl now }
{
    if ttl == 0 {
        0
    } else {
        now / 1000 + u64::from(ttl)
    }
}

/// Whether a put with this void time is expired at the time `now`: from the second `void` on.
pub fn expired(void: u64, now: u64) -> bool
    ensures { result ≡ is_expired now void }
{
    void != 0 && void <= now / 1000
}

/// The entry, where it is a put that isn't expired at the time `now`; else none, also for a
/// tombstone.
pub fn seen(entry: Option<&Entry>, now: u64) -> Option<&Entry>
    ensures { option_copied result ≡ seen_entry now (option_copied entry.entry) }
{
    entry.filter(|entry| entry.kind == Kind::Put && !expired(entry.void, now))
}

/// The entry, where it is a put that is expired at the time `now`. A tombstone never expires.
pub fn expired_put(entry: Option<&Entry>, now: u64) -> Option<&Entry>
    ensures { option_copied result ≡ expired_entry now (option_copied entry.entry) }
{
    entry.filter(|entry| entry.kind == Kind::Put && expired(entry.void, now))
}
