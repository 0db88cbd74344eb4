// The numbers of several devices together.
ghost use Rattle.std.specs.Prelude.{◌≡◌};
ghost use Rattle.node_replies.specs.Counts.{wrapped_sum};

use rec_format::Counts;

/// The numbers of no device.
pub const NO_COUNTS: Counts = Counts {
    records: 0,
    tombstones: 0,
    covered: 0,
    free: 0,
    pending: 0,
    queued: 0,
    held: 0,
};

/// The sums of the numbers, each of which goes around at 2^64.
pub fn plus(sum: Counts, more: Counts) -> Counts
    ensures { result ≡ wrapped_sum sum more }
{
    Counts {
        records: sum.records.wrapping_add(more.records),
        tombstones: sum.tombstones.wrapping_add(more.tombstones),
        covered: sum.covered.wrapping_add(more.covered),
        free: sum.free.wrapping_add(more.free),
        pending: sum.pending.wrapping_add(more.pending),
        queued: sum.queued.wrapping_add(more.queued),
        held: sum.held.wrapping_add(more.held),
    }
}
