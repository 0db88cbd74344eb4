// The stamp of the next version of a record.
ghost use Rattle.std.specs.Prelude.{◌≡◌, ◌+◌, ◌<◌, None, Some, IfOk, OnErr, IfSome, IfNone};
ghost use Rattle.rec_format.specs.Versions.{new_stamp};

use crate::version::{Spent, Stamp};

/// Times, in milliseconds, end here.
pub(crate) const TOP_TIME: u64 = 1 << 62;

/// At `Ok` the stamp of the next version, a last update time in milliseconds and a generation: after `prior` the time
/// never falls and the generation rises, and where the generations are used up the time rises and they start again at
/// 1; without a prior entry the time is above `hw`, the greatest that the record's sprig has given or found. `now` is
/// the clock, in milliseconds. `Spent` comes exactly where the time would pass 2^62.
pub fn next_stamp(prior: Option<Stamp>, hw: u64, now: u64) -> Result<Stamp, Spent>
    ensures stamp { IfOk result (λ s. new_stamp prior hw now ≡ Some s) }
    ensures spent { OnErr result (new_stamp prior hw now ≡ None) }
{
    let stamp = match prior {
        Some(Stamp { lut, gen_ }) if gen_ < u16::MAX => Stamp {
            lut: now.max(lut),
            gen_: gen_ + 1,
        },
        Some(Stamp { lut, .. }) => Stamp {
            lut: now.max(lut.saturating_add(1)),
            gen_: 1,
        },
        None => Stamp {
            lut: now.max(hw.saturating_add(1)),
            gen_: 1,
        },
    };
    if stamp.lut <= TOP_TIME {
        Ok(stamp)
    } else {
        Err(Spent)
    }
}
