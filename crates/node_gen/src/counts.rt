// How many replies there were.
ghost use Rattle.std.specs.Prelude.{◌≡◌, ◌+◌, List, ℕ, [], bytes_eq, codes, if◌then◌else◌};
ghost use Rattle.node_gen.specs.Replies.{capped, first_word, counts_of, one_more_of};

/// The lines of a stream of replies, in all and by their first words. Each stops at the greatest `u64`.
#[derive(Clone, Copy, Debug, PartialEq, Eq, Drop)]
pub struct ReplyCounts {
    pub lines: u64,
    pub ok: u64,
    pub gone: u64,
    pub val: u64,
    pub none: u64,
    pub bye: u64,
    pub err: u64,
}

// A count, and one more where this is so.
fn raised(count: u64, more: bool) -> u64
    ensures { result ≡ capped (count + (if more then 1 else 0)) }
{
    count.saturating_add(u64::from(more))
}

impl ReplyCounts {
    /// Those of no line.
    pub(crate) fn none_yet() -> Self
        ensures { result ≡ counts_of [] }
    {
        ReplyCounts {
            lines: 0,
            ok: 0,
            gone: 0,
            val: 0,
            none: 0,
            bye: 0,
            err: 0,
        }
    }

    /// Those with one line more, which has this first word.
    pub(crate) fn and(self, word: &[u8]) -> Self
        ensures { result ≡ one_more_of word.now self }
    {
        ReplyCounts {
            lines: raised(self.lines, true),
            ok: raised(self.ok, word == b"ok".as_slice()),
            gone: raised(self.gone, word == b"gone".as_slice()),
            val: raised(self.val, word == b"val".as_slice()),
            none: raised(self.none, word == b"none".as_slice()),
            bye: raised(self.bye, word == b"bye".as_slice()),
            err: raised(self.err, word == b"err".as_slice()),
        }
    }
}
