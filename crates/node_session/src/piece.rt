// The turns of the lines that a piece of the input ends.
ghost use Rattle.std.specs.Prelude.{◌≡◌, ◌+◌, ◌<◌, ◌≤◌, ◌^◌, List, ℕ, [], length, IsErr, OnOk};
ghost use Rattle.model_faults.specs.Counts.{IsCaused};
ghost use Rattle.io_traits.specs.Sink.{Extends, AllHandedOn};
ghost use Rattle.line_proto.specs.Lines.{line_limit};
ghost use Rattle.line_proto.specs.Stream.{ends_of, open_of, kept_of};
ghost use Rattle.node_session.specs.HandedOn.{FallsShort};
ghost use Rattle.node_session.specs.Turns.{HasTurns, GoesThrough, StopsAmong, ServesSome};
ghost use Rattle.node_session.specs.declared.stop.Stop.{Stop};
ghost use Rattle.node_session.specs.declared.piece.Served.TheVariants.{All, StoppedAt, NoMemory};

use crate::replies::Replies;
use crate::stop::Stop;
use crate::turn::turn;
use io_traits::{Clock, Sink, SinkFault};
use line_proto::{OpenLine, Store, cut};
use std::alloc::Global;

/// How far the lines of a piece came.
#[derive(Clone, Copy, Debug, PartialEq, Eq)]
pub enum Served {
    /// Each line had its turn, and what stands behind the last LF is kept.
    All,
    /// The session stops at the last line that had its turn.
    StoppedAt(Stop),
    /// There was no memory for what has to be kept of a line. Those before it had their turns.
    NoMemory,
}

/// The lines that the piece ends have their turns, in order: the first goes on with the open line, and each that lies whole in
/// the piece is read where it lies. No reply waits then. An `Err` is a fault of the sink: a front of the replies may be written.
/// The replies are collected in `replies`, where none waits before, and handed on together.
pub fn serve_piece<T: Store, L: Sink, C: Clock>(
    alloc: Global,
    store: &mut T,
    link: &mut L,
    clock: &mut C,
    tail: &mut OpenLine,
    piece: &[u8],
    room: &mut Vec<u8>,
    replies: &mut Replies,
    answered: &mut u64,
) -> Result<Served, SinkFault>
    requires fits { answered.old + length (ends_of tail.old piece.now) < 2 ^ 64 }
    requires kept { length tail.old ≤ line_limit + 1 }
    requires none_waits { replies.old ≡ [] }
    ensures done { result ≡ Ok All → (output : List ℕ)
        × HasTurns T.acts T.tends (ends_of tail.old piece.now) store.old (C.times clock.old) output store.new (C.times clock.new)
        × Extends (L.written link.old) (L.written link.new) output }
    ensures counted { result ≡ Ok All → answered.new ≡ answered.old + length (ends_of tail.old piece.now) }
    ensures tail { result ≡ Ok All → tail.new ≡ kept_of (open_of tail.old piece.now) }
    ensures stopped { (stop : Stop) → result ≡ Ok (StoppedAt stop) → (output : List ℕ) × (count : ℕ)
        × StopsAmong T.acts T.tends (ends_of tail.old piece.now) count store.old (C.times clock.old) output store.new (C.times clock.new) stop
        × Extends (L.written link.old) (L.written link.new) output
        × (answered.new ≡ answered.old + count) }
    ensures memory { result ≡ Ok NoMemory → (output : List ℕ)
        × GoesThrough T.acts T.tends (ends_of tail.old piece.now) store.old (C.times clock.old) output store.new (C.times clock.new)
        × Extends (L.written link.old) (L.written link.new) output }
    ensures failed { IsErr result → (text : List ℕ) × (output : List ℕ) × FallsShort text output
        × ServesSome T.acts T.tends (ends_of tail.old piece.now) store.old (C.times clock.old) text store.new (C.times clock.new)
        × Extends (L.written link.old) (L.written link.new) output }
    ensures none_waits { OnOk result (replies.new ≡ []) }
    ensures handed { OnOk result (AllHandedOn (L.written link.old) (L.written link.new) (L.handed link.old) (L.handed link.new)) }
    ensures cause { IsCaused (L.sink_faults link.old) (L.sink_faults link.new) result }
    ensures left { L.left link.new ≡ L.left link.old }
    ensures taken { L.taken link.new ≡ L.taken link.old }
    ensures source_faults { L.source_faults link.new ≡ L.source_faults link.old }
{
    let mut rest = piece;
    while let Some((last, after)) = cut(rest, b'\n') {
        if tail.join(last).is_err() {
            replies.hand_on(link)?;
            return Ok(Served::NoMemory);
        }
        if let Some(stop) = turn(alloc, store, clock, tail.lend(last), room, replies) {
            replies.hand_on(link)?;
            return Ok(Served::StoppedAt(stop));
        }
        tail.clear();
        *answered += 1;
        replies.make_room(link)?;
        rest = after;
    }
    replies.hand_on(link)?;
    match tail.go_on(rest) {
        Ok(()) => Ok(Served::All),
        Err(_) => Ok(Served::NoMemory),
    }
}
