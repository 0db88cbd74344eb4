// The loop over the input.
ghost use Rattle.std.specs.Prelude.{◌≡◌, ◌≢◌, ◌⊎◌, ◌+◌, ◌<◌, ◌≤◌, ◌^◌, ◌++◌, List, ℕ, [], length, IfOk, IsErrOf};
ghost use Rattle.model_faults.specs.Counts.{Rose};
ghost use Rattle.io_traits.specs.Source.{Shortens, IsAtEnd};
ghost use Rattle.io_traits.specs.Sink.{Extends, AllHandedOn};
ghost use Rattle.node_session.specs.HandedOn.{FallsShort};
ghost use Rattle.node_session.specs.declared.ended.Ended.{Ended};
ghost use Rattle.node_session.specs.Session.{Ran, EndsAtRest, ended_of};

use crate::ended::Ended;
use crate::piece::{Served, serve_piece};
use crate::replies::Replies;
use crate::stop::Stop;
use crate::turn::turn;
use io_traits::{Clock, Sink, SinkFault, Source};
use line_proto::{OpenLine, Store};
use std::alloc::Global;

// How many bytes of the input are taken at once.
const PIECE: usize = 65_536;

fn end_of(stop: Stop, answered: u64) -> Ended
    requires { answered + 1 < 2 ^ 64 }
    ensures { result ≡ ended_of stop answered }
{
    match stop {
        Stop::Quit => Ended::Quit {
            lines: answered + 1,
        },
        Stop::Memory => Ended::Memory,
        Stop::Halted => Ended::Halted,
    }
}

// The rest without LF at the end of the input is the last line. It has its turn, and its reply is handed on.
fn serve_rest<T: Store, L: Sink, C: Clock>(
    alloc: Global,
    store: &mut T,
    link: &mut L,
    clock: &mut C,
    replies: &mut Replies,
    answered: u64,
) -> Ended
    requires fits { answered + 1 < 2 ^ 64 }
    requires none_waits { replies.old ≡ [] }
    ensures ends { (text : List ℕ) × (output : List ℕ) × (ended : Ended)
        × EndsAtRest T.acts T.tends answered store.old (C.times clock.old) text store.new (C.times clock.new) ended
        × Extends (L.written link.old) (L.written link.new) output
        × (((result ≡ ended) × (output ≡ text)) ⊎ ((result ≡ Ended.SinkFault) × FallsShort text output)) }
    ensures handed { result ≢ Ended.SinkFault → AllHandedOn (L.written link.old) (L.written link.new) (L.handed link.old) (L.handed link.new) }
    ensures cause { result ≡ Ended.SinkFault → Rose (L.sink_faults link.old) (L.sink_faults link.new) }
    ensures later { L.sink_faults link.old ≤ L.sink_faults link.new }
    ensures left { L.left link.new ≡ L.left link.old }
    ensures taken { L.taken link.new ≡ L.taken link.old }
    ensures source_faults { L.source_faults link.new ≡ L.source_faults link.old }
{
    let mut room = Vec::new(alloc);
    let stopped = turn(alloc, store, clock, None, &mut room, replies);
    if replies.hand_on(link).is_err() {
        return Ended::SinkFault;
    }
    match stopped {
        Some(stop) => end_of(stop, answered),
        None => Ended::Finish {
            lines: answered + 1,
        },
    }
}

// Carries out the lines of the link's source, which are taken through the buffer.
fn serve<T: Store, L: Source + Sink, C: Clock>(
    alloc: Global,
    store: &mut T,
    link: &mut L,
    clock: &mut C,
    limit: u64,
    buffer: &mut [u8],
) -> Ended
    requires { 0 < length buffer.old }
    ensures run { Ran T.acts T.tends limit (L.taken link.old) (L.taken link.new) (L.left link.old) (L.left link.new)
        (L.written link.old) (L.written link.new) store.old store.new (C.times clock.old) (C.times clock.new) result }
    ensures none_waits { result ≡ Ended.SourceFault → (at : L) × (L.source_faults at ≡ L.source_faults link.old)
        × (L.taken at ≡ L.taken link.new) × (L.written at ≡ L.written link.new)
        × AllHandedOn (L.written link.old) (L.written at) (L.handed link.old) (L.handed at) }
    ensures none_passed_over { result ≢ Ended.SourceFault → L.source_faults link.new ≡ L.source_faults link.old }
    ensures handed { result ≢ Ended.SinkFault → AllHandedOn (L.written link.old) (L.written link.new) (L.handed link.old) (L.handed link.new) }
    ensures source_fault { result ≡ Ended.SourceFault → Rose (L.source_faults link.old) (L.source_faults link.new) }
    ensures sink_fault { result ≡ Ended.SinkFault → Rose (L.sink_faults link.old) (L.sink_faults link.new) }
    ensures source_later { L.source_faults link.old ≤ L.source_faults link.new }
    ensures sink_later { L.sink_faults link.old ≤ L.sink_faults link.new }
{
    let mut tail = OpenLine::new(alloc);
    let mut data_room = Vec::new(alloc);
    let mut replies = Replies::new(alloc);
    let mut answered = 0;
    let mut taken = 0;
    while taken < limit {
        let room = (limit - taken).min(buffer.len() as u64) as usize;
        let Ok(count) = link.read_some(&mut buffer[..room]) else {
            return Ended::SourceFault;
        };
        if count == 0 {
            if tail.is_empty() {
                return Ended::Finish { lines: answered };
            }
            return serve_rest(alloc, store, link, clock, &mut replies, answered);
        }
        taken += count as u64;
        match serve_piece(
            alloc,
            store,
            link,
            clock,
            &mut tail,
            &buffer[..count],
            &mut data_room,
            &mut replies,
            &mut answered,
        ) {
            Ok(Served::All) => {}
            Ok(Served::StoppedAt(stop)) => return end_of(stop, answered),
            Ok(Served::NoMemory) => return Ended::Memory,
            Err(SinkFault) => return Ended::SinkFault,
        }
    }
    Ended::Long { taken }
}

/// Answers how the session ended: the lines of the link's source were carried out until it ended, `quit` came, the store
/// halted, a fault or want of memory stopped it, or `limit` bytes were taken. Each line is answered in order, and the store
/// is tended after each line but `quit` and one that it halted at, also where the reply could not be printed. The replies are
/// handed on together, which is that they are written and the link is flushed: before more is read, at the end, and as soon
/// as they have 60,000 bytes.
pub fn session<T: Store, L: Source + Sink, C: Clock>(
    alloc: Global,
    store: &mut T,
    link: &mut L,
    clock: &mut C,
    limit: u64,
) -> Ended
    // The output follows from the bytes taken, through the store and the clock.
    ensures run { Ran T.acts T.tends limit (L.taken link.old) (L.taken link.new) (L.left link.old) (L.left link.new)
        (L.written link.old) (L.written link.new) store.old store.new (C.times clock.old) (C.times clock.new) result }

    // No reply waits while more is read. A read may fail at any time, and no fault of the source is passed over; where one comes,
    // all was written and handed on at a moment before it.
    ensures none_waits { result ≡ Ended.SourceFault → (at : L) × (L.source_faults at ≡ L.source_faults link.old)
        × (L.taken at ≡ L.taken link.new) × (L.written at ≡ L.written link.new)
        × AllHandedOn (L.written link.old) (L.written at) (L.handed link.old) (L.handed at) }
    ensures none_passed_over { result ≢ Ended.SourceFault → L.source_faults link.new ≡ L.source_faults link.old }

    // However it ends, but at a fault of the sink, nothing that was written waits for a flush.
    ensures handed { result ≢ Ended.SinkFault → AllHandedOn (L.written link.old) (L.written link.new) (L.handed link.old) (L.handed link.new) }

    // It doesn't give up by itself.
    ensures source_fault { result ≡ Ended.SourceFault → Rose (L.source_faults link.old) (L.source_faults link.new) }
    ensures sink_fault { result ≡ Ended.SinkFault → Rose (L.sink_faults link.old) (L.sink_faults link.new) }

    ensures source_later { L.source_faults link.old ≤ L.source_faults link.new }
    ensures sink_later { L.sink_faults link.old ≤ L.sink_faults link.new }
{
    let Ok(mut buffer) = vec![in alloc; 0; PIECE] else {
        return Ended::Memory;
    };
    serve(alloc, store, link, clock, limit, &mut buffer)
}
