// A link is served.
ghost use Rattle.std.specs.Prelude.{◌≡◌, ◌≢◌, ◌≤◌};
ghost use Rattle.model_faults.specs.Counts.{Rose};
ghost use Rattle.io_traits.specs.Sink.{AllHandedOn};
ghost use Rattle.live_store.specs.Known.{KeepNumbers};
ghost use Rattle.live_store.specs.Stores.{known_by, lives_of, passes_of};
ghost use Rattle.live_session.specs.Sessions.{IsServed};

use disk_model::Disk;
use io_traits::{Clock, Sink, Source};
use live_store::LiveStore;
use node_session::{Ended, session};
use std::alloc::Global;
use std::sync::Wait;

/// Answers how the session ended: the lines of the link's source were carried out on the devices of the store until it ended, `quit` came,
/// a fault or want of memory stopped it, or `limit` bytes were taken. Each line is answered in order, at a time of the clock that is
/// bounded by 2^61, by calls with the store's own passes, and its reply is theirs: what is written is the front of the replies, and all of
/// them where the input ended or `quit` came. The events that a line made stand in the devices' lists as those of the store's passes, in
/// the order of the lines; events of others may come between any two. It never halts.
pub fn serve_link<'a, D: Disk, R: Wait, L: Source + Sink, C: Clock>(
    alloc: Global,
    store: &mut LiveStore<'a, D, R>,
    link: &mut L,
    clock: &mut C,
    limit: u64,
) -> Ended
    ensures served { IsServed D.view limit (L.taken link.old) (L.taken link.new) (L.left link.old) (L.left link.new) (L.written link.old) (L.written link.new)
        (known_by store.old) (C.times clock.old) (known_by store.new) (C.times clock.new) result }

    // It has the same devices, and its passes their numbers.
    ensures lives { lives_of store.new ≡ lives_of store.old }
    ensures numbers { KeepNumbers (passes_of store.old) (passes_of store.new) }

    // No reply waits while more is read. A read may fail at any time, and no fault of the source is passed over; where one comes,
    // all was written and handed on at a moment before it.
    ensures none_waits { result ≡ Ended.SourceFault → (at : L) × (L.source_faults at ≡ L.source_faults link.old)
        × (L.taken at ≡ L.taken link.new) × (L.written at ≡ L.written link.new)
        × AllHandedOn (L.written link.old) (L.written at) (L.handed link.old) (L.handed at) }
    ensures none_passed_over { result ≢ Ended.SourceFault → L.source_faults link.new ≡ L.source_faults link.old }

    // However it ends, but at a fault of the sink, nothing that was written waits for a flush.
    ensures handed { result ≢ Ended.SinkFault → AllHandedOn (L.written link.old) (L.written link.new) (L.handed link.old) (L.handed link.new) }

    // It doesn't give up by itself.
    ensures source_fault { result ≡ Ended.SourceFault → Rose (L.source_faults link.old) (L.source_faults link.new) }
    ensures sink_fault { result ≡ Ended.SinkFault → Rose (L.sink_faults link.old) (L.sink_faults link.new) }
    ensures source_later { L.source_faults link.old ≤ L.source_faults link.new }
    ensures sink_later { L.sink_faults link.old ≤ L.sink_faults link.new }
{
    session(alloc, store, link, clock, limit)
}
