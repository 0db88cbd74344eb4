// The replies that wait to be handed on.
ghost use Rattle.std.specs.Prelude.{◌≡◌, ◌≢◌, ◌<◌, ◌≤◌, ◌^◌, [], ◌++◌, length, true, false, IsOk, OnOk, OnErr};
ghost use Rattle.model_faults.specs.Counts.{IsCaused};
ghost use Rattle.io_traits.specs.Sink.{AllHandedOn};
ghost use Rattle.line_proto.specs.declared.reply.Reply.{Reply};
ghost use Rattle.line_proto.specs.Lines.{reply_text};
ghost use Rattle.node_session.specs.HandedOn.{Sends, reply_room};

use io_traits::{Sink, SinkFault};
use line_proto::{Command, NoMemory, Page, Reply, Store, print_reply};
use std::alloc::Global;
use std::marker::Model;

// How many bytes are collected before they are handed on. A pipe of Linux takes 65,536 at once, so they fit in it with the reply that comes last, where that
// has at most 5,537; of replies to payloads of 10,000 bytes three fit.
const REPLY_ROOM: usize = 60_000;

// How much room is kept for later replies. Those with payloads of at most 32,700 bytes never take more.
const KEPT_ROOM: usize = 262_144;

/// The texts of replies, one behind the other, that are to be handed on together.
#[derive(Drop)]
pub struct Replies {
    page: Page,
}

impl Model for Replies {
    ghost use Rattle.std.specs.Prelude.{List, ℕ};

    ghost Value = { List ℕ };

    ghost view = { λ r. r.page };
}

impl Replies {
    /// No text yet, and no memory taken.
    pub fn new(alloc: Global) -> Self
        ensures { result ≡ [] }
    {
        Replies {
            page: Page::new(alloc),
        }
    }

    /// At `Ok` the text of the reply stands behind the others. An `Err` is want of memory, and changes nothing.
    pub fn add(&mut self, reply: &Reply) -> Result<(), NoMemory>
        requires { reply.now ≢ Reply.Halted }
        ensures ok { OnOk result (self.new ≡ self.old ++ reply_text reply.now) }
        ensures err { OnErr result (self.new ≡ self.old) }
    {
        print_reply(reply, &mut self.page)
    }

    /// Whether the store printed the reply to a command behind the others, as it may do to a get. Else nothing was done.
    pub fn print_by<T: Store>(&mut self, store: &T, command: &Command, now: u64) -> bool
        requires now { now ≤ 2 ^ 61 }
        ensures printed { result ≡ true → (reply : Reply) × T.acts store.now command.now now reply store.now × (reply ≢ Reply.Halted) × (self.new ≡ self.old ++ reply_text reply) }
        ensures not { result ≡ false → self.new ≡ self.old }
    {
        match command {
            Command::Get(digest) => store.print_get(digest, now, &mut self.page),
            _ => false,
        }
    }

    /// At `Ok` all of the text is written and the link flushed, and collecting begins anew, in the room that there is; where
    /// there was no text, nothing is done. After an `Err` a front of the text may be written, and the text stays.
    pub fn hand_on<K: Sink>(&mut self, link: &mut K) -> Result<(), SinkFault>
        ensures bytes { Sends self.old self.new (K.written link.old) (K.written link.new) result }
        ensures handed { OnOk result (AllHandedOn (K.written link.old) (K.written link.new) (K.handed link.old) (K.handed link.new)) }
        ensures ok { OnOk result (self.new ≡ []) }
        ensures err { OnErr result (self.new ≡ self.old) }
        ensures nothing { self.old ≡ [] → IsOk result × (link.new ≡ link.old) }
        ensures cause { IsCaused (K.sink_faults link.old) (K.sink_faults link.new) result }
        ensures left { K.left link.new ≡ K.left link.old }
        ensures taken { K.taken link.new ≡ K.taken link.old }
        ensures source_faults { K.source_faults link.new ≡ K.source_faults link.old }
    {
        if self.page.is_empty() {
            return Ok(());
        }
        send(link, self.page.text())?;
        self.page.clear(KEPT_ROOM);
        Ok(())
    }

    /// At `Ok` fewer than 60,000 bytes wait: where they were as many or more, all of the text was handed on, as by `hand_on`.
    pub fn make_room<K: Sink>(&mut self, link: &mut K) -> Result<(), SinkFault>
        ensures bytes { Sends self.old self.new (K.written link.old) (K.written link.new) result }
        ensures handed { OnOk result (AllHandedOn (K.written link.old) (K.written link.new) (K.handed link.old) (K.handed link.new)) }
        ensures ok { OnOk result (length self.new < reply_room) }
        ensures err { OnErr result (self.new ≡ self.old) }
        ensures room { length self.old < reply_room → IsOk result × (self.new ≡ self.old) × (link.new ≡ link.old) }
        ensures full { reply_room ≤ length self.old → OnOk result (self.new ≡ []) }
        ensures cause { IsCaused (K.sink_faults link.old) (K.sink_faults link.new) result }
        ensures left { K.left link.new ≡ K.left link.old }
        ensures taken { K.taken link.new ≡ K.taken link.old }
        ensures source_faults { K.source_faults link.new ≡ K.source_faults link.old }
    {
        if self.page.len() < REPLY_ROOM {
            return Ok(());
        }
        self.hand_on(link)
    }
}

/// At `Ok` all of the text is written, in as many calls as the sink wanted, and the sink is flushed. After an `Err` a front
/// of it may be written.
pub fn send<K: Sink>(link: &mut K, text: &[u8]) -> Result<(), SinkFault>
    ensures bytes { Sends text.now [] (K.written link.old) (K.written link.new) result }
    ensures handed { OnOk result (K.handed link.new ≡ K.written link.new) }
    ensures cause { IsCaused (K.sink_faults link.old) (K.sink_faults link.new) result }
    ensures left { K.left link.new ≡ K.left link.old }
    ensures taken { K.taken link.new ≡ K.taken link.old }
    ensures source_faults { K.source_faults link.new ≡ K.source_faults link.old }
{
    let mut rest = text;
    while !rest.is_empty() {
        let count = link.write_some(rest)?;
        if count == 0 {
            return Err(SinkFault);
        }
        rest = rest.split_at(count).1;
    }
    link.flush()
}
