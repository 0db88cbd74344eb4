// One line's turn.
ghost use Rattle.std.specs.Prelude.{◌≡◌, ◌⊎◌, List, ℕ, ◌++◌, IfNone, IfSome, option_map};
ghost use Rattle.line_proto.specs.declared.reply.Reply.{Reply};
ghost use Rattle.line_proto.specs.Lines.{reply_text};
ghost use Rattle.line_proto.specs.Stream.{as_end};
ghost use Rattle.node_session.specs.Turns.{WholeTurn, StopsAtLine};
ghost use Rattle.node_session.specs.Answering.{IsAnswered};
ghost use Rattle.node_session.specs.declared.stop.Stop.{Stop};

use crate::replies::Replies;
use crate::stop::Stop;
use io_traits::Clock;
use line_proto::{Command, LineFault, Reply, Store, read_command_in};
use std::alloc::Global;

const LATEST: u64 = 1 << 61;

/// How much room for the payload of a put or a get is kept for later ones.
const KEPT_ROOM: usize = 262_144;

/// How a line was answered.
#[derive(Drop)]
enum Answered {
    /// The store printed the reply, which waits with the others.
    Printed,
    /// This is the reply, which is still to be printed.
    Unprinted(Reply),
    /// The line was `quit`, and the farewell is still to be printed.
    Quit,
}

/// Answers a line, which is none where it is too long. The data of a put stand in the room meanwhile, and what is read of a payload takes it.
fn answer<T: Store, C: Clock>(
    alloc: Global,
    store: &mut T,
    clock: &mut C,
    line: Option<&[u8]>,
    room: &mut Vec<u8>,
    replies: &mut Replies,
) -> Answered
    ensures { IsAnswered T.acts (as_end (option_map (λ bytes. bytes.now) line.entry)) store.old (C.times clock.old) replies.old result store.new (C.times clock.new) replies.new }
{
    let Some(bytes) = line else {
        return Answered::Unprinted(Reply::Fail(LineFault::Line));
    };
    match read_command_in(alloc, bytes, room) {
        Err(_) => Answered::Unprinted(Reply::Fail(LineFault::Memory)),
        Ok(None) => Answered::Unprinted(Reply::Fail(LineFault::Line)),
        Ok(Some(command)) => {
            let now = clock.now_ms().min(LATEST);
            if let Command::Quit = command {
                return Answered::Quit;
            }
            if replies.print_by(store, &command, now) {
                return Answered::Printed;
            }
            let reply = store.act_in(alloc, room, &command, now);
            take_back(command, room);
            Answered::Unprinted(reply)
        }
    }
}

/// The room that a payload took becomes room for later ones, where it is more, and isn't more than is kept.
fn keep_room(data: Vec<u8>, room: &mut Vec<u8>) {
    if room.capacity() < data.capacity() && data.capacity() <= KEPT_ROOM {
        *room = data;
    }
}

/// Keeps the room of the data of a put.
fn take_back(command: Command, room: &mut Vec<u8>) {
    if let Command::Put { payload, .. } = command {
        keep_room(payload.into_vec(), room);
    }
}

/// Keeps the room of a payload that was read.
fn take_back_read(reply: Reply, room: &mut Vec<u8>) {
    if let Reply::Val { payload, .. } = reply {
        keep_room(payload.into_vec(), room);
    }
}

/// At `None` the line was answered, the reply waits with the others, the store was tended, and the session goes on; else it
/// stops at this line, and why it does is answered.
pub fn turn<T: Store, C: Clock>(
    alloc: Global,
    store: &mut T,
    clock: &mut C,
    line: Option<&[u8]>,
    room: &mut Vec<u8>,
    replies: &mut Replies,
) -> Option<Stop>
    ensures done { IfNone result ((reply : Reply)
        × WholeTurn T.acts T.tends (as_end (option_map (λ bytes. bytes.now) line.entry)) store.old (C.times clock.old) reply store.new (C.times clock.new)
        × (replies.new ≡ replies.old ++ reply_text reply)) }
    ensures stopped { IfSome result (λ stop. (last : List ℕ)
        × StopsAtLine T.acts T.tends (as_end (option_map (λ bytes. bytes.now) line.entry)) store.old (C.times clock.old) last store.new (C.times clock.new) stop
        × (replies.new ≡ replies.old ++ last)) }
{
    let reply = match answer(alloc, store, clock, line, room, replies) {
        Answered::Printed => {
            store.tend(alloc);
            return None;
        }
        Answered::Quit => return Some(farewell(replies)),
        Answered::Unprinted(Reply::Halted) => return Some(Stop::Halted),
        Answered::Unprinted(reply) => reply,
    };
    let added = replies.add(&reply);
    take_back_read(reply, room);
    store.tend(alloc);
    if added.is_err() {
        return Some(Stop::Memory);
    }
    None
}

/// Takes the farewell up with the replies, and answers why the session stops.
fn farewell(replies: &mut Replies) -> Stop
    ensures { ((result ≡ Stop.Quit) × (replies.new ≡ replies.old ++ reply_text Reply.Bye)) ⊎ ((result ≡ Stop.Memory) × (replies.new ≡ replies.old)) }
{
    match replies.add(&Reply::Bye) {
        Ok(()) => Stop::Quit,
        Err(_) => Stop::Memory,
    }
}
