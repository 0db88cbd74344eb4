// Commands on a digest, by the pass of its device.
ghost use Rattle.std.specs.Prelude.{◌≡◌, ◌≢◌, ◌≤◌, ◌^◌, Some};
ghost use Rattle.line_proto.specs.Lines.{IsInRange};
ghost use Rattle.node_replies.specs.Digests.{digest_of};
ghost use Rattle.turn_table.specs.Passes.{KeepsNumbers};
ghost use Rattle.live_node.specs.Opening.{IsOwn};
ghost use Rattle.live_node.specs.Lives.{opening_at, IsPassAt};
ghost use Rattle.live_store.specs.Known.{known_of};
ghost use Rattle.live_store.specs.Works.{RepliesOn};

use disk_model::Disk;
use line_proto::{Command, LineFault, Reply};
use live_node::{Live, LivePass};
use node_replies::{delete_reply, known_reply, read_reply, write_reply};
use rec_format::Digest;
use std::alloc::Global;
use std::sync::Wait;

// Carries out a command on a digest of the device. What is read of a payload takes the room.
pub(crate) fn act_on<D: Disk, R: Wait>(
    alloc: Global,
    room: &mut Vec<u8>,
    rt: &R,
    live: &Live<D>,
    pass: &mut LivePass<D>,
    command: &Command,
    digest: &Digest,
    now: u64,
) -> Reply
    requires pass { IsPassAt live.now pass.old }
    requires own { IsOwn (opening_at live.now) digest.now }
    requires time { now ≤ 2 ^ 61 }
    requires range { IsInRange command.now }
    requires on { digest_of command.now ≡ Some digest.now }
    ensures pass { IsPassAt live.now pass.new }
    ensures numbers { KeepsNumbers pass.old pass.new }
    ensures replies { RepliesOn D.view command.now now result (known_of live.now pass.old) (known_of live.now pass.new) }
    ensures goes_on { (result ≢ Reply.Halted) × (result ≢ Reply.Bye) × (result ≢ Reply.Fail LineFault.Mode) }
{
    match command {
        Command::Put {
            ttl,
            expect,
            payload,
            ..
        } => write_reply(live.put(
            alloc,
            rt,
            pass,
            digest,
            *ttl,
            payload.as_slice(),
            *expect,
            now,
        )),
        Command::Get(_) => read_reply(live.get_in(alloc, room, rt, pass, digest, now)),
        Command::Meta(_) => known_reply(live.meta(rt, pass, digest, now)),
        Command::Del(_) => delete_reply(live.delete(alloc, rt, pass, digest, now)),
        Command::Bury(_) => write_reply(live.bury(alloc, rt, pass, digest, now)),
        _ => unreachable!(),
    }
}
