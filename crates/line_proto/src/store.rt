// What a session asks of a store.
ghost use Rattle.std.specs.Prelude.{◌≡◌, ◌≢◌, ◌≤◌, ◌^◌, ◌++◌, ℕ, true, false};
ghost use Rattle.line_proto.specs.Lines.{IsInRange, reply_text};
ghost use Rattle.line_proto.specs.declared.command.Command.{Command};
ghost use Rattle.line_proto.specs.declared.reply.Reply.{Reply};

use crate::{Command, Page, Reply};
use rec_format::Digest;
use std::alloc::Global;

/// What carries out commands, and is tended after each line. What a command and a tending do, also to what a crash
/// leaves, each store says.
pub trait Store: Drop {
    /// The store before a command, the command, its time in milliseconds, the reply, and the store after it.
    ghost acts: { Self → Command → ℕ → Reply → Self → Type 0 };

    /// The store before and after a tending.
    ghost tends: { Self → Self → Type 0 };

    /// Answers a command that was carried out at a time in milliseconds. `quit` isn't asked of it. Want of memory is
    /// a reply too.
    fn act(&mut self, alloc: Global, command: &Command, now: u64) -> Reply
        requires now { now ≤ 2 ^ 61 }
        requires command { IsInRange command.now }
        requires goes_on { command.now ≢ Command.Quit }
        ensures { acts self.old command.now now result self.new };

    /// Answers a command as `act` does. What is read of a payload takes the room that is lent, where the store has a use for it, so that no
    /// memory is asked for where that is enough.
    fn act_in(&mut self, alloc: Global, room: &mut Vec<u8>, command: &Command, now: u64) -> Reply
        requires now { now ≤ 2 ^ 61 }
        requires command { IsInRange command.now }
        requires goes_on { command.now ≢ Command.Quit }
        ensures { acts self.old command.now now result self.new }
    {
        let _ = room;
        self.act(alloc, command, now)
    }

    /// Prints the reply to a get behind the text of the page, and answers whether it did: a store may, that has the record in memory. Where it
    /// didn't, nothing was done, and `act_in` answers the get.
    fn print_get(&self, digest: &Digest, now: u64, page: &mut Page) -> bool
        requires now { now ≤ 2 ^ 61 }
        ensures printed { result ≡ true → (reply : Reply) × acts self.now (Command.Get digest.now) now reply self.now × (reply ≢ Reply.Halted) × (page.new ≡ page.old ++ reply_text reply) }
        ensures not { result ≡ false → page.new ≡ page.old }
    {
        let _ = digest;
        let _ = now;
        let _ = page;
        false
    }

    /// Does what is due after a line, whatever its reply.
    fn tend(&mut self, alloc: Global)
        ensures { tends self.old self.new };
}
