// A line to a command.
ghost use Rattle.std.specs.Prelude.{◌≡◌, ◌↔◌, List, ℕ, Option, Some, IfOk, IfSome, IsErr, MatchOption};
ghost use Rattle.line_proto.specs.Lines.{IsCommandLine, IsInRange, IsPutToData};
ghost use Rattle.line_proto.specs.Reading.{IsFour, IsAlone, IsDigestCommand, IsPutCommand, IsPutFront};
ghost use Rattle.line_proto.specs.declared.command.Command.{Command};

use crate::parts::{cut, data_of, digest_of, expect_of, number_of};
use crate::{Command, NoMemory};
use std::alloc::Global;

/// The most bytes of a line, its LF not counted.
pub const LINE_LIMIT: usize = 2_200_000;

// The longest time to live, in seconds.
const LONGEST_TTL: u64 = 315_360_000;

// Three words and what stands behind them.
fn words_of(text: &[u8]) -> Option<(&[u8], &[u8], &[u8], &[u8])>
    ensures { MatchOption result ((a b c d : List ℕ) → IsFour text.now a b c d → ⊥) (λ w. IsFour text.now w.0.now w.1.now w.2.now w.3.now) }
{
    let (digest, text) = cut(text, b' ')?;
    let (ttl, text) = cut(text, b' ')?;
    let (expect, data) = cut(text, b' ')?;
    Some((digest, ttl, expect, data))
}

// The command that is this one word.
fn alone_of(line: &[u8]) -> Option<Command>
    ensures { (command : Command) → (result ≡ Some command) ↔ IsAlone line.now command }
{
    if line == b"quit".as_slice() {
        return Some(Command::Quit);
    }
    if line == b"flush".as_slice() {
        return Some(Command::Flush);
    }
    if line == b"stat".as_slice() {
        return Some(Command::Stat);
    }
    if line == b"restart".as_slice() {
        return Some(Command::Restart);
    }
    if line == b"defrag".as_slice() {
        return Some(Command::Defrag);
    }
    if line == b"expire".as_slice() {
        return Some(Command::Expire);
    }
    if line == b"raid".as_slice() {
        return Some(Command::Raid);
    }
    if line == b"heal".as_slice() {
        return Some(Command::Heal);
    }
    None
}

// The command of one digest that this word asks for.
fn of_digest(word: &[u8], text: &[u8]) -> Option<Command>
    ensures { (command : Command) → (result ≡ Some command) ↔ IsDigestCommand word.now text.now command }
{
    let digest = digest_of(text)?;
    if word == b"get".as_slice() {
        return Some(Command::Get(digest));
    }
    if word == b"meta".as_slice() {
        return Some(Command::Meta(digest));
    }
    if word == b"del".as_slice() {
        return Some(Command::Del(digest));
    }
    if word == b"bury".as_slice() {
        return Some(Command::Bury(digest));
    }
    None
}

fn put_of(alloc: Global, text: &[u8], room: &mut Vec<u8>) -> Result<Option<Command>, NoMemory>
    ensures read { IfOk result (λ read. (command : Command) → (read ≡ Some command) ↔ IsPutCommand text.now command) }
    ensures memory { IsErr result → IsPutFront text.now }
{
    let Some((digest, ttl, expect, data)) = words_of(text) else {
        return Ok(None);
    };
    let Some(digest) = digest_of(digest) else {
        return Ok(None);
    };
    let Some(ttl) = number_of(ttl, LONGEST_TTL) else {
        return Ok(None);
    };
    let Some(expect) = expect_of(expect) else {
        return Ok(None);
    };
    let Some(payload) = data_of(alloc, data, room)? else {
        return Ok(None);
    };
    let ttl = ttl as u32;
    Ok(Some(Command::Put {
        digest,
        ttl,
        expect,
        payload,
    }))
}

/// At `Ok` the command that a line asks for, its LF not counted; none exactly where the line asks for no command: it
/// is outside the grammar or too long. An `Err` is want of memory for the data of a put; no other line takes any.
pub fn read_command(alloc: Global, line: &[u8]) -> Result<Option<Command>, NoMemory>
    ensures exact { IfOk result (λ read. (command : Command) → (read ≡ Some command) ↔ IsCommandLine line.now command) }
    ensures memory { IsErr result → IsPutToData line.now }
    ensures in_range { IfOk result (λ read. IfSome read IsInRange) }
{
    let mut room = Vec::new(alloc);
    read_command_in(alloc, line, &mut room)
}

/// As `read_command`, and the data of a put stand in this room, which the command takes with it: memory is asked for only where
/// they don't fit. What stood in the room is of no matter, and what stands in it behind the call neither.
pub fn read_command_in(
    alloc: Global,
    line: &[u8],
    room: &mut Vec<u8>,
) -> Result<Option<Command>, NoMemory>
    ensures exact { IfOk result (λ read. (command : Command) → (read ≡ Some command) ↔ IsCommandLine line.now command) }
    ensures memory { IsErr result → IsPutToData line.now }
    ensures in_range { IfOk result (λ read. IfSome read IsInRange) }
{
    if line.len() > LINE_LIMIT {
        return Ok(None);
    }
    let Some((word, text)) = cut(line, b' ') else {
        return Ok(alone_of(line));
    };
    if word == b"put".as_slice() {
        return put_of(alloc, text, room);
    }
    Ok(of_digest(word, text))
}
