// A command to its line.
ghost use Rattle.std.specs.Prelude.{◌≡◌, ◌++◌, ◌∷◌, [], OnOk, OnErr, IfOk};
ghost use Rattle.std.specs.String.{string_bytes};
ghost use Rattle.line_proto.specs.Lines.{IsCommandLine, HasLine, digest_text, data_text, expect_text, words_line, command_line, command_text};

use crate::{Command, NoMemory};
use rec_format::{Bytes, Digest};
use std::alloc::Global;

// The generation in decimal digits, and a star for none.
fn text_of_expect(alloc: Global, expect: Option<u16>) -> Result<String, NoMemory>
    ensures { IfOk result (λ text. string_bytes text ≡ expect_text expect) }
{
    match expect {
        None => String::from_str(alloc, "*"),
        Some(generation) => Ok(format!(in alloc; "{generation}")?),
    }
}

// At `Ok` the hex digits of the bytes in lower case, and a dash where there are no bytes. An `Err` is want of memory.
fn data_of_bytes(alloc: Global, bytes: &[u8]) -> Result<String, NoMemory>
    ensures { IfOk result (λ text. string_bytes text ≡ data_text bytes.now) }
{
    if bytes.is_empty() {
        String::from_str(alloc, "-")
    } else {
        hex_lanes::encode(alloc, bytes)
    }
}

fn put_text(
    alloc: Global,
    digest: &Digest,
    ttl: u32,
    expect: Option<u16>,
    payload: &Bytes,
) -> Result<String, NoMemory>
    ensures { IfOk result (λ text. string_bytes text ≡ command_text (Command.Put digest.now ttl expect payload.now)) }
{
    let digits = hex::encode(alloc, &digest.0)?;
    let expected = text_of_expect(alloc, expect)?;
    let data = data_of_bytes(alloc, payload.as_slice())?;
    Ok(format!(in alloc; "put {digits} {ttl} {expected} {data}\n")?)
}

// A word and a digest.
fn digest_line(alloc: Global, word: &str, digest: &Digest) -> Result<String, NoMemory>
    ensures { IfOk result (λ text. string_bytes text ≡ words_line (word.now ∷ digest_text digest.now ∷ []) ++ 10 ∷ []) }
{
    let digits = hex::encode(alloc, &digest.0)?;
    Ok(format!(in alloc; "{word} {digits}\n")?)
}

fn text_of_command(alloc: Global, command: &Command) -> Result<String, NoMemory>
    ensures { IfOk result (λ text. string_bytes text ≡ command_text command.now) }
{
    match command {
        Command::Put {
            digest,
            ttl,
            expect,
            payload,
        } => put_text(alloc, digest, *ttl, *expect, payload),
        Command::Get(digest) => digest_line(alloc, "get", digest),
        Command::Meta(digest) => digest_line(alloc, "meta", digest),
        Command::Del(digest) => digest_line(alloc, "del", digest),
        Command::Bury(digest) => digest_line(alloc, "bury", digest),
        Command::Flush => String::from_str(alloc, "flush\n"),
        Command::Heal => String::from_str(alloc, "heal\n"),
        Command::Defrag => String::from_str(alloc, "defrag\n"),
        Command::Expire => String::from_str(alloc, "expire\n"),
        Command::Raid => String::from_str(alloc, "raid\n"),
        Command::Stat => String::from_str(alloc, "stat\n"),
        Command::Restart => String::from_str(alloc, "restart\n"),
        Command::Quit => String::from_str(alloc, "quit\n"),
    }
}

/// At `Ok` the command's line, with its LF, stands behind what was in `out`. The line spells the command, so it is
/// read back as it. An `Err` is want of memory, and changes nothing.
pub fn print_command(alloc: Global, command: &Command, out: &mut Vec<u8>) -> Result<(), NoMemory>
    requires { HasLine command.now }
    ensures ok { OnOk result (out.new.items ≡ out.old.items ++ command_text command.now) }
    ensures err { OnErr result (out.new.items ≡ out.old.items) }
    ensures spells { IsCommandLine (command_line command.now) command.now }
{
    let text = text_of_command(alloc, command)?;
    out.extend_from_slice(text.as_bytes())
}
