// The commands on one digest.
ghost use Rattle.std.specs.Prelude.{◌≡◌, option_map};
ghost use Rattle.node_replies.specs.Digests.{digest_of};

use line_proto::Command;
use rec_format::Digest;

/// The digest that a command is on.
pub fn digest_of<'a>(command: &'a Command) -> Option<&'a Digest>
    ensures { option_map (λ digest. digest.now) result ≡ digest_of command.now }
{
    match command {
        Command::Put { digest, .. }
        | Command::Get(digest)
        | Command::Meta(digest)
        | Command::Del(digest)
        | Command::Bury(digest) => Some(digest),
        _ => None,
    }
}
