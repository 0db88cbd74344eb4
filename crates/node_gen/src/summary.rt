// The line that sums a run up.
ghost use Rattle.std.specs.Prelude.{◌≡◌, ◌≤◌, ◌+◌, ◌∷◌, ◌++◌, [], decimal, length};
ghost use Rattle.node_gen.specs.Summary.{summary};

use crate::counts::ReplyCounts;
use arrayvec::ArrayString;
use itoa::Buffer;
use std::marker::Model;

// The most bytes that a summary has.
const ROOM: usize = 254;

// A word and a number behind the text, each with a space in front of it.
fn push_count(text: &mut ArrayString<ROOM>, word: &str, count: u64)
    requires { length text.old.bytes + length word.now + 22 ≤ ROOM }
    ensures bytes { text.new.bytes ≡ text.old.bytes ++ 32 ∷ (word.now ++ 32 ∷ decimal count) }
    ensures len { length text.new.bytes ≤ length text.old.bytes + length word.now + 22 }
{
    let mut digits = Buffer::new();
    text.push_str(" ");
    text.push_str(word);
    text.push_str(" ");
    text.push_str(digits.format(count));
}

/// What a run over a script came to, a line with its LF.
#[derive(Drop)]
pub struct Summary {
    text: ArrayString<ROOM>,
}

impl Model for Summary {
    ghost use Rattle.std.specs.Prelude.{List, ℕ};

    ghost Value = { List ℕ };

    ghost view = { λ s. s.text.bytes };
}

impl Summary {
    /// For a script of so many records, with the counts of its replies, and the records and tombstones that are left.
    pub fn new(count: u32, replies: &ReplyCounts, records: u64, tombstones: u64) -> Self
        ensures { result ≡ summary count replies.now records tombstones ++ 10 ∷ [] }
    {
        let mut digits = Buffer::new();
        let mut text = ArrayString::new();
        text.push_str("gen ");
        text.push_str(digits.format(count));
        push_count(&mut text, "lines", replies.lines);
        push_count(&mut text, "ok", replies.ok);
        push_count(&mut text, "gone", replies.gone);
        push_count(&mut text, "val", replies.val);
        push_count(&mut text, "none", replies.none);
        push_count(&mut text, "bye", replies.bye);
        push_count(&mut text, "err", replies.err);
        push_count(&mut text, "records", records);
        push_count(&mut text, "tombstones", tombstones);
        text.push_str("\n");
        Summary { text }
    }

    /// The bytes of the line, with its LF.
    pub fn as_slice(&self) -> &[u8]
        ensures { result.now ≡ self.now }
    {
        self.text.as_str().as_bytes()
    }

    /// The line as text, with its LF.
    pub fn as_str(&self) -> &str
        ensures { result.now ≡ self.now }
    {
        self.text.as_str()
    }
}
