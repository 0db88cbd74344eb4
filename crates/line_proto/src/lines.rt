// The lines of a stream that comes in pieces.
ghost use Rattle.std.specs.VecDeque.{deque_len, deque_capacity};
ghost use Rattle.std.specs.Prelude.{◌≡◌, ◌≤◌, ◌+◌, IfOk, OnErr, [], ◌++◌, List, ℕ, IfNone, MatchOption, OnOk};
ghost use Rattle.std.specs.Option.{option_to_list};
ghost use Rattle.line_proto.specs.Stream.{KeepsBytes, BeginsWithLine, IsOneLine, nothing_kept};

use crate::NoMemory;
use crate::line_end::LineEnd;
use crate::parts::cut;
use crate::tail::Tail;
use std::alloc::Global;
use std::collections::VecDeque;
use std::marker::Model;
use std::mem;

/// The lines of a stream, however it is cut into pieces. A line ends with LF, and has at most 2,200,000 bytes before
/// it.
#[derive(Drop)]
pub struct Lines {
    alloc: Global,
    ready: VecDeque<LineEnd>,
    tail: Tail,
}

impl Model for Lines {
    ghost use Rattle.line_proto.specs.Stream.{Kept};

    ghost Value = { Kept };

    ghost view = { λ l. record { ready = l.ready.items; partial = l.tail.partial; size = l.tail.size } };
}

impl Lines {
    /// The lines of a stream of which nothing has come.
    pub fn new(alloc: Global) -> Self
        ensures empty { result ≡ nothing_kept }
        ensures stands { KeepsBytes result [] }
    {
        Lines {
            alloc,
            ready: VecDeque::new(alloc),
            tail: Tail::new(alloc),
        }
    }

    /// At `Ok` the lines are those of the stream with this piece more. It takes a time linear in the bytes of the
    /// piece. An `Err` is want of memory, and changes nothing.
    pub fn feed(&mut self, piece: &[u8]) -> Result<(), NoMemory>
        ensures ok { OnOk result ((bytes : List ℕ) → KeepsBytes self.old bytes → KeepsBytes self.new (bytes ++ piece.now)) }
        ensures err { OnErr result (self.new ≡ self.old) }
    {
        let Some((first, others)) = cut(piece, b'\n') else {
            return self.tail.go_on(piece);
        };
        let mut next = lines_of(self.alloc, others)?;
        self.ready.reserve(next.ready.len() + 1)?;
        self.tail.go_on(first)?;
        let end = self.tail.end();
        self.ready.push_back_reserved(end);
        move_all(&mut next.ready, &mut self.ready);
        self.tail = next.tail;
        Ok(())
    }

    /// Hands on the next line, which is taken out then. There is none exactly where no LF is left.
    pub fn next_line(&mut self) -> Option<LineEnd>
        ensures ready { self.old.ready ≡ option_to_list result ++ self.new.ready }
        ensures none { IfNone result (self.new.ready ≡ []) }
        ensures others { self.new ≡ record self.old { ready = self.new.ready } }
        ensures line { (bytes : List ℕ) → KeepsBytes self.old bytes →
            MatchOption result (IsOneLine bytes × KeepsBytes self.new bytes) (λ end. BeginsWithLine bytes end self.new) }
    {
        self.ready.pop_front()
    }

    /// How many bytes stand after the last LF.
    pub fn rest(&self) -> u64
        ensures { result ≡ self.now.size }
    {
        self.tail.size()
    }
}

// What the bytes alone fall into.
fn lines_of(alloc: Global, bytes: &[u8]) -> Result<Lines, NoMemory>
    ensures { IfOk result (λ lines. KeepsBytes lines bytes.now) }
{
    let mut ready = VecDeque::new(alloc);
    let mut tail = Tail::new(alloc);
    let mut rest = bytes;
    while let Some((line, after)) = cut(rest, b'\n') {
        tail.go_on(line)?;
        ready.push_back(tail.end())?;
        rest = after;
    }
    tail.go_on(rest)?;
    Ok(Lines { alloc, ready, tail })
}

// Moves all of the lines behind those that are there, for which there is room.
fn move_all(from: &mut VecDeque<LineEnd>, to: &mut VecDeque<LineEnd>)
    requires { deque_len to.old + deque_len from.old ≤ deque_capacity to.old }
    ensures { to.new.items ≡ to.old.items ++ from.old.items }
{
    while let Some(line) = from.pop_front() {
        to.push_back_reserved(line);
    }
}
