// A file in memory, which tells what it holds.
ghost use Rattle.std.specs.Prelude.{◌≡◌, ◌+◌, ◌-◌, ◌≤◌, [], ◌∷◌, ◌++◌, min, length, false, Some, IfOk, is_ok, if◌then◌else◌};
ghost use Rattle.disk_file.specs.declared.devices.Kind.TheVariants.{File};
ghost use Rattle.disk_file.specs.Calls.{read_call, write_call, sync_call, moved, call_of, calls_of};
ghost use Rattle.disk_file.specs.Told.{Gives, WriteLeaves};
ghost use Rattle.disk_file.specs.Memory.{next_turn, later_turns, Moves, Ends};

use crate::kinds::{LENGTH, LET_GO, READ, SYNC, WRITE};
use crate::{Kind, OpenedFile};
use call_history::History;
use std::io;
use std::io::ErrorKind;
use std::marker::Model;

/// What a call on a file in memory comes to.
#[derive(Clone, Copy)]
pub enum Turn {
    /// It moves at most so many bytes.
    Most(usize),
    Interrupted,
    Failed,
}

/// A file in memory, of a fixed length. Its reads, writes and syncs take the turns of a list, and behind the last each does what it can.
#[derive(Drop)]
pub struct MemoryFile {
    bytes: Vec<u8>,
    turns: Vec<Turn>,
    at: usize,
    kind: Kind,
    in_use: bool,
    history: History,
}

impl Model for MemoryFile {
    ghost use Rattle.std.specs.Prelude.{drop};
    ghost use Rattle.disk_file.specs.Calls.{calls_of};
    ghost use Rattle.disk_file.specs.Memory.{MemoryState};

    ghost Value = { MemoryState };

    ghost view = { λ f. record { held = f.bytes.items; turns = drop f.at f.turns.items; stands = record { kind = f.kind; in_use = f.in_use }; past = calls_of f.history.notes } };
}

impl MemoryFile {
    /// A file that holds these bytes, on which no call was made, and whose calls take these turns.
    pub fn new(bytes: Vec<u8>, turns: Vec<Turn>) -> MemoryFile
        ensures { result ≡ record { held = bytes.items; turns = turns.items; stands = record { kind = File; in_use = false }; past = [] } }
    {
        MemoryFile::of(bytes, turns, Kind::File, false)
    }

    /// The same of this kind, which another process locks or doesn't.
    pub(crate) fn of(bytes: Vec<u8>, turns: Vec<Turn>, kind: Kind, in_use: bool) -> MemoryFile
        ensures { result ≡ record { held = bytes.items; turns = turns.items; stands = record { kind = kind; in_use = in_use }; past = [] } }
    {
        MemoryFile {
            bytes,
            turns,
            at: 0,
            kind,
            in_use,
            history: History::new(),
        }
    }

    /// What it is.
    pub(crate) fn kind(&self) -> Kind
        ensures { result ≡ self.now.stands.kind }
    {
        self.kind
    }

    /// Whether another process locks it.
    pub(crate) fn in_use(&self) -> bool
        ensures { result ≡ self.now.stands.in_use }
    {
        self.in_use
    }

    /// Keeps one more deed in mind, by its kind, whether it went well, and a name.
    pub(crate) fn note(&mut self, kind: u64, went_well: bool, name: &str)
        ensures { self.new ≡ record self.old { past = self.old.past ++ call_of (kind ∷ 0 ∷ (if went_well then 1 else 0) ∷ [], name.now) ∷ [] } }
    {
        self.history
            .note(&[kind, 0, u64::from(went_well)], name.as_bytes());
    }

    // The turn of this call.
    fn take_turn(&mut self) -> Turn
        ensures turn { result ≡ next_turn self.old.turns }
        ensures rest { self.new ≡ record self.old { turns = later_turns self.old.turns } }
    {
        if self.at >= self.turns.len() {
            return Turn::Most(usize::MAX);
        }
        let turn = self.turns[self.at];
        self.at += 1;
        turn
    }
}

// How many bytes are moved in this turn, of those that could be.
fn count_in(turn: Turn, there: usize) -> io::Result<usize>
    ensures { Moves turn there result }
{
    match turn {
        Turn::Most(most) => Ok(there.min(most)),
        Turn::Interrupted => Err(ErrorKind::Interrupted.into()),
        Turn::Failed => Err(ErrorKind::Other.into()),
    }
}

// The bytes from a place on into the front of `out`, as many as this turn moves.
fn copy_out(turn: Turn, bytes: &[u8], place: usize, out: &mut [u8]) -> io::Result<usize>
    ensures turn { Moves turn (min (length out.old) (length bytes.now - place)) result }
    ensures bound { IfOk result (λ n. n ≤ length out.old) }
    ensures gives { Gives (Some bytes.now) place (moved result out.new) }
{
    let rest = &bytes[place.min(bytes.len())..];
    let count = count_in(turn, out.len().min(rest.len()))?;
    out[..count].copy_from_slice(&rest[..count]);
    Ok(count)
}

// The front of these bytes to a place, as many as this turn moves.
fn copy_in(turn: Turn, held: &mut [u8], place: usize, bytes: &[u8]) -> io::Result<usize>
    ensures turn { Moves turn (min (length bytes.now) (length held.old - place)) result }
    ensures bound { IfOk result (λ n. n ≤ length bytes.now) }
    ensures leaves { WriteLeaves (Some held.old) place bytes.now result (Some held.new) }
{
    let start = place.min(held.len());
    let count = count_in(turn, bytes.len().min(held.len() - start))?;
    held[start..start + count].copy_from_slice(&bytes[..count]);
    Ok(count)
}

impl OpenedFile for MemoryFile {
    ghost told = { λ f. Some f.held };

    ghost past = { λ f. f.past };

    fn len(&mut self) -> io::Result<u64> {
        let len = self.bytes.len() as u64;
        self.history.note(&[LENGTH, 1, len], &[]);
        Ok(len)
    }

    fn read_some(&mut self, place: u64, out: &mut [u8]) -> io::Result<usize>
        ensures bound { IfOk result (λ n. n ≤ length out.old) }
        ensures past { self.new.past ≡ self.old.past ++ read_call place (length out.old) (moved result out.new) ∷ [] }
        ensures gives { Gives (Some self.old.held) place (moved result out.new) }
        ensures same { Some self.new.held ≡ Some self.old.held }
        // It moves as many bytes as its turn says.
        ensures turn { Moves (next_turn self.old.turns) (min (length out.old) (length self.old.held - place)) result }
        ensures later { self.new.turns ≡ later_turns self.old.turns }
    {
        let turn = self.take_turn();
        let answer = copy_out(turn, &self.bytes, place as usize, out);
        let count = answer.unwrap_or(0);
        self.history
            .note(&[READ, place, out.len() as u64], &out[..count]);
        answer
    }

    fn write_some(&mut self, place: u64, bytes: &[u8]) -> io::Result<usize>
        ensures bound { IfOk result (λ n. n ≤ length bytes.now) }
        ensures past { self.new.past ≡ self.old.past ++ write_call place bytes.now (moved result bytes.now) ∷ [] }
        ensures leaves { WriteLeaves (Some self.old.held) place bytes.now result (Some self.new.held) }
        ensures turn { Moves (next_turn self.old.turns) (min (length bytes.now) (length self.old.held - place)) result }
        ensures later { self.new.turns ≡ later_turns self.old.turns }
    {
        let turn = self.take_turn();
        let answer = copy_in(turn, &mut self.bytes, place as usize, bytes);
        let count = answer.unwrap_or(0);
        self.history.note(&[WRITE, place, count as u64], bytes);
        answer
    }

    fn sync(&mut self) -> io::Result<()>
        ensures past { self.new.past ≡ self.old.past ++ sync_call (is_ok result) ∷ [] }
        ensures same { Some self.new.held ≡ Some self.old.held }
        ensures turn { Ends (next_turn self.old.turns) result }
        ensures later { self.new.turns ≡ later_turns self.old.turns }
    {
        let turn = self.take_turn();
        let answer = count_in(turn, 0).map(|_| ());
        self.history
            .note(&[SYNC, 0, u64::from(answer.is_ok())], &[]);
        answer
    }

    fn let_go(&mut self) {
        self.history.note(&[LET_GO, 0, 0], &[]);
    }
}
