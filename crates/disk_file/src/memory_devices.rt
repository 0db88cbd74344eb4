// What stands under names in memory.
ghost use Rattle.std.specs.Prelude.{◌≡◌, ◌<◌, ◌++◌, ◌∷◌, ◌⊎◌, ℕ, [], IfOk, IfErr, IfSome, ◌≢◌, is_ok, MatchOption, MatchResult, Some};
ghost use Rattle.disk_file.specs.Calls.{deed_call, made};
ghost use Rattle.disk_file.specs.Devices.{makes, removes};
ghost use Rattle.disk_file.specs.Known.{IsNew, making};
ghost use Rattle.disk_file.specs.MemoryNames.{IsNamed, NoneNamed, WasAsked, FailsIn, EntriesAfter, BecomesIn, known_of};

use crate::kinds::{LOCKED, MADE, MAKES, NAMED, OPENED, REMOVES, SEEN, SETTLED};
use crate::{Devices, Kind, Look, MemoryFile};
use call_history::History;
use std::alloc::Global;
use std::fs::TryLockError;
use std::io;
use std::io::ErrorKind;
use std::marker::Model;

/// What has a name in memory. Two names are of one file where their numbers are the same.
#[derive(Drop)]
pub struct Entry {
    pub name: String,
    pub kind: Kind,
    pub number: u64,
    pub bytes: Vec<u8>,
    /// Whether another process locks it.
    pub in_use: bool,
}

/// What may be asked to fail, each time.
#[derive(Clone, Copy, PartialEq, Eq)]
pub enum Failing {
    Nothing,
    Look,
    Open,
    Make,
    Remove,
    Kind,
    Lock,
    Settle,
    Folder,
}

/// What stands under names in memory. What is opened holds the bytes of its name; what is written to it isn't put back under the name. A
/// new file has room for so many bytes from its beginning on, which aren't zeros, and is in use from then on.
#[derive(Drop)]
pub struct MemoryDevices {
    alloc: Global,
    entries: Vec<Entry>,
    room: usize,
    failing: Failing,
    history: History,
}

impl Model for MemoryDevices {
    ghost use Rattle.disk_file.specs.Devices.{changes_of};
    ghost use Rattle.disk_file.specs.MemoryNames.{NamesState};

    ghost Value = { NamesState };

    ghost view = { λ d. record { entries = d.entries.items; failing = d.failing; changes = changes_of d.history.notes } };
}

impl MemoryDevices {
    /// Those of these entries, where nothing was made or removed yet.
    pub fn new(alloc: Global, entries: Vec<Entry>, room: usize, failing: Failing) -> MemoryDevices
        ensures { result ≡ record { entries = entries.items; failing = failing; changes = [] } }
    {
        MemoryDevices {
            alloc,
            entries,
            room,
            failing,
            history: History::new(),
        }
    }

    // The place of the first entry of this name.
    fn place_of(&self, name: &str) -> Option<usize>
        ensures named { MatchOption result (NoneNamed self.now.entries name.now) (λ at. IsNamed self.now.entries name.now at) }
        ensures first { IfSome result (λ at. (sooner : ℕ) → sooner < at → IsNamed self.now.entries name.now sooner → ⊥) }
    {
        for at in 0..self.entries.len() {
            if self.entries[at].name.as_str() == name {
                return Some(at);
            }
        }
        None
    }

    // Fails where this is what was asked to.
    fn try_to(&self, what: Failing) -> io::Result<()>
        ensures { MatchResult result (λ done. self.now.failing ≢ what) (λ error. WasAsked self.now what error) }
    {
        if self.failing == what {
            return Err(ErrorKind::Other.into());
        }
        Ok(())
    }

    // A new entry of this name, which is in use.
    fn add(&mut self, name: &str) -> io::Result<MemoryFile>
        ensures file { IfOk result (λ file. (file.past ≡ deed_call (made name.now) ∷ [])) }
        ensures stands { IfOk result (λ file. IsNew (Some file.stands)) }
        ensures refused { IfErr result (λ error. FailsIn self.old (making name.now) error) }
        ensures entries { EntriesAfter self.old.entries (makes name.now (is_ok result)) self.new.entries }
        ensures rest { self.new ≡ record self.old { entries = self.new.entries } }
    {
        self.try_to(Failing::Make)?;
        if self.place_of(name).is_some() {
            return Err(ErrorKind::AlreadyExists.into());
        }
        let bytes = vec![in self.alloc; b'x'; self.room]?;
        let entry = Entry {
            name: String::from_str(self.alloc, name)?,
            kind: Kind::File,
            number: self.entries.len() as u64,
            bytes: Vec::new(self.alloc),
            in_use: true,
        };
        self.entries.push(entry)?;
        let mut file = MemoryFile::new(bytes, Vec::new(self.alloc));
        file.note(MADE, true, name);
        Ok(file)
    }

    // Takes the entry of this name out.
    fn take_out(&mut self, name: &str) -> io::Result<()>
        ensures entries { EntriesAfter self.old.entries (removes name.now (is_ok result)) self.new.entries }
        ensures rest { self.new ≡ record self.old { entries = self.new.entries } }
    {
        self.try_to(Failing::Remove)?;
        match self.place_of(name) {
            Some(at) => {
                self.entries.remove(at);
                Ok(())
            }
            None => Err(ErrorKind::NotFound.into()),
        }
    }
}

impl Devices for MemoryDevices {
    type File = MemoryFile;

    ghost known = { known_of };

    ghost stands = { λ file. Some file.stands };

    ghost changes = { λ d. d.changes };

    ghost becomes = { BecomesIn };

    fn look(&self, name: &str) -> io::Result<Look> {
        self.try_to(Failing::Look)?;
        match self.place_of(name) {
            Some(at) => {
                let entry = &self.entries[at];
                Ok(Look {
                    kind: entry.kind,
                    number: entry.number,
                    lies_on: 0,
                    drive: entry.number,
                })
            }
            None => Err(ErrorKind::NotFound.into()),
        }
    }

    fn open(&self, name: &str, writes: bool) -> io::Result<MemoryFile> {
        self.try_to(Failing::Open)?;
        match self.place_of(name) {
            Some(at) => {
                let entry = &self.entries[at];
                let bytes = entry.bytes.to_vec(self.alloc)?;
                let mut file = MemoryFile::of(
                    bytes,
                    Vec::new(self.alloc),
                    entry.kind,
                    entry.in_use,
                );
                file.note(OPENED, writes, name);
                Ok(file)
            }
            None => Err(ErrorKind::NotFound.into()),
        }
    }

    fn make(&mut self, name: &str) -> io::Result<MemoryFile> {
        let answer = self.add(name);
        self.history
            .note(&[MAKES, u64::from(answer.is_ok())], name.as_bytes());
        answer
    }

    fn remove(&mut self, name: &str) -> io::Result<()> {
        let answer = self.take_out(name);
        self.history
            .note(&[REMOVES, u64::from(answer.is_ok())], name.as_bytes());
        answer
    }

    fn kind_of(&self, file: &mut MemoryFile) -> io::Result<Kind> {
        let answer = self.try_to(Failing::Kind).map(|_| file.kind());
        let is_file = matches!(answer, Ok(Kind::File));
        file.note(SEEN, is_file, "");
        answer
    }

    fn lock(&self, file: &mut MemoryFile) -> Result<(), TryLockError> {
        let answer = if file.in_use() {
            Err(TryLockError::WouldBlock)
        } else {
            self.try_to(Failing::Lock).map_err(TryLockError::Error)
        };
        file.note(LOCKED, answer.is_ok(), "");
        answer
    }

    fn settle(&self, file: &mut MemoryFile) -> io::Result<()> {
        let answer = self.try_to(Failing::Settle);
        file.note(SETTLED, answer.is_ok(), "");
        answer
    }

    fn sync_folder(&self, name: &str, file: &mut MemoryFile) -> io::Result<()> {
        let answer = self.try_to(Failing::Folder);
        file.note(NAMED, answer.is_ok(), name);
        answer
    }
}
