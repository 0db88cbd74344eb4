// A file of the system. Each method makes one call and keeps in mind, for clauses alone, what was asked and what came of it.
ghost use Rattle.std.specs.Prelude.{◌≡◌, ◌∷◌, ◌++◌, [], None, if◌then◌else◌};
ghost use Rattle.disk_file.specs.Calls.{call_of, calls_of};

use crate::OpenedFile;
use crate::kinds::{LENGTH, LET_GO, READ, SYNC, WRITE};
use call_history::History;
use std::fs::File;
use std::io;
use std::io::{Seek, SeekFrom};
use std::marker::Model;
use std::os::fd::AsRawFd;
use std::os::unix::fs::FileExt;

/// A file or a block device of the system. It tells nothing of what it holds.
#[derive(Drop)]
pub struct SystemFile {
    file: File,
    history: History,
}

impl Model for SystemFile {
    ghost use Rattle.std.specs.Prelude.{List, ℕ};
    ghost use Rattle.disk_file.specs.Calls.{Call, calls_of};

    ghost Value = { List Call };

    ghost view = { λ f. calls_of f.history.notes };
}

impl SystemFile {
    /// A file that is open, on which no call was made.
    pub fn new(file: File) -> SystemFile
        ensures { result ≡ [] }
    {
        SystemFile {
            file,
            history: History::new(),
        }
    }

    /// The file itself.
    pub(crate) fn file(&self) -> &File {
        &self.file
    }

    /// Keeps one more deed in mind, by its kind, whether it went well, and a name.
    pub(crate) fn note(&mut self, kind: u64, went_well: bool, name: &str)
        ensures { self.new ≡ self.old ++ call_of (kind ∷ 0 ∷ (if went_well then 1 else 0) ∷ [], name.now) ∷ [] }
    {
        self.history
            .note(&[kind, 0, u64::from(went_well)], name.as_bytes());
    }
}

impl OpenedFile for SystemFile {
    ghost told = { λ _. None };

    ghost past = { λ calls. calls };

    fn len(&mut self) -> io::Result<u64> {
        let answer = self.file.seek(SeekFrom::End(0));
        let told = u64::from(answer.is_ok());
        self.history.note(&[LENGTH, told, answer.unwrap_or(0)], &[]);
        answer
    }

    fn read_some(&mut self, place: u64, out: &mut [u8]) -> io::Result<usize> {
        let answer = self.file.read_at(out, place);
        let count = answer.unwrap_or(0);
        self.history
            .note(&[READ, place, out.len() as u64], &out[..count]);
        answer
    }

    fn write_some(&mut self, place: u64, bytes: &[u8]) -> io::Result<usize> {
        let answer = self.file.write_at(bytes, place);
        let count = answer.unwrap_or(0);
        self.history.note(&[WRITE, place, count as u64], bytes);
        answer
    }

    fn sync(&mut self) -> io::Result<()> {
        let answer = self.file.sync_data();
        self.history
            .note(&[SYNC, 0, u64::from(answer.is_ok())], &[]);
        answer
    }

    // This is advice alone, and a failure of it changes nothing.
    fn let_go(&mut self) {
        let _ = libc::posix_fadvise(self.file.as_raw_fd(), 0, 0, libc::POSIX_FADV_DONTNEED);
        self.history.note(&[LET_GO, 0, 0], &[]);
    }
}
