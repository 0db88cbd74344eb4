// The names of the system. Each method makes the calls that its words say, and keeps in mind, for clauses alone, what came of them.
ghost use Rattle.std.specs.Prelude.{◌≡◌, [], ◌∷◌, ◌++◌, None};

use crate::kinds::{LOCKED, MADE, MAKES, NAMED, OPENED, REMOVES, SEEN, SETTLED};
use crate::{Devices, Kind, Look, SystemFile};
use call_history::History;
use std::fs::{File, Metadata, OpenOptions, TryLockError, metadata, remove_file};
use std::io;
use std::marker::Model;
use std::os::unix::fs::{FileTypeExt, MetadataExt};
use std::path::Path;
use std::rt::Files;

/// What stands under the names of the system. It tells neither what a look at one may find, nor how a file stands, nor when a call fails.
#[derive(Drop)]
pub struct SystemDevices<'a, R: Files<File = File>> {
    rt: &'a R,
    history: History,
}

impl<'a, R: Files<File = File>> Model for SystemDevices<'a, R> {
    ghost use Rattle.std.specs.Prelude.{List};
    ghost use Rattle.disk_file.specs.Devices.{Change, changes_of};

    ghost Value = { List Change };

    ghost view = { λ d. changes_of d.history.notes };
}

impl<'a, R: Files<File = File>> SystemDevices<'a, R> {
    /// Those of the system that this runs in, where nothing was made or removed yet.
    pub fn new(rt: &'a R) -> SystemDevices<'a, R>
        ensures { result ≡ [] }
    {
        SystemDevices {
            rt,
            history: History::new(),
        }
    }

    // Syncs what has this name.
    fn sync(&self, name: &str) -> io::Result<()> {
        File::open(self.rt, name)?.sync_all()
    }
}

// The kind of what was found.
fn kind_of(found: &Metadata) -> Kind {
    let kind = found.file_type();
    if kind.is_file() {
        Kind::File
    } else if kind.is_block_device() {
        Kind::Block
    } else {
        Kind::Other
    }
}

// The folder that keeps a name.
fn folder_of(name: &str) -> &str {
    match Path::new(name).parent() {
        Some(folder) if !folder.as_str().is_empty() => folder.as_str(),
        _ => ".",
    }
}

impl<'a, R: Files<File = File>> Devices for SystemDevices<'a, R> {
    type File = SystemFile;

    ghost known = { λ _. record { finds = λ name look. Unit {0}; holds = λ name told stands. (told ≡ None) × (stands ≡ None); fails = λ asked error. Unit {0} } };

    ghost stands = { λ _. None };

    ghost changes = { λ changes. changes };

    ghost becomes = { λ old change new. new ≡ old ++ change ∷ [] };

    fn look(&self, name: &str) -> io::Result<Look> {
        let found = metadata(self.rt, name)?;
        Ok(Look {
            kind: kind_of(&found),
            number: found.ino(),
            lies_on: found.dev(),
            drive: found.rdev(),
        })
    }

    fn open(&self, name: &str, writes: bool) -> io::Result<SystemFile> {
        let file = OpenOptions::new()
            .read(true)
            .write(writes)
            .open(self.rt, name)?;
        let mut file = SystemFile::new(file);
        file.note(OPENED, writes, name);
        Ok(file)
    }

    fn make(&mut self, name: &str) -> io::Result<SystemFile> {
        let answer = File::create_new(self.rt, name);
        self.history
            .note(&[MAKES, u64::from(answer.is_ok())], name.as_bytes());
        let mut file = SystemFile::new(answer?);
        file.note(MADE, true, name);
        Ok(file)
    }

    fn remove(&mut self, name: &str) -> io::Result<()> {
        let answer = remove_file(self.rt, name);
        self.history
            .note(&[REMOVES, u64::from(answer.is_ok())], name.as_bytes());
        answer
    }

    fn kind_of(&self, file: &mut SystemFile) -> io::Result<Kind> {
        let answer = file.file().metadata().map(|found| kind_of(&found));
        let is_file = matches!(answer, Ok(Kind::File));
        file.note(SEEN, is_file, "");
        answer
    }

    fn lock(&self, file: &mut SystemFile) -> Result<(), TryLockError> {
        let answer = file.file().try_lock();
        file.note(LOCKED, answer.is_ok(), "");
        answer
    }

    fn settle(&self, file: &mut SystemFile) -> io::Result<()> {
        let answer = file.file().sync_all();
        file.note(SETTLED, answer.is_ok(), "");
        answer
    }

    fn sync_folder(&self, name: &str, file: &mut SystemFile) -> io::Result<()> {
        let answer = self.sync(folder_of(name));
        file.note(NAMED, answer.is_ok(), name);
        answer
    }
}
