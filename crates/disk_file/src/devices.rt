// What stands under names, as a program that opens and makes devices calls it.
ghost use Rattle.std.specs.Prelude.{◌≡◌, ◌++◌, ◌∷◌, List, [], Option, IfOk, IfErr, is_ok};
ghost use Rattle.disk_file.specs.Calls.{deed_call, opened, made, seen, locked, settled, named};
ghost use Rattle.disk_file.specs.Devices.{Change, makes, removes, is_file, look_by};
ghost use Rattle.disk_file.specs.Known.{Known, Standing, looking, making, naming, opening, settling, IsNew, SeeGives, LockGives};

use crate::OpenedFile;
use std::fs::TryLockError;
use std::io;

/// What a name is of. Only the first two can be devices.
#[derive(Clone, Copy, PartialEq, Eq)]
pub enum Kind {
    File,
    Block,
    Other,
}

/// What a look at a name finds: the kind, the number of the file and of the drive that it lies on, and of a block device the number of
/// the drive that it is.
#[derive(Clone, Copy)]
pub struct Look {
    pub kind: Kind,
    pub number: u64,
    pub lies_on: u64,
    pub drive: u64,
}

/// What stands under names. What is opened or made keeps in mind under which, and what is done to it.
pub trait Devices {
    type File: OpenedFile;

    /// What is known of the names.
    ghost known: { Self → Known };

    /// How a file stands, where it tells that.
    ghost stands: { Self.File → Option Standing };

    /// What files were made and removed, in order.
    ghost changes: { Self → List Change };

    /// What the names may become by a change.
    ghost becomes: { Self → Change → Self → Type 0 };

    /// What stands under a name.
    fn look(&self, name: &str) -> io::Result<Look>
        ensures found { (known self.now).finds name.now (look_by result) }
        ensures refused { IfErr result (λ error. (known self.now).fails (looking name.now) error) };

    /// At `Ok` what has this name, open to read and, where that is asked for, to write.
    fn open(&self, name: &str, writes: bool) -> io::Result<Self::File>
        ensures past { IfOk result (λ file. Self.File.past file ≡ deed_call (opened name.now writes) ∷ []) }
        ensures holds { IfOk result (λ file. (known self.now).holds name.now (Self.File.told file) (stands file)) }
        ensures refused { IfErr result (λ error. (known self.now).fails (opening name.now writes) error) };

    /// At `Ok` a new file, where nothing had this name.
    fn make(&mut self, name: &str) -> io::Result<Self::File>
        ensures file { IfOk result (λ file. Self.File.past file ≡ deed_call (made name.now) ∷ []) }
        ensures stands { IfOk result (λ file. IsNew (stands file)) }
        ensures refused { IfErr result (λ error. (known self.old).fails (making name.now) error) }
        ensures changes { changes self.new ≡ changes self.old ++ makes name.now (is_ok result) ∷ [] }
        ensures becomes { becomes self.old (makes name.now (is_ok result)) self.new };

    /// At `Ok` nothing has this name any more.
    fn remove(&mut self, name: &str) -> io::Result<()>
        ensures changes { changes self.new ≡ changes self.old ++ removes name.now (is_ok result) ∷ [] }
        ensures becomes { becomes self.old (removes name.now (is_ok result)) self.new };

    /// What an open file is.
    fn kind_of(&self, file: &mut Self::File) -> io::Result<Kind>
        ensures past { Self.File.past file.new ≡ Self.File.past file.old ++ deed_call (seen (is_file result)) ∷ [] }
        ensures same { Self.File.told file.new ≡ Self.File.told file.old }
        ensures stands { stands file.new ≡ stands file.old }
        ensures kind { SeeGives (known self.now) (stands file.old) result };

    /// At `Ok` no other process locks the file until it is closed.
    fn lock(&self, file: &mut Self::File) -> Result<(), TryLockError>
        ensures past { Self.File.past file.new ≡ Self.File.past file.old ++ deed_call (locked (is_ok result)) ∷ [] }
        ensures same { Self.File.told file.new ≡ Self.File.told file.old }
        ensures stands { stands file.new ≡ stands file.old }
        ensures lock { LockGives (known self.now) (stands file.old) result };

    /// At `Ok` what was written to the file is on the drive, and its length.
    fn settle(&self, file: &mut Self::File) -> io::Result<()>
        ensures past { Self.File.past file.new ≡ Self.File.past file.old ++ deed_call (settled (is_ok result)) ∷ [] }
        ensures same { Self.File.told file.new ≡ Self.File.told file.old }
        ensures refused { IfErr result (λ error. (known self.now).fails settling error) };

    /// At `Ok` the file's name is on the drive, which its folder keeps.
    fn sync_folder(&self, name: &str, file: &mut Self::File) -> io::Result<()>
        ensures past { Self.File.past file.new ≡ Self.File.past file.old ++ deed_call (named name.now (is_ok result)) ∷ [] }
        ensures same { Self.File.told file.new ≡ Self.File.told file.old }
        ensures refused { IfErr result (λ error. (known self.now).fails (naming name.now) error) };
}
