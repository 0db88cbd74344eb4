// An open file, as a disk over it calls it.
ghost use Rattle.std.specs.Prelude.{◌≡◌, ℕ, ◌≤◌, List, [], ◌∷◌, ◌++◌, length, Option, IfOk, is_ok};
ghost use Rattle.disk_file.specs.Calls.{Call, read_call, write_call, sync_call, let_go_call, length_call, moved, found_by};
ghost use Rattle.disk_file.specs.Told.{Gives, IsLong, WriteLeaves};

use std::io;

/// An open file. A read or a write may move fewer bytes than it could, may be interrupted, and may fail.
pub trait OpenedFile: Drop {
    /// What it holds, where it tells it.
    ghost told: { Self → Option (List ℕ) };

    /// The calls that were made, in order, with what came of each.
    ghost past: { Self → List Call };

    /// At `Ok` its length in bytes.
    fn len(&mut self) -> io::Result<u64>
        ensures past { past self.new ≡ past self.old ++ length_call (found_by result) ∷ [] }
        ensures long { IfOk result (λ n. IsLong (told self.old) n) }
        ensures same { told self.new ≡ told self.old };

    /// At `Ok` how many bytes from a place on are in the front of `out`.
    fn read_some(&mut self, place: u64, out: &mut [u8]) -> io::Result<usize>
        ensures bound { IfOk result (λ n. n ≤ length out.old) }
        ensures past { past self.new ≡ past self.old ++ read_call place (length out.old) (moved result out.new) ∷ [] }
        ensures gives { Gives (told self.old) place (moved result out.new) }
        ensures same { told self.new ≡ told self.old };

    /// At `Ok` how many of the bytes were written from a place on, from the front.
    fn write_some(&mut self, place: u64, bytes: &[u8]) -> io::Result<usize>
        ensures bound { IfOk result (λ n. n ≤ length bytes.now) }
        ensures past { past self.new ≡ past self.old ++ write_call place bytes.now (moved result bytes.now) ∷ [] }
        ensures leaves { WriteLeaves (told self.old) place bytes.now result (told self.new) };

    /// At `Ok` what was written is on the drive.
    fn sync(&mut self) -> io::Result<()>
        ensures past { past self.new ≡ past self.old ++ sync_call (is_ok result) ∷ [] }
        ensures same { told self.new ≡ told self.old };

    /// Lets go of what the system keeps of it in memory, as far as it was written, so that reads come from the drive.
    fn let_go(&mut self)
        ensures past { past self.new ≡ past self.old ++ let_go_call ∷ [] }
        ensures same { told self.new ≡ told self.old };
}
