// A disk over an open file.
ghost use Rattle.std.specs.Prelude.{◌≡◌, ℕ, ◌≢◌, ◌↔◌, ◌⊎◌, ◌+◌, ◌≤◌, [], ◌∷◌, ◌++◌, Option, true, false, length, IsTrue, IsOk, IfSome, MatchOption, OnOk, OnErr, Some, None};
ghost use Rattle.disk_model.specs.Bytes.{range};
ghost use Rattle.disk_model.specs.Disk.{Written, Within, TornFrom, TellsSame, TellsTorn, Loosens, IsOnly, IsHonest, IsCall, meanwhile};
ghost use Rattle.disk_file.specs.View.{view_of, after_call, is_disk};
ghost use Rattle.disk_file.specs.Spans.{span_of, after_write, after_sync};
ghost use Rattle.disk_file.specs.Calls.{let_go_call, length_call, HasRange, LacksRange, GaveUp, WriteGaveUp, IsRead, IsWrite, IsSync, sync_calls};
ghost use Rattle.disk_file.specs.Told.{Gives, IsLong, Puts, Tears};

use crate::OpenedFile;
use crate::unsynced::{Span, Unsynced};
use crate::whole::{read_whole, sync_whole, write_whole};
use disk_model::{Disk, DiskFault};
use std::marker::Model;

/// An open file as a disk of a fixed size; what a crash leaves of it no clause tells. Where the file ends before that, reads behind its
/// end fail, and so do writes, which never make it longer. Behind a sync that failed, each further sync fails until all that was written
/// before it was written again.
#[derive(Drop)]
pub struct FileDisk<F: OpenedFile> {
    file: F,
    unsynced: Unsynced,
    faults: u64,
    calls: u64,
}

impl<F: OpenedFile> Model for FileDisk<F> {
    ghost use Rattle.disk_file.specs.View.{FileState};

    ghost Value = { FileState };

    ghost view = { λ d. record { waiting = d.unsynced; faults = d.faults; calls = d.calls; past = F.past d.file; told = F.told d.file } };
}

impl<F: OpenedFile> FileDisk<F> {
    /// The first `len` bytes of a file, as a disk, of which nothing waits for a sync. The file is open to read and write; where it is open to
    /// read alone, each write is a fault. What the system keeps of it in memory is let go, as far as it was written, since after a sync that
    /// failed in an earlier process it isn't what the drive has.
    pub fn new(file: F, len: u64) -> FileDisk<F>
        ensures { result ≡ record { waiting = record { len = len; written = []; lost = [] }; faults = 0; calls = 0; past = F.past file ++ let_go_call ∷ []; told = F.told file } }
    {
        let mut file = file;
        file.let_go();
        FileDisk {
            file,
            unsynced: Unsynced::new(len),
            faults: 0,
            calls: 0,
        }
    }

    // So many bytes from a place on as a span, where the file says that it has all of them now.
    fn span_there(&mut self, place: u64, count: u64) -> Option<Span>
        ensures span { IfSome result (λ span. span ≡ span_of place count) }
        ensures asked { (found : Option ℕ) × (self.new.past ≡ self.old.past ++ length_call found ∷ []) × MatchOption result (LacksRange place count found) (λ _. HasRange place count found) }
        ensures long { IfSome result (λ _. (len : ℕ) × IsLong self.old.told len × (place + count ≤ len)) }
        ensures same { self.new ≡ record self.old { past = self.new.past } }
    {
        let len = self.file.len().ok()?;
        let end = place.checked_add(count)?;
        (end <= len).then_some(Span { start: place, end })
    }

    // Counts a call, and a fault where it failed.
    fn count(&mut self, went_well: bool) -> Result<(), DiskFault>
        ensures state { self.new ≡ after_call went_well self.old.waiting self.old }
        ensures answer { IsOk result ↔ IsTrue went_well }
        ensures call { IsCall (view_of self.old) (view_of self.new) result }
    {
        self.calls = self.calls.saturating_add(1);
        if went_well {
            return Ok(());
        }
        self.faults = self.faults.saturating_add(1);
        Err(DiskFault)
    }

    // Ends a write over a span, which went well or not.
    fn end_write(&mut self, span: Span, landed: bool) -> Result<(), DiskFault>
        ensures state { self.new ≡ after_call landed (after_write span landed self.old.waiting) self.old }
        ensures answer { IsOk result ↔ IsTrue landed }
        ensures call { IsCall (view_of self.old) (view_of self.new) result }
    {
        self.unsynced.note_write(span, landed);
        self.count(landed)
    }

    // Ends a sync of the system, which went well or not. While anything is lost the answer is a fault.
    fn end_sync(&mut self, went_well: bool) -> Result<(), DiskFault>
        ensures waiting { self.new.waiting ≡ after_sync went_well self.old.waiting }
        ensures answer { IsOk result ↔ (IsTrue went_well × (self.old.waiting.lost ≡ [])) }
        ensures past { self.new.past ≡ self.old.past }
        ensures told { self.new.told ≡ self.old.told }
        ensures call { IsCall (view_of self.old) (view_of self.new) result }
    {
        self.unsynced.note_sync(went_well);
        let sound = self.unsynced.is_sound();
        self.count(went_well && sound)
    }
}

impl<F: OpenedFile> Disk for FileDisk<F> {
    ghost view = { view_of };

    ghost is_disk = { is_disk };

    fn len(&self) -> u64 {
        self.unsynced.len()
    }

    fn read_at(&mut self, place: u64, out: &mut [u8]) -> Result<(), DiskFault>
        requires { place + length out.old ≤ (view_of self.old).extent }
        ensures read { (view_of self.old).tells → OnOk result (out.new ≡ range place (length out.old) (view_of self.old).seen) }
        ensures bytes { TellsSame (view_of self.old) (view_of self.new) }
        ensures images { Within (view_of self.old).may_leave (meanwhile (view_of self.old) (view_of self.new)) }
        ensures call { IsCall (view_of self.old) (view_of self.new) result }
        // It calls for just these bytes of the file, and where it went well they are what the file gave, whole.
        ensures file { IsRead place out.new result self.old.past self.new.past }
        ensures gives { OnOk result (Gives self.old.told place out.new) }
        ensures told { self.new.told ≡ self.old.told }
        ensures waits { self.new.waiting ≡ self.old.waiting }
        // It fails only where the last call did, or gave nothing.
        ensures cause { OnErr result (GaveUp self.old.past self.new.past) }
    {
        // The length has 64 bits, and so has each place below it.
        let _len = self.unsynced.len();
        let answer = read_whole(&mut self.file, place, out);
        self.count(answer.is_ok())
    }

    fn write_at(&mut self, place: u64, bytes: &[u8]) -> Result<(), DiskFault>
        requires { place + length bytes.now ≤ (view_of self.old).extent }
        ensures written { (view_of self.old).tells → OnOk result (Written place bytes.now (view_of self.old).seen (view_of self.new).seen) }
        ensures bytes { TellsTorn place (length bytes.now) (view_of self.old) (view_of self.new) }
        ensures images { TornFrom place (length bytes.now) (view_of self.old).may_leave (meanwhile (view_of self.old) (view_of self.new)) }
        ensures more { Within (view_of self.new).may_leave (view_of self.old).may_leave }
        ensures loose { OnOk result (Loosens place (length bytes.now) (view_of self.old).may_leave (view_of self.new).may_leave) }
        ensures call { IsCall (view_of self.old) (view_of self.new) result }
        // What waits for a sync, where it went well and where it didn't.
        ensures waits { OnOk result (self.new.waiting ≡ after_write (span_of place (length bytes.now)) true self.old.waiting) }
        ensures failed { OnErr result ((self.new.waiting ≡ self.old.waiting) ⊎ (self.new.waiting ≡ after_write (span_of place (length bytes.now)) false self.old.waiting)) }
        // It calls for just these bytes to be written in their place, where the file has it, and where it went well the file took them all.
        ensures file { IsWrite place bytes.now result self.old.past self.new.past }
        ensures puts { OnOk result (Puts self.old.told place bytes.now self.new.told) }
        ensures tears { OnErr result (Tears self.old.told place (length bytes.now) self.new.told) }
        // It fails only where the file lacks the range, or the last call failed, or took nothing.
        ensures cause { OnErr result (WriteGaveUp place (length bytes.now) self.old.past self.new.past) }
    {
        let Some(span) = self.span_there(place, bytes.len() as u64) else {
            return self.count(false);
        };
        let answer = write_whole(&mut self.file, place, bytes);
        self.end_write(span, answer.is_ok())
    }

    fn sync(&mut self) -> Result<(), DiskFault>
        ensures durable { (view_of self.old).tells → OnOk result (IsOnly (view_of self.old).seen (view_of self.new).may_leave) }
        ensures bytes { TellsSame (view_of self.old) (view_of self.new) }
        ensures failed { (view_of self.old).tells → OnErr result (Within (view_of self.old).may_leave (meanwhile (view_of self.old) (view_of self.new))) }
        ensures images { IsHonest (view_of self.old) → Within (view_of self.old).may_leave (meanwhile (view_of self.old) (view_of self.new)) }
        ensures call { IsCall (view_of self.old) (view_of self.new) result }
        // It goes well only where nothing is lost.
        ensures sound { OnOk result (self.old.waiting.lost ≡ []) }
        ensures waits { OnOk result (self.new.waiting ≡ after_sync true self.old.waiting) }
        ensures lost { OnErr result ((self.old.waiting.lost ≢ []) ⊎ (self.new.waiting ≡ after_sync false self.old.waiting)) }
        // It is one sync of the file, behind which nothing is written; where that failed, the pages are let go of at once.
        ensures file { IsSync result self.old.past self.new.past self.old.waiting self.new.waiting }
        ensures told { self.new.told ≡ self.old.told }
        // It fails only where the file's did, or something is lost.
        ensures cause { OnErr result ((self.new.past ≡ self.old.past ++ sync_calls false) ⊎ (self.old.waiting.lost ≢ [])) }
    {
        let went_well = sync_whole(&mut self.file);
        self.end_sync(went_well)
    }
}
