// A disk in memory, which keeps a record of its moments.
ghost use Rattle.std.specs.Prelude.{◌≡◌, ◌⊎◌, ◌+◌, ◌-◌, ◌++◌, ◌≤◌, ◌^◌, ◌<◌, None, Some, false, true, ℕ, [], ◌∷◌, List, min, length, replicate, OnOk, OnErr, IfOk, is_err, take, drop, ◌||◌, if◌then◌else◌};
ghost use Rattle.disk_model.specs.Bytes.{range, Torn, overwrite};
ghost use Rattle.disk_model.specs.Replay.{State, synced, after_write, after, replay, MayLeave, RecordsChange};
ghost use Rattle.disk_model.specs.Disk.{Written, Within, TornFrom, TellsSame, TellsTorn, Loosens, IsOnly, IsSettled, IsHonest, IsCall, meanwhile};
ghost use Rattle.disk_model.specs.Faults.{is_asked, is_stopped, IsCounted, IsAskedAfter, IsAskedOf, IsSame, FailsWhere, faults_after, is_due, flipped};
ghost use Rattle.model_faults.specs.Counts.{one_more};
ghost use Rattle.disk_model.specs.Picked.{picked_of, Tracks};
ghost use Rattle.disk_model.specs.Past.{bytes_after, recorded, is_disk};

use crate::change::{Change, Piece};
use crate::tally::Tally;
use crate::{Disk, DiskCall, DiskFault, NoMemory};
use std::alloc::{AllocError, Global};

/// A disk in memory, which keeps a record of its moments, and fails or stops where it is asked to. It is honest until a read is asked to lie.
#[derive(Drop)]
pub struct MemDisk {
    alloc: Global,
    first: Vec<u8>,
    changes: Vec<Change>,
    content: Vec<u8>,
    reads: Tally,
    writes: Tally,
    syncs: Tally,
    faults: u64,
    calls: u64,
    starved: u64,
    /// The number of the read that is to lie.
    lie: Option<u64>,
    /// The number of the first call of any kind that fails, and with it all behind it.
    stop: Option<u64>,
    ghost whole: { length content.items ≡ length first.items },
    ghost same: { content.items ≡ bytes_after first.items changes.items },
}

impl MemDisk {
    ghost use Rattle.disk_model.specs.Moments.{IsFresh, state_of, view_of};

    /// A disk of so many zeros, with nothing left to sync.
    pub fn new(alloc: Global, len: u64) -> Result<MemDisk, NoMemory>
        ensures zeros { IfOk result (λ disk. (view_of disk).seen ≡ replicate len 0) }
        ensures told { IfOk result (λ disk. IsHonest (view_of disk)) }
        ensures synced { IfOk result (λ disk. IsSettled (view_of disk)) }
        ensures fresh { IfOk result IsFresh }
    {
        let Ok(content) = vec![in alloc; 0; len as usize] else {
            return Err(AllocError);
        };
        MemDisk::holding(alloc, content)
    }

    /// A disk of these bytes, with nothing left to sync.
    fn holding(alloc: Global, content: Vec<u8>) -> Result<MemDisk, NoMemory>
        ensures holds { IfOk result (λ disk. (view_of disk).seen ≡ content.items) }
        ensures told { IfOk result (λ disk. IsHonest (view_of disk)) }
        ensures synced { IfOk result (λ disk. IsSettled (view_of disk)) }
        ensures fresh { IfOk result IsFresh }
    {
        let Ok(first) = content.to_vec(alloc) else {
            return Err(AllocError);
        };
        Ok(MemDisk {
            alloc,
            first,
            changes: Vec::new(alloc),
            content,
            reads: Tally::new(alloc),
            writes: Tally::new(alloc),
            syncs: Tally::new(alloc),
            faults: 0,
            calls: 0,
            starved: 0,
            lie: None,
            stop: None,
        })
    }

    /// Asks that the call of this kind which comes after `skip` others fails. More than one may be asked for. For want of memory nothing
    /// is asked.
    pub fn fail_after(&mut self, kind: DiskCall, skip: u64) -> Result<(), NoMemory>
        ensures ok { OnOk result (IsAskedOf kind skip self.old.reads self.old.writes self.old.syncs self.new.reads self.new.writes self.new.syncs) }
        ensures err { OnErr result (IsSame self.old.reads self.new.reads × IsSame self.old.writes self.new.writes × IsSame self.old.syncs self.new.syncs) }
        ensures others { self.new ≡ record self.old { reads = self.new.reads; writes = self.new.writes; syncs = self.new.syncs } }
    {
        match kind {
            DiskCall::Read => self.reads.fail_after(skip),
            DiskCall::Write => self.writes.fail_after(skip),
            DiskCall::Sync => self.syncs.fail_after(skip),
        }
    }

    /// Asks that the read which comes after `skip` others has its first byte wrong. From this call on the disk isn't honest, and no
    /// longer tells its bytes.
    pub fn lie_after(&mut self, skip: u64)
        ensures dishonest { ¬ IsHonest (view_of self.new) }
        ensures others { self.new ≡ record self.old { lie = Some (min (self.old.reads.done + skip) (2 ^ 64 - 1)) } }
    {
        self.lie = Some(self.reads.done.saturating_add(skip));
    }

    /// Asks that after so many more calls of any kind every call fails, as of a drive that is gone. It stands in place of an earlier stop.
    pub fn stop_after(&mut self, calls: u64)
        ensures { self.new ≡ record self.old { stop = Some (min (self.old.calls + calls) (2 ^ 64 - 1)) } }
    {
        self.stop = Some(self.calls.saturating_add(calls));
    }

    // Whether the next call comes behind the last that the disk answers.
    fn is_stopped(&self) -> bool
        ensures { result ≡ is_stopped self.now.stop self.now.calls }
    {
        match self.stop {
            Some(number) => number <= self.calls,
            None => false,
        }
    }

    /// How often there was no memory to record a call.
    pub fn starved(&self) -> u64
        ensures { result ≡ self.now.starved }
    {
        self.starved
    }

    /// The number of its moments, of which the first is 0.
    pub fn moments(&self) -> u64
        ensures { result ≡ (view_of self.now).moment + 1 }
    {
        self.changes.len() as u64 + 1
    }

    /// A new disk with what a crash at a moment might have left: of the writes that no sync followed by then, number k, from 0 on, is
    /// there where bit k of `pick` is set. It is honest, with nothing left to sync.
    pub fn image(&self, moment: u64, pick: u64) -> Result<MemDisk, NoMemory>
        requires { moment < (view_of self.now).moment + 1 }
        ensures holds { IfOk result (λ disk. (view_of disk).seen ≡ picked_of pick (state_of self.now moment)) }
        ensures image { IfOk result (λ disk. MayLeave (state_of self.now moment) (view_of disk).seen) }
        ensures left { IfOk result (λ disk. (t : ℕ) → t ≤ moment → (view_of self.now).left_since t (view_of disk).seen) }
        ensures told { IfOk result (λ disk. IsHonest (view_of disk)) }
        ensures synced { IfOk result (λ disk. IsSettled (view_of disk)) }
        ensures fresh { IfOk result IsFresh }
    {
        let held = picked_bytes(
            self.alloc,
            &self.first,
            &self.changes[..moment as usize],
            pick,
        )?;
        let disk = MemDisk::holding(self.alloc, held)?;
        Ok(disk)
    }
}

/// One image after the changes of a disk that held these bytes at first.
fn picked_bytes(
    alloc: Global,
    first: &[u8],
    changes: &[Change],
    pick: u64,
) -> Result<Vec<u8>, NoMemory>
    ensures { IfOk result (λ held. held.items ≡ picked_of pick (replay changes.now (synced first.now))) }
{
    let Ok(mut read) = first.to_vec(alloc) else {
        return Err(AllocError);
    };
    let Ok(mut held) = first.to_vec(alloc) else {
        return Err(AllocError);
    };
    pick_into(changes, pick, &mut read, &mut held);
    Ok(held)
}

/// Puts one image after the changes into `held`, and what a read then gives into `read`.
fn pick_into(changes: &[Change], pick: u64, read: &mut [u8], held: &mut [u8])
    requires { held.old ≡ read.old }
    ensures { held.new ≡ picked_of pick (replay changes.now (synced read.old)) }
{
    let mut rest = pick;
    for change in changes {
        rest = track(change, pick, rest, read, held);
    }
}

/// Goes on by one change, and answers the bits that are left.
fn track(change: &Change, pick: u64, rest: u64, read: &mut [u8], held: &mut [u8]) -> u64
    requires { length held.old ≡ length read.old }
    ensures { (s : State) → Tracks pick s rest read.old held.old → Tracks pick (after change.now s) result read.new held.new }
{
    match change {
        Change::Write(piece) => {
            put_if(piece.landed, read, piece.place, &piece.bytes);
            put_if(rest % 2 == 1, held, piece.place, &piece.bytes);
            rest / 2
        }
        Change::Sync => {
            held.copy_from_slice(read);
            pick
        }
    }
}

/// Puts bytes over those at a place. What would pass the end is left off.
fn put(content: &mut [u8], place: usize, bytes: &[u8])
    ensures { content.new ≡ overwrite place bytes.now content.old }
{
    if place < content.len() {
        let count = bytes.len().min(content.len() - place);
        content[place..place + count].copy_from_slice(&bytes[..count]);
    }
}

fn put_if(wanted: bool, content: &mut [u8], place: usize, bytes: &[u8])
    ensures { content.new ≡ (if wanted then overwrite place bytes.now content.old else content.old) }
{
    if wanted {
        put(content, place, bytes);
    }
}

/// Records a write that is begun.
fn note_write(
    alloc: Global,
    changes: &mut Vec<Change>,
    place: usize,
    bytes: &[u8],
    landed: bool,
) -> Result<(), NoMemory>
    ensures ok { OnOk result (RecordsChange changes.old.items changes.new.items (after_write place bytes.now landed)) }
    ensures err { OnErr result (changes.new.items ≡ changes.old.items) }
{
    let Ok(bytes) = bytes.to_vec(alloc) else {
        return Err(AllocError);
    };
    if changes
        .push(Change::Write(Piece {
            place,
            bytes,
            landed,
        }))
        .is_err()
    {
        return Err(AllocError);
    }
    Ok(())
}

/// Records a sync.
fn note_sync(changes: &mut Vec<Change>) -> Result<(), NoMemory>
    ensures ok { OnOk result (RecordsChange changes.old.items changes.new.items (λ s. synced s.bytes)) }
    ensures err { OnErr result (changes.new.items ≡ changes.old.items) }
{
    if changes.push(Change::Sync).is_err() {
        return Err(AllocError);
    }
    Ok(())
}

fn flip_first(bytes: &mut [u8])
    ensures { bytes.new ≡ flipped bytes.old }
{
    if !bytes.is_empty() {
        bytes[0] = 255 - bytes[0];
    }
}

/// Whether the next read is the one that lies.
fn is_lie_due(lie: Option<u64>, reads: &Tally) -> bool
    ensures { result ≡ is_due lie reads.now }
{
    match lie {
        Some(number) => number == reads.done && reads.done < u64::MAX,
        None => false,
    }
}

impl Disk for MemDisk {
    ghost use Rattle.disk_model.specs.Moments.{view_of};

    ghost view = { λ d. recorded d.first.items d.changes.items (d.lie ≡ None) d.faults d.calls };

    ghost is_disk = { λ d. is_disk d.first.items d.changes.items (d.lie ≡ None) d.faults d.calls };

    fn len(&self) -> u64 {
        self.first.len() as u64
    }

    fn read_at(&mut self, place: u64, out: &mut [u8]) -> Result<(), DiskFault>
        requires { place + length out.old ≤ (view_of self.old).extent }
        ensures read { (view_of self.old).tells → OnOk result (out.new ≡ range place (length out.old) (view_of self.old).seen) }
        ensures bytes { TellsSame (view_of self.old) (view_of self.new) }
        ensures images { Within (view_of self.old).may_leave (meanwhile (view_of self.old) (view_of self.new)) }
        ensures call { IsCall (view_of self.old) (view_of self.new) result }
        // It fails exactly where it was asked to, or where the disk has stopped.
        ensures fails { is_err result ≡ (is_asked self.old.reads || is_stopped self.old.stop self.old.calls) }
        // It gives the bytes, but for the first of the read that lies.
        ensures gives { OnOk result (out.new ≡ (if is_due self.old.lie self.old.reads then flipped (range place (length out.old) (view_of self.old).seen) else range place (length out.old) (view_of self.old).seen)) }
        ensures reads { IsCounted self.old.reads self.new.reads }
        ensures others { self.new ≡ record self.old { reads = self.new.reads; faults = faults_after self.old.faults result; calls = one_more self.old.calls } }
    {
        let stops = self.is_stopped();
        self.calls = self.calls.saturating_add(1);
        let lies = is_lie_due(self.lie, &self.reads);
        if self.reads.count() || stops {
            self.faults = self.faults.saturating_add(1);
            return Err(DiskFault);
        }
        let at = place as usize;
        out.copy_from_slice(&self.content[at..at + out.len()]);
        if lies {
            flip_first(out);
        }
        Ok(())
    }

    fn write_at(&mut self, place: u64, bytes: &[u8]) -> Result<(), DiskFault>
        requires { place + length bytes.now ≤ (view_of self.old).extent }
        ensures written { (view_of self.old).tells → OnOk result (Written place bytes.now (view_of self.old).seen (view_of self.new).seen) }
        ensures bytes { TellsTorn place (length bytes.now) (view_of self.old) (view_of self.new) }
        ensures images { TornFrom place (length bytes.now) (view_of self.old).may_leave (meanwhile (view_of self.old) (view_of self.new)) }
        ensures more { Within (view_of self.new).may_leave (view_of self.old).may_leave }
        ensures loose { OnOk result (Loosens place (length bytes.now) (view_of self.old).may_leave (view_of self.new).may_leave) }
        ensures call { IsCall (view_of self.old) (view_of self.new) result }
        // It fails exactly where it was asked to, where the disk has stopped, or for want of memory for the record.
        ensures fails { FailsWhere (is_asked self.old.writes || is_stopped self.old.stop self.old.calls) self.old.starved self.new.starved result }
        // It is recorded, a failed one too; but for want of memory nothing is done.
        ensures ok { OnOk result (RecordsChange self.old.changes.items self.new.changes.items (after_write place bytes.now true)) }
        ensures err { OnErr result (RecordsChange self.old.changes.items self.new.changes.items (after_write place bytes.now false) ⊎ ((self.new.changes.items ≡ self.old.changes.items) × (self.new.starved ≡ one_more self.old.starved))) }
        ensures writes { IsCounted self.old.writes self.new.writes }
        ensures counts { (self.new.faults ≡ faults_after self.old.faults result) × (self.new.calls ≡ one_more self.old.calls) }
        ensures others { (self.new.first ≡ self.old.first) × (self.new.reads ≡ self.old.reads) × (self.new.syncs ≡ self.old.syncs) × (self.new.lie ≡ self.old.lie) × (self.new.stop ≡ self.old.stop) }
    {
        let stops = self.is_stopped();
        self.calls = self.calls.saturating_add(1);
        let at = place as usize;
        let fails = self.writes.count() || stops;
        let Ok(()) = note_write(self.alloc, &mut self.changes, at, bytes, !fails) else {
            self.starved = self.starved.saturating_add(1);
            self.faults = self.faults.saturating_add(1);
            return Err(DiskFault);
        };
        if fails {
            self.faults = self.faults.saturating_add(1);
            return Err(DiskFault);
        }
        put(&mut self.content, at, bytes);
        Ok(())
    }

    fn sync(&mut self) -> Result<(), DiskFault>
        ensures durable { (view_of self.old).tells → OnOk result (IsOnly (view_of self.old).seen (view_of self.new).may_leave) }
        ensures bytes { TellsSame (view_of self.old) (view_of self.new) }
        ensures failed { (view_of self.old).tells → OnErr result (Within (view_of self.old).may_leave (meanwhile (view_of self.old) (view_of self.new))) }
        ensures images { IsHonest (view_of self.old) → Within (view_of self.old).may_leave (meanwhile (view_of self.old) (view_of self.new)) }
        ensures call { IsCall (view_of self.old) (view_of self.new) result }
        // It fails exactly where it was asked to, where the disk has stopped, or for want of memory for the record.
        ensures fails { FailsWhere (is_asked self.old.syncs || is_stopped self.old.stop self.old.calls) self.old.starved self.new.starved result }
        ensures ok { OnOk result (RecordsChange self.old.changes.items self.new.changes.items (λ s. synced s.bytes)) }
        ensures err { OnErr result (self.new.changes.items ≡ self.old.changes.items) }
        ensures syncs { IsCounted self.old.syncs self.new.syncs }
        ensures counts { (self.new.faults ≡ faults_after self.old.faults result) × (self.new.calls ≡ one_more self.old.calls) }
        ensures others { (self.new.first ≡ self.old.first) × (self.new.reads ≡ self.old.reads) × (self.new.writes ≡ self.old.writes) × (self.new.lie ≡ self.old.lie) × (self.new.stop ≡ self.old.stop) }
    {
        let stops = self.is_stopped();
        self.calls = self.calls.saturating_add(1);
        if self.syncs.count() || stops {
            self.faults = self.faults.saturating_add(1);
            return Err(DiskFault);
        }
        let Ok(()) = note_sync(&mut self.changes) else {
            self.starved = self.starved.saturating_add(1);
            self.faults = self.faults.saturating_add(1);
            return Err(DiskFault);
        };
        Ok(())
    }
}
