// A sprig in one sorted row of entries, which is searched by halving.
ghost use Rattle.std.specs.Prelude.{◌≡◌, ◌+◌, ◌-◌, ◌≤◌, ◌<◌, ◌^◌, [], length, max, Some, None, IsSome, IsOk, IfOk, IfErr, OnOk, OnErr, is_some, slice_get, if◌then◌else◌};
ghost use Rattle.std.specs.Option.{option_copied};
ghost use Rattle.sprig_tree.specs.Entries.{IsInDigestOrder, entry_of, entry_after, with_entry, with_replaced, without_digest};
ghost use Rattle.sprig_tree.specs.Search.{IsPlaceOf, IsGapFor};
ghost use Rattle.sprig_tree.specs.Tallies.{tally_of};

use crate::{NoMemory, Tally};
use rec_format::{Digest, Entry};
use std::alloc::Global;
use std::marker::Model;

/// The entries of one sprig, its high time, in milliseconds, and the tally of its entries.
#[derive(Drop)]
pub struct Sprig {
    row: Vec<Entry>,
    high: u64,
    tally: Tally,
}

impl Model for Sprig {
    ghost use Rattle.std.specs.Prelude.{◌-◌, vec_len, vec_capacity};
    ghost use Rattle.sprig_tree.specs.State.{SprigState};
    ghost use Rattle.sprig_tree.specs.Tallies.{IsKept};

    ghost Value = { SprigState };

    ghost view = { λ s. record { entries = s.row.items; hw = s.high; spare = vec_capacity s.row - vec_len s.row } };

    ghost invariant = { λ s. IsKept s.row.items s.tally };
}

impl Sprig {
    /// An empty sprig, which has given no time and has no room. It keeps the allocator.
    pub fn new(alloc: Global) -> Sprig
        ensures { result ≡ record { entries = []; hw = 0; spare = 0 } }
    {
        Sprig {
            row: Vec::new(alloc),
            high: 0,
            tally: Tally::default(),
        }
    }

    /// At `Ok` there is room for `n` entries more. An `Err` is want of memory, and leaves everything as it
    /// was.
    pub fn reserve(&mut self, n: u32) -> Result<(), NoMemory>
        ensures room { OnOk result (n ≤ self.new.spare) }
        ensures grows { self.old.spare ≤ self.new.spare }
        ensures entries { self.new.entries ≡ self.old.entries }
        ensures high { self.new.hw ≡ self.old.hw }
        ensures err { OnErr result (self.new ≡ self.old) }

        // It can fail only where that room was missing.
        ensures enough { n ≤ self.old.spare → IsOk result }
    {
        let (count, spare) = (n as usize, self.row.capacity() - self.row.len());
        if count <= spare {
            return Ok(());
        }
        // A row has room made for two more, a longer one for an eighth, so that little memory lies idle and it isn't moved each time.
        let more = match self.row.len() {
            0 => 1,
            length => (length / 8).max(2),
        };
        self.row.reserve_exact(count.max(more))
    }

    /// The entry is in its place then, in room that was reserved; its digest must have had none. The high
    /// time rises to its time, if it was below.
    pub fn insert(&mut self, entry: Entry)
        requires room { 1 ≤ self.old.spare }
        requires absent { entry_of entry.digest self.old.entries ≡ None }
        ensures { self.new ≡ record {
          entries = with_entry entry self.old.entries;
          hw = max self.old.hw entry.stamp.lut;
          spare = self.old.spare - 1;
        } }
    {
        let Err(at) = self.search(&entry.digest) else {
            unreachable!()
        };
        self.row.insert(at, entry).unwrap();
        self.tally = self.tally.plus(Tally::of(&entry));
        self.high = self.high.max(entry.stamp.lut);
    }

    /// The entry of a digest; none where it has none.
    pub fn find(&self, digest: &Digest) -> Option<Entry>
        ensures value { result ≡ entry_of digest.now self.now.entries }
        ensures sorted { IsInDigestOrder self.now.entries }
    {
        match self.search(digest) {
            Ok(at) => Some(self.row[at]),
            Err(_) => None,
        }
    }

    /// The entry stands in place of the one of its digest then, which there must be. The high time rises to
    /// its time, if it was below.
    pub fn replace(&mut self, entry: Entry)
        requires { IsSome (entry_of entry.digest self.old.entries) }
        ensures { self.new ≡ record self.old {
          entries = with_replaced entry self.old.entries;
          hw = max self.old.hw entry.stamp.lut;
        } }
    {
        let Ok(at) = self.search(&entry.digest) else {
            unreachable!()
        };
        self.tally = self
            .tally
            .minus(Tally::of(&self.row[at]))
            .plus(Tally::of(&entry));
        self.row[at] = entry;
        self.high = self.high.max(entry.stamp.lut);
    }

    /// The entry of a digest, which is taken out, where there was one. Its room is spare from then on, and
    /// the high time stays.
    pub fn remove(&mut self, digest: &Digest) -> Option<Entry>
        ensures value { result ≡ entry_of digest.now self.old.entries }
        ensures rest { self.new ≡ record self.old {
          entries = without_digest digest.now self.old.entries;
          spare = self.old.spare + (if is_some result then 1 else 0);
        } }
    {
        match self.search(digest) {
            Ok(at) => {
                let entry = self.row.remove(at);
                self.tally = self.tally.minus(Tally::of(&entry));
                Some(entry)
            }
            Err(_) => None,
        }
    }

    /// The first entry after a digest, which need not have one itself; of no digest, the first of all. None
    /// where there is none.
    pub fn next_after(&self, digest: Option<&Digest>) -> Option<Entry>
        ensures value { result ≡ entry_after (option_copied digest.entry) self.now.entries }
        ensures sorted { IsInDigestOrder self.now.entries }
    {
        let at = match digest {
            Some(digest) => self.place_after(digest),
            None => 0,
        };
        self.row.get(at).copied()
    }

    /// The number of entries.
    pub fn len(&self) -> u64
        ensures value { result ≡ length self.now.entries }
        ensures sorted { IsInDigestOrder self.now.entries }
    {
        self.row.len() as u64
    }

    /// How many entries of each kind there are.
    pub fn tally(&self) -> Tally
        ensures { result ≡ tally_of self.now.entries }
    {
        self.tally
    }

    /// The high time, in milliseconds.
    pub fn hw(&self) -> u64
        ensures { result ≡ self.now.hw }
    {
        self.high
    }

    /// The high time is this one then, in milliseconds, if it was below it.
    pub fn raise_hw(&mut self, time: u64)
        ensures { self.new ≡ record self.old { hw = max self.old.hw time } }
    {
        self.high = self.high.max(time);
    }

    /// Where the entry of a digest is, or where it would go.
    fn search(&self, digest: &Digest) -> Result<usize, usize>
        ensures found { IfOk result (IsPlaceOf digest.now self.now.entries) }
        ensures absent { IfErr result (IsGapFor digest.now self.now.entries) }
        ensures sorted { IsInDigestOrder self.now.entries }
        ensures small { length self.now.entries < 2 ^ 63 }
    {
        self.row.binary_search_by_key(digest, |entry| entry.digest)
    }

    /// Where the first entry after a digest is, or the end.
    fn place_after(&self, digest: &Digest) -> usize
        ensures { slice_get self.now.entries result ≡ entry_after (Some digest.now) self.now.entries }
    {
        match self.search(digest) {
            Ok(at) => at + 1,
            Err(at) => at,
        }
    }
}
