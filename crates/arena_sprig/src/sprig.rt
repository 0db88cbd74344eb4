// A sprig: a search tree in a box, which is made when room for its first entry is asked for.
ghost use Rattle.std.specs.Prelude.{◌≡◌, ◌+◌, ◌-◌, ◌≤◌, [], length, max, None, IsSome, IsOk, OnOk, OnErr, is_some, if◌then◌else◌};
ghost use Rattle.std.specs.Option.{option_copied};
ghost use Rattle.sprig_tree.specs.Entries.{IsInDigestOrder, entry_of, entry_after, with_entry, with_replaced, without_digest};
ghost use Rattle.sprig_tree.specs.Tallies.{tally_of};

use crate::tree::Tree;
use crate::{NoMemory, Tally};
use rec_format::{Digest, Entry};
use std::alloc::Global;
use std::marker::Model;

/// How many bytes a sprig has in its box, where it has one.
pub const BOXED: u64 = size_of::<Tree>() as u64;

/// The entries of one sprig, its high time, in milliseconds, and the tally of its entries.
///
/// It has three words, so it is moved at little cost. What else it needs lies in a box, which no sprig has while no room in it
/// was ever asked for.
#[derive(Drop)]
pub struct Sprig {
    tree: Option<Box<Tree>>,
    high: u64,
    alloc: Global,
}

impl Model for Sprig {
    ghost use Rattle.sprig_tree.specs.State.{SprigState};
    ghost use Rattle.arena_sprig.specs.Growth.{entries_of, spare_of};

    ghost Value = { SprigState };

    ghost view = { λ s. record { entries = entries_of s.tree; hw = s.high; spare = spare_of s.tree } };
}

impl Sprig {
    /// An empty sprig, which has given no time and has no room. It keeps the allocator.
    pub fn new(alloc: Global) -> Sprig
        ensures { result ≡ record { entries = []; hw = 0; spare = 0 } }
    {
        Sprig {
            tree: None,
            high: 0,
            alloc,
        }
    }

    /// At `Ok` there is room for `n` entries more. An `Err` is want of memory, and leaves everything as it
    /// was.
    pub fn reserve(&mut self, n: u32) -> Result<(), NoMemory>
        ensures room { OnOk result (n ≤ self.new.spare) }
        ensures grows { self.old.spare ≤ self.new.spare }
        ensures entries { self.new.entries ≡ self.old.entries }
        ensures high { self.new.hw ≡ self.old.hw }
        ensures err { OnErr result (self.new ≡ self.old) }

        // It can fail only where that room was missing.
        ensures enough { n ≤ self.old.spare → IsOk result }
    {
        if n == 0 {
            return Ok(());
        }
        if let Some(tree) = &mut self.tree {
            return tree.reserve(n);
        }
        let mut tree = Tree::new(self.alloc);
        tree.reserve(n)?;
        self.tree = Some(Box::new(self.alloc, tree)?);
        Ok(())
    }

    /// The entry is in its place then, in room that was reserved; its digest must have had none. The high
    /// time rises to its time, if it was below.
    pub fn insert(&mut self, entry: Entry)
        requires room { 1 ≤ self.old.spare }
        requires absent { entry_of entry.digest self.old.entries ≡ None }
        ensures { self.new ≡ record {
          entries = with_entry entry self.old.entries;
          hw = max self.old.hw entry.stamp.lut;
          spare = self.old.spare - 1;
        } }
    {
        if let Some(tree) = &mut self.tree {
            tree.insert(entry);
        }
        self.raise_hw(entry.stamp.lut);
    }

    /// The entry of a digest; none where it has none.
    pub fn find(&self, digest: &Digest) -> Option<Entry>
        ensures value { result ≡ entry_of digest.now self.now.entries }
        ensures sorted { IsInDigestOrder self.now.entries }
    {
        match &self.tree {
            Some(tree) => tree.find(digest),
            None => None,
        }
    }

    /// The entry stands in place of the one of its digest then, which there must be. The high time rises to
    /// its time, if it was below.
    pub fn replace(&mut self, entry: Entry)
        requires { IsSome (entry_of entry.digest self.old.entries) }
        ensures { self.new ≡ record self.old {
          entries = with_replaced entry self.old.entries;
          hw = max self.old.hw entry.stamp.lut;
        } }
    {
        if let Some(tree) = &mut self.tree {
            tree.replace(entry);
        }
        self.raise_hw(entry.stamp.lut);
    }

    /// The entry of a digest, which is taken out, where there was one. Its room is spare from then on, and
    /// the high time stays.
    pub fn remove(&mut self, digest: &Digest) -> Option<Entry>
        ensures value { result ≡ entry_of digest.now self.old.entries }
        ensures rest { self.new ≡ record self.old {
          entries = without_digest digest.now self.old.entries;
          spare = self.old.spare + (if is_some result then 1 else 0);
        } }
    {
        match &mut self.tree {
            Some(tree) => tree.remove(digest),
            None => None,
        }
    }

    /// The first entry after a digest, which need not have one itself; of no digest, the first of all. None
    /// where there is none.
    pub fn next_after(&self, digest: Option<&Digest>) -> Option<Entry>
        ensures value { result ≡ entry_after (option_copied digest.entry) self.now.entries }
        ensures sorted { IsInDigestOrder self.now.entries }
    {
        match &self.tree {
            Some(tree) => tree.next_after(digest),
            None => None,
        }
    }

    /// The number of entries.
    pub fn len(&self) -> u64
        ensures value { result ≡ length self.now.entries }
        ensures sorted { IsInDigestOrder self.now.entries }
    {
        match &self.tree {
            Some(tree) => tree.len(),
            None => 0,
        }
    }

    /// How many entries a look-up of a digest visits.
    pub fn steps(&self, digest: &Digest) -> u32
        ensures { result ≤ length self.now.entries }
    {
        match &self.tree {
            Some(tree) => tree.steps(digest),
            None => 0,
        }
    }

    /// How many entries of each kind there are.
    pub fn tally(&self) -> Tally
        ensures { result ≡ tally_of self.now.entries }
    {
        match &self.tree {
            Some(tree) => tree.tally(),
            None => Tally::default(),
        }
    }

    /// The high time, in milliseconds.
    pub fn hw(&self) -> u64
        ensures { result ≡ self.now.hw }
    {
        self.high
    }

    /// The high time is this one then, in milliseconds, if it was below it.
    pub fn raise_hw(&mut self, time: u64)
        ensures { self.new ≡ record self.old { hw = max self.old.hw time } }
    {
        self.high = self.high.max(time);
    }
}
