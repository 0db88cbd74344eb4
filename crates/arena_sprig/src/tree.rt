// A search tree whose entries are in an arena, with the tally of its entries.
ghost use Rattle.std.specs.Prelude.{◌≡◌, ◌+◌, ◌-◌, ◌≤◌, [], length, None, IsSome, IsOk, OnOk, OnErr, is_some, if◌then◌else◌};
ghost use Rattle.std.specs.Option.{option_copied};
ghost use Rattle.sprig_tree.specs.Entries.{IsInDigestOrder, entry_of, entry_after, with_entry, with_replaced, without_digest};
ghost use Rattle.sprig_tree.specs.Tallies.{tally_of};

use crate::growth::grow;
use crate::links::{LEAF, Links, NONE};
use crate::sizes::Sizes;
use crate::walks::{first, first_after, look_up, steps_to};
use crate::{NoMemory, Tally, edits};
use entry_arena::{Arena, FIRST};
use rec_format::{Digest, Entry};
use smallvec::SmallVec;
use std::alloc::Global;
use std::marker::Model;

/// The entries of one sprig, with the room that was reserved for more of them.
#[derive(Drop)]
pub(crate) struct Tree {
    // What each look-up reads first.
    root: u32,
    count: u32,
    // How many entries more there is room for, as was promised.
    room: u32,
    tally: Tally,
    arena: Arena,
    links: Links,
    sizes: Sizes,
}

impl Model for Tree {
    ghost use Rattle.arena_sprig.specs.Growth.{TreeState};
    ghost use Rattle.arena_sprig.specs.Tree.{entries_from};
    ghost use Rattle.arena_sprig.specs.Growth.{IsKept};

    ghost Value = { TreeState };

    ghost view = { λ t. record { entries = entries_from t.count t.arena.slots t.links.items t.root; spare = t.room } };

    ghost invariant = { λ t. IsKept t.arena t.links.items t.root t.count t.room t.tally };
}

impl Tree {
    /// An empty tree without room. It keeps the allocator.
    pub fn new(alloc: Global) -> Tree
        ensures { result ≡ record { entries = []; spare = 0 } }
    {
        Tree {
            root: NONE,
            count: 0,
            room: 0,
            tally: Tally::default(),
            arena: Arena::new(alloc),
            links: SmallVec::from_buf(alloc, [LEAF; FIRST]),
            sizes: SmallVec::from_buf(alloc, [0; FIRST]),
        }
    }

    /// At `Ok` there is room for `n` entries more. An `Err` is want of memory, and leaves everything as it
    /// was.
    pub fn reserve(&mut self, n: u32) -> Result<(), NoMemory>
        ensures room { OnOk result (n ≤ self.new.spare) }
        ensures grows { self.old.spare ≤ self.new.spare }
        ensures entries { self.new.entries ≡ self.old.entries }
        ensures err { OnErr result (self.new ≡ self.old) }

        // It can fail only where that room was missing.
        ensures enough { n ≤ self.old.spare → IsOk result }
    {
        if n <= self.room {
            return Ok(());
        }
        grow(&mut self.arena, &mut self.links, &mut self.sizes, n)?;
        self.room = self.arena.spare();
        Ok(())
    }

    /// The entry is in its place then, in room that was reserved; its digest must have had none.
    pub fn insert(&mut self, entry: Entry)
        requires room { 1 ≤ self.old.spare }
        requires absent { entry_of entry.digest self.old.entries ≡ None }
        ensures { self.new ≡ record {
          entries = with_entry entry self.old.entries;
          spare = self.old.spare - 1;
        } }
    {
        edits::insert(
            &mut self.arena,
            &mut self.links,
            &mut self.sizes,
            &mut self.root,
            self.count,
            entry,
        );
        self.count += 1;
        self.room -= 1;
        self.tally = self.tally.plus(Tally::of(&entry));
    }

    /// The entry of a digest; none where it has none.
    pub fn find(&self, digest: &Digest) -> Option<Entry>
        ensures value { result ≡ entry_of digest.now self.now.entries }
        ensures sorted { IsInDigestOrder self.now.entries }
    {
        look_up(&self.arena, &self.links, self.root, self.count, digest)
    }

    /// The entry stands in place of the one of its digest then, which there must be.
    pub fn replace(&mut self, entry: Entry)
        requires { IsSome (entry_of entry.digest self.old.entries) }
        ensures { self.new ≡ record self.old {
          entries = with_replaced entry self.old.entries;
        } }
    {
        let old = edits::replace(&mut self.arena, &self.links, self.root, self.count, entry);
        self.tally = self.tally.minus(Tally::of(&old)).plus(Tally::of(&entry));
    }

    /// The entry of a digest, which is taken out, where there was one. Its room is spare from then on.
    pub fn remove(&mut self, digest: &Digest) -> Option<Entry>
        ensures value { result ≡ entry_of digest.now self.old.entries }
        ensures rest { self.new ≡ record self.old {
          entries = without_digest digest.now self.old.entries;
          spare = self.old.spare + (if is_some result then 1 else 0);
        } }
    {
        self.find(digest)?;
        let entry = edits::remove(
            &mut self.arena,
            &mut self.links,
            &mut self.sizes,
            &mut self.root,
            self.count,
            digest,
        );
        self.count -= 1;
        self.room += 1;
        self.tally = self.tally.minus(Tally::of(&entry));
        Some(entry)
    }

    /// The first entry after a digest, which need not have one itself; of no digest, the first of all. None
    /// where there is none.
    pub fn next_after(&self, digest: Option<&Digest>) -> Option<Entry>
        ensures value { result ≡ entry_after (option_copied digest.entry) self.now.entries }
        ensures sorted { IsInDigestOrder self.now.entries }
    {
        match digest {
            Some(digest) => first_after(&self.arena, &self.links, self.root, self.count, digest),
            None => first(&self.arena, &self.links, self.root, self.count),
        }
    }

    /// The number of entries.
    pub fn len(&self) -> u64
        ensures value { result ≡ length self.now.entries }
        ensures sorted { IsInDigestOrder self.now.entries }
    {
        u64::from(self.count)
    }

    /// How many entries a look-up of a digest visits.
    pub fn steps(&self, digest: &Digest) -> u32
        ensures { result ≤ length self.now.entries }
    {
        steps_to(&self.arena, &self.links, self.root, self.count, digest)
    }

    /// How many entries of each kind there are.
    pub fn tally(&self) -> Tally
        ensures { result ≡ tally_of self.now.entries }
    {
        self.tally
    }
}
