// The history of a digest: its writes, and its deletes in memory alone, in their order.
use std::alloc::{AllocError, Global};

/// A put or a tombstone.
#[derive(Drop)]
pub struct Write {
    pub is_put: bool,
    pub gen_: u64,
    pub lut: u64,
    pub void: u64,
    /// The digits of the payload, as they were sent.
    pub data: String,
    pub is_covered: bool,
    /// Whether it is known to be flushed.
    pub is_flushed: bool,
}

#[derive(Drop)]
pub enum Item {
    Write(Write),
    /// The entry was taken out of the index, and nothing was written.
    Removed,
}

/// The items, oldest first.
#[derive(Drop)]
pub struct History {
    pub items: Vec<Item>,
}

impl Write {
    fn copy(&self, alloc: Global) -> Result<Write, AllocError> {
        Ok(Write {
            is_put: self.is_put,
            gen_: self.gen_,
            lut: self.lut,
            void: self.void,
            data: String::from_str(alloc, self.data.as_str())?,
            is_covered: self.is_covered,
            is_flushed: self.is_flushed,
        })
    }

    fn is_same(&self, other: &Write) -> bool {
        self.is_put == other.is_put
            && self.gen_ == other.gen_
            && self.lut == other.lut
            && self.void == other.void
            && self.data.as_str() == other.data.as_str()
            && self.is_covered == other.is_covered
            && self.is_flushed == other.is_flushed
    }

    /// Whether it is past its life.
    pub fn is_expired(&self, now: u64) -> bool {
        self.void != 0 && self.void <= now / 1000
    }
}

impl Item {
    fn copy(&self, alloc: Global) -> Result<Item, AllocError> {
        match self {
            Item::Write(write) => Ok(Item::Write(write.copy(alloc)?)),
            Item::Removed => Ok(Item::Removed),
        }
    }

    // Whether it is a flushed write, or a flushed tombstone where that is asked for.
    fn is_sure(&self, is_tomb: bool) -> bool {
        match self {
            Item::Write(write) => write.is_flushed && !(is_tomb && write.is_put),
            Item::Removed => false,
        }
    }

    fn is_write(&self) -> bool {
        matches!(self, Item::Write(_))
    }

    fn is_same(&self, other: &Item) -> bool {
        match (self, other) {
            (Item::Write(one), Item::Write(other)) => one.is_same(other),
            (Item::Removed, Item::Removed) => true,
            _ => false,
        }
    }
}

impl History {
    pub fn new(alloc: Global) -> History {
        History {
            items: Vec::new(alloc),
        }
    }

    /// The first so many items.
    fn front(&self, alloc: Global, count: usize) -> Result<History, AllocError> {
        let mut items = Vec::new(alloc);
        for item in self.items.iter().take(count) {
            items.push(item.copy(alloc)?)?;
        }
        Ok(History { items })
    }

    pub fn copy(&self, alloc: Global) -> Result<History, AllocError> {
        self.front(alloc, self.items.len())
    }

    /// It with one more item.
    pub fn with(&self, alloc: Global, item: Item) -> Result<History, AllocError> {
        let mut history = self.copy(alloc)?;
        history.items.push(item)?;
        Ok(history)
    }

    /// The last write, unless it was taken out of the index.
    pub fn top(&self) -> Option<&Write> {
        match self.items.last() {
            Some(Item::Write(write)) => Some(write),
            _ => None,
        }
    }

    /// What a reader sees.
    pub fn seen(&self, now: u64) -> Option<&Write> {
        self.top()
            .filter(|write| write.is_put && !write.is_expired(now))
    }

    /// It with all flushed, without what is older than its last tombstone, since nothing brings that back.
    fn flushed(&self, alloc: Global) -> Result<History, AllocError> {
        let mut history = self.copy(alloc)?;
        for item in history.items.iter_mut() {
            if let Item::Write(write) = item {
                write.is_flushed = true;
            }
        }
        let older = history.behind_sure(true).saturating_sub(1);
        let mut items = Vec::new(alloc);
        for item in history.items.iter().skip(older) {
            items.push(item.copy(alloc)?)?;
        }
        Ok(History { items })
    }

    /// Puts it behind others with all flushed, unless it is among them.
    pub fn add_flushed(&self, alloc: Global, all: &mut Vec<History>) -> Result<(), AllocError> {
        self.flushed(alloc)?.add_to(all)
    }

    fn is_same(&self, other: &History) -> bool {
        self.items.len() == other.items.len()
            && self
                .items
                .iter()
                .zip(other.items.iter())
                .all(|(one, other)| one.is_same(other))
    }

    /// Puts it behind others, unless it is among them.
    pub fn add_to(self, all: &mut Vec<History>) -> Result<(), AllocError> {
        if !all.iter().any(|one| one.is_same(&self)) {
            all.push(self)?;
        }
        Ok(())
    }

    // The number behind the last flushed write, or tombstone; 0 where there is none.
    fn behind_sure(&self, is_tomb: bool) -> usize {
        let mut behind = 0_usize;
        let mut number = 0_usize;
        for item in &self.items {
            number = number.saturating_add(1);
            if item.is_sure(is_tomb) {
                behind = number;
            }
        }
        behind
    }

    // Whether the entry was taken out of the index behind so many items.
    fn is_removed_behind(&self, count: usize) -> bool {
        self.items.iter().skip(count).any(|item| !item.is_write())
    }

    /// Puts behind others what a start may make of it: each front of it that ends in a write, reaches the last flushed write, unless an entry
    /// was taken out of the index since, and has each flushed tombstone; or nothing, where no flushed write has to be there.
    pub fn add_fronts(&self, alloc: Global, fronts: &mut Vec<History>) -> Result<(), AllocError> {
        let flushed = self.behind_sure(false);
        let is_free = self.is_removed_behind(flushed) || flushed == 0;
        let least = if is_free {
            self.behind_sure(true)
        } else {
            flushed
        };
        if is_free {
            History::new(alloc).add_to(fronts)?;
        }
        let mut number = 0_usize;
        for item in &self.items {
            number = number.saturating_add(1);
            if least <= number && item.is_write() {
                self.front(alloc, number)?.add_flushed(alloc, fronts)?;
            }
        }
        Ok(())
    }
}
