use super::digests::{Order, digest_of, entry_of};
use super::sprigs::enter;
use arena_sprig::Sprig;
use rec_format::{Digest, Entry};
use sprig_tree::Sprig as Row;
use std::alloc::Global;
use std::test::Fail;

/// The digests that both are given.
const FEW: u32 = 2000;

/// A sprig and a row that are given the same calls.
#[derive(Drop)]
struct Pair {
    sprig: Sprig,
    row: Row,
}

/// Puts an entry into a row.
fn enter_row(row: &mut Row, entry: Entry) -> Result<(), Fail> {
    if row.find(&entry.digest).is_some() {
        row.replace(entry);
    } else {
        row.reserve(1)?;
        row.insert(entry);
    }
    Ok(())
}

fn same(one: Option<Entry>, other: Option<Entry>) -> Result<(), Fail> {
    if one == other {
        Ok(())
    } else {
        Err("they differ".into())
    }
}

impl Pair {
    fn put(&mut self, entry: Entry) -> Result<(), Fail> {
        enter(&mut self.sprig, entry)?;
        enter_row(&mut self.row, entry)
    }

    fn remove(&mut self, digest: &Digest) -> Result<(), Fail> {
        same(self.sprig.remove(digest), self.row.remove(digest))
    }

    /// Looks a digest up, and what comes after it.
    fn look(&self, digest: &Digest) -> Result<(), Fail> {
        same(self.sprig.find(digest), self.row.find(digest))?;
        same(
            self.sprig.next_after(Some(digest)),
            self.row.next_after(Some(digest)),
        )
    }

    /// Goes over all entries of both.
    fn walk(&self) -> Result<(), Fail> {
        let mut last: Option<Digest> = None;
        for _ in 0..=FEW {
            let next = self.sprig.next_after(last.as_ref());
            same(next, self.row.next_after(last.as_ref()))?;
            match next {
                Some(entry) => last = Some(entry.digest),
                None => return Ok(()),
            }
        }
        Err("too many".into())
    }
}

/// Each number is put; each third is removed then, and each fourth put again, in another block.
fn turn(pair: &mut Pair, order: Order, number: u32) -> Result<(), Fail> {
    pair.put(entry_of(order, number, number))?;
    pair.remove(&digest_of(order, number / 3))?;
    pair.put(entry_of(order, number / 4 * 3, FEW))?;
    pair.look(&digest_of(order, number / 2))
}

/// A sprig and a row are given the same calls over digests in this order, and answer the same.
pub fn gives_the_same(alloc: Global, order: Order) -> Result<(), Fail> {
    let mut pair = Pair {
        sprig: Sprig::new(alloc),
        row: Row::new(alloc),
    };
    for number in 0..FEW {
        turn(&mut pair, order, number)?;
    }
    pair.walk()
}
