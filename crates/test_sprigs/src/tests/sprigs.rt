use super::digests::{Order, digest_of, entry_of};
use arena_sprig::Sprig;
use rec_format::{Digest, Entry};
use std::alloc::Global;
use std::test::Fail;

/// The digests that a sprig is given.
const MANY: u32 = 20_000;

/// Puts an entry into a sprig.
pub fn enter(sprig: &mut Sprig, entry: Entry) -> Result<(), Fail> {
    if sprig.find(&entry.digest).is_some() {
        sprig.replace(entry);
    } else {
        sprig.reserve(1)?;
        sprig.insert(entry);
    }
    Ok(())
}

fn put_all(sprig: &mut Sprig, order: Order) -> Result<(), Fail> {
    for number in 0..MANY {
        enter(sprig, entry_of(order, number, number))?;
    }
    Ok(())
}

/// Whether an entry is the one of a number.
fn is_of(entry: Option<Entry>, number: u32) -> bool {
    match entry {
        Some(entry) => entry.block == number,
        None => false,
    }
}

fn find_all(sprig: &Sprig, order: Order) -> Result<(), Fail> {
    for number in 0..MANY {
        if !is_of(sprig.find(&digest_of(order, number)), number) {
            return Err("one wasn't found".into());
        }
    }
    Ok(())
}

/// Removes those of odd numbers.
fn remove_odd(sprig: &mut Sprig, order: Order) -> Result<(), Fail> {
    for half in 0..MANY / 2 {
        let number = 2 * half + 1;
        if !is_of(sprig.remove(&digest_of(order, number)), number) {
            return Err("one wasn't removed".into());
        }
    }
    Ok(())
}

/// Finds those of even numbers alone.
fn find_even(sprig: &Sprig, order: Order) -> Result<(), Fail> {
    for number in 0..MANY {
        let found = sprig.find(&digest_of(order, number));
        let even = number.is_multiple_of(2);
        if found.is_some() != even {
            return Err("another was removed".into());
        }
    }
    Ok(())
}

/// The entries from the first to the last, of which each comes after the one before.
fn walk(sprig: &Sprig) -> Result<u32, Fail> {
    let mut last: Option<Digest> = None;
    for count in 0..=MANY {
        let Some(next) = sprig.next_after(last.as_ref()) else {
            return Ok(count);
        };
        if last.is_some_and(|last| next.digest <= last) {
            return Err("out of order".into());
        }
        last = Some(next.digest);
    }
    Err("too many".into())
}

/// A sprig is given many digests in this order, and half of them are removed.
pub fn keeps_many(alloc: Global, order: Order) -> Result<(), Fail> {
    let mut sprig = Sprig::new(alloc);
    put_all(&mut sprig, order)?;
    find_all(&sprig, order)?;
    remove_odd(&mut sprig, order)?;
    find_even(&sprig, order)?;
    if walk(&sprig)? != MANY / 2 {
        return Err("a walk lost some".into());
    }
    Ok(())
}
