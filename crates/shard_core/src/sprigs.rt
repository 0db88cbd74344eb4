// The sprigs of a device, one for each part.
ghost use Rattle.std.specs.Prelude.{◌≡◌, ◌++◌, length, IfOk, OnOk};
ghost use Rattle.std.specs.List.{AllByRecursion};
ghost use Rattle.shard_core.specs.Sprigs.{IsEmptySprig, all_entries};
ghost use Rattle.law_steps.specs.Sprigs.{place_of};
ghost use Rattle.shard_core.specs.Finding.{live_places};

use arena_sprig::Sprig;
use block_shelf::Place;
use rec_format::{Digest, Entry, NoMemory};
use std::alloc::Global;

/// So many empty sprigs.
pub(crate) fn empty_sprigs(alloc: Global, parts: u32) -> Result<Vec<Sprig>, NoMemory>
    ensures count { IfOk result (λ sprigs. length sprigs.items ≡ parts) }
    ensures empty { IfOk result (λ sprigs. AllByRecursion IsEmptySprig sprigs.items) }
{
    let mut sprigs = Vec::with_capacity(alloc, parts as usize)?;
    for _part in 0..parts {
        sprigs.push(Sprig::new(alloc))?;
    }
    Ok(sprigs)
}

/// Where the copies of all entries lie, part after part, those of a part in digest order.
pub(crate) fn live_copies(alloc: Global, sprigs: &[Sprig]) -> Result<Vec<(Digest, Place)>, NoMemory>
    ensures { IfOk result (λ live. live.items ≡ live_places (all_entries sprigs.now)) }
{
    let mut live = Vec::new(alloc);
    for sprig in sprigs {
        push_copies(sprig, &mut live)?;
    }
    Ok(live)
}

// Those of one sprig come to the others.
fn push_copies(sprig: &Sprig, live: &mut Vec<(Digest, Place)>) -> Result<(), NoMemory>
    ensures { OnOk result (live.new.items ≡ live.old.items ++ live_places sprig.now.entries) }
{
    let mut next = sprig.next_after(None);
    while let Some(entry) = next {
        live.push((entry.digest, place_of_entry(&entry)))?;
        next = sprig.next_after(Some(&entry.digest));
    }
    Ok(())
}

/// Where the copy of an entry lies.
pub(crate) fn place_of_entry(entry: &Entry) -> Place
    ensures { result ≡ place_of entry.now }
{
    Place {
        block: entry.block,
        unit: entry.unit,
        units: entry.units,
    }
}
