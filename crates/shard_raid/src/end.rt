// How a raid ends for a part: what is still marked goes.
ghost use Rattle.std.specs.Prelude.{◌≡◌, ℕ, [], ◌∷◌, Some, count_by, flat_map, ◌&&◌, if◌then◌else◌};
ghost use Rattle.disk_model.specs.Disk.{IsHonest};
ghost use Rattle.model_device.specs.Book.{Setup};
ghost use Rattle.model_device.specs.Device.{State, drop_turn};
ghost use Rattle.model_device.specs.Steps.{rid_of};
ghost use Rattle.model_device.specs.Events.{turn_call, part_ended};
ghost use Rattle.law_facts.specs.Facts.{NoneOlder};
ghost use Rattle.raid_book.specs.Books.{after_turn};
ghost use Rattle.sprig_tree.specs.Entries.{entry_of};
ghost use Rattle.law_sprig.specs.Tests.{is_put_entry, is_tombstone_entry};
ghost use Rattle.law_sprig.specs.Becoming.{Loses, without_cover};
ghost use Rattle.block_shelf.specs.View.{IsSetupOf};
ghost use Rattle.block_shelf.specs.Keeping.{KeepsAll};
ghost use Rattle.block_shelf.specs.Standing.{ImagesHold};
ghost use Rattle.block_shelf.specs.Scans.{possible_copies};
ghost use Rattle.law_steps.specs.Sprigs.{place_of};
ghost use Rattle.law_steps.specs.Standing.{StandTogether};
ghost use Rattle.law_steps.specs.Events.{StepMakes};
ghost use Rattle.shard_raid.specs.Marks.{is_marked_by};
ghost use Rattle.shard_raid.specs.Ends.{SparesOlder, EndsMarked, EndsOne, end_steps, StandAtEnd, GoTogether, SameDisk};

use crate::compare::is_marked_by;
use arena_sprig::Sprig;
use block_shelf::{Place, Shelf};
use disk_model::Disk;
use raid_book::RaidNext;
use rec_format::{Entry, Kind};

/// Each marked tombstone of the part has lost its entry then, and each marked put its cover flag, and it answers how many of either; over
/// an honest disk whose image was sound none of them has an older copy in a pending buffer or in an image that a crash may leave. The
/// raid goes on to its next turn. It takes no memory, and calls no disk.
pub fn raid_end<D: Disk>(sprig: &mut Sprig, shelf: &mut Shelf<D>, part: u32) -> (u64, u64)
    requires turn { shelf.old.raid.next ≡ RaidNext.Drop part }
    requires stand { (setup : Setup) × (s : State) × IsSetupOf setup shelf.old × StandTogether setup part sprig.old shelf.old s }
    ensures makes { (setup : Setup) (s : State) (now : ℕ) → IsSetupOf setup shelf.old → StandTogether setup part sprig.old shelf.old s
        → StepMakes D.view setup part (turn_call shelf.old.raid.number (drop_turn part) now) (part_ended result.0 result.1) shelf.old s sprig.new shelf.new }

    // An entry is removed, or loses its cover, only where no copy of its digest that is older than it waits in a pending buffer, or is in an
    // image that the disk may leave.
    ensures spares { (setup : Setup) (s : State) → IsSetupOf setup shelf.old → StandTogether setup part sprig.old shelf.old s → IsHonest (D.view shelf.old.disk) → ImagesHold setup D.view shelf.old s
        → SparesOlder s (possible_copies D.view shelf.old s) sprig.old.entries sprig.new.entries }
    ensures removed { result.0 ≡ count_by (λ e. is_marked_by shelf.old.raid.number e && is_tombstone_entry e) sprig.old.entries }
    ensures cleared { result.1 ≡ count_by (λ e. is_marked_by shelf.old.raid.number e && is_put_entry e) sprig.old.entries }
    ensures sprig { EndsMarked shelf.old.raid.number sprig.old sprig.new }
    ensures raid { shelf.new.raid ≡ after_turn shelf.old.raid.next part shelf.old.raid }
    ensures disk { shelf.new.disk ≡ shelf.old.disk }
    ensures gates { shelf.new.gates ≡ shelf.old.gates }
    ensures buffers { shelf.new.buffers ≡ shelf.old.buffers }
    ensures kept { KeepsAll shelf.old shelf.new }
    ensures geometry { shelf.new.geometry ≡ shelf.old.geometry }
    ensures limits { shelf.new.limits ≡ shelf.old.limits }
{
    let number = shelf.raid().number();
    let (removed, cleared) = end_entries(sprig, shelf, number);
    shelf.end_turn(part);
    (removed, cleared)
}

// Ends the raid of this number for each entry of a part; answers how many tombstones lost their entry, and how many puts their cover flag.
fn end_entries<D: Disk>(sprig: &mut Sprig, shelf: &mut Shelf<D>, number: u64) -> (u64, u64)
    requires number { number ≡ shelf.old.raid.number }
    requires stand { (setup : Setup) × (s : State) × (part : ℕ) × StandAtEnd setup part sprig.old shelf.old s }
    ensures goes { (setup : Setup) (s : State) (part : ℕ) → StandAtEnd setup part sprig.old shelf.old s
        → GoTogether D.view setup part (flat_map (end_steps number) sprig.old.entries) shelf.old s sprig.new shelf.new }
    ensures removed { result.0 ≡ count_by (λ e. is_marked_by number e && is_tombstone_entry e) sprig.old.entries }
    ensures cleared { result.1 ≡ count_by (λ e. is_marked_by number e && is_put_entry e) sprig.old.entries }
    ensures sprig { EndsMarked number sprig.old sprig.new }
    ensures rest { SameDisk shelf.old shelf.new }
{
    // A sprig has fewer than 2^64 entries.
    let _entries = sprig.len();
    let mut removed = 0;
    let mut cleared = 0;
    let mut next = sprig.next_after(None);
    while let Some(entry) = next {
        let (gone, bare) = end_entry(sprig, shelf, &entry, number);
        removed += gone;
        cleared += bare;
        next = sprig.next_after(Some(&entry.digest));
    }
    (removed, cleared)
}

// Ends the raid of this number for an entry, if it has its mark: answers 1 for a tombstone whose entry is gone, and 1 for a put that lost
// its cover flag.
fn end_entry<D: Disk>(
    sprig: &mut Sprig,
    shelf: &mut Shelf<D>,
    entry: &Entry,
    number: u64,
) -> (u64, u64)
    requires found { entry_of entry.now.digest sprig.old.entries ≡ Some entry.now }
    requires number { number ≡ shelf.old.raid.number }
    requires stand { (setup : Setup) × (s : State) × (part : ℕ) × StandAtEnd setup part sprig.old shelf.old s }
    ensures goes { (setup : Setup) (s : State) (part : ℕ) → StandAtEnd setup part sprig.old shelf.old s
        → GoTogether D.view setup part (end_steps number entry.now) shelf.old s sprig.new shelf.new }
    ensures removed { result.0 ≡ (if is_marked_by number entry.now && is_tombstone_entry entry.now then 1 else 0) }
    ensures cleared { result.1 ≡ (if is_marked_by number entry.now && is_put_entry entry.now then 1 else 0) }
    ensures sprig { EndsOne number entry.now sprig.old sprig.new }
    ensures rest { SameDisk shelf.old shelf.new }
{
    if !is_marked_by(entry, number) {
        return (0, 0);
    }
    match entry.kind {
        Kind::Tomb => {
            remove_entry(sprig, shelf, entry);
            (1, 0)
        }
        Kind::Put => {
            sprig.replace(without_cover(entry));
            (0, 1)
        }
    }
}

// Removes an entry, whose copy is no longer live then.
fn remove_entry<D: Disk>(sprig: &mut Sprig, shelf: &mut Shelf<D>, entry: &Entry)
    requires found { entry_of entry.now.digest sprig.old.entries ≡ Some entry.now }
    requires stand { (setup : Setup) × (s : State) × (part : ℕ) × StandAtEnd setup part sprig.old shelf.old s }
    ensures goes { (setup : Setup) (s : State) (part : ℕ) → StandAtEnd setup part sprig.old shelf.old s
        → (IsHonest (D.view shelf.old.disk) → ImagesHold setup D.view shelf.old s → NoneOlder s (possible_copies D.view shelf.old s) entry.now.digest)
        → GoTogether D.view setup part (rid_of entry.now.digest ∷ []) shelf.old s sprig.new shelf.new }
    ensures sprig { Loses entry.now.digest sprig.old sprig.new }
    ensures rest { SameDisk shelf.old shelf.new }
{
    let place = place_of_entry(entry);
    prove!(place.block < shelf.geometry().blocks);
    shelf.drop_live(place);
    let _gone = sprig.remove(&entry.digest);
}

// The entry without its cover flag and its mark.
fn without_cover(entry: &Entry) -> Entry
    ensures { result ≡ without_cover entry.now }
{
    Entry {
        cover: false,
        mark: 0,
        ..*entry
    }
}

// Where the copy of an entry lies.
fn place_of_entry(entry: &Entry) -> Place
    ensures { result ≡ place_of entry.now }
{
    Place {
        block: entry.block,
        unit: entry.unit,
        units: entry.units,
    }
}
