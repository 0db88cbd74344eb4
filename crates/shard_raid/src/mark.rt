// How the entries of a part are marked.
ghost use Rattle.std.specs.Prelude.{◌≡◌, count_by};
ghost use Rattle.model_device.specs.Book.{Setup};
ghost use Rattle.model_device.specs.Device.{State, mark_turn};
ghost use Rattle.model_device.specs.Events.{turn_call, marks_made};
ghost use Rattle.raid_book.specs.Books.{after_turn};
ghost use Rattle.tomb_rules.specs.Covers.{is_eligible_entry};
ghost use Rattle.law_sprig.specs.Becoming.{mark_given, remarked, with_mark};
ghost use Rattle.block_shelf.specs.View.{IsSetupOf};
ghost use Rattle.law_steps.specs.Standing.{StandTogether};
ghost use Rattle.law_steps.specs.Events.{StepMakes};
ghost use Rattle.shard_raid.specs.Marks.{HasHighTime, HasMarksBy};

use arena_sprig::Sprig;
use block_shelf::Shelf;
use disk_model::Disk;
use raid_book::RaidNext;
use rec_format::Entry;
use tomb_rules::eligible;

/// Each entry of the part that may go has the raid's number as its mark then, a tombstone of at least `age` seconds or a covered put, and
/// it answers how many; the raid goes on to its next turn. `now` is in milliseconds. Marks stand in memory alone, and no disk is called.
pub fn raid_mark<D: Disk>(
    sprig: &mut Sprig,
    shelf: &mut Shelf<D>,
    part: u32,
    age: u64,
    now: u64,
) -> u64
    requires turn { shelf.old.raid.next ≡ RaidNext.Mark part }
    ensures makes { (setup : Setup) (s : State) → IsSetupOf setup shelf.old → setup.raid_age ≡ age → StandTogether setup part sprig.old shelf.old s
        → StepMakes D.view setup part (turn_call shelf.old.raid.number (mark_turn part) now) (marks_made result) shelf.old s sprig.new shelf.new }
    ensures count { result ≡ count_by (is_eligible_entry age now) sprig.old.entries }
    ensures sprig { HasMarksBy (mark_given age now shelf.old.raid.number) sprig.old sprig.new }
    ensures book { shelf.new ≡ record shelf.old { raid = after_turn shelf.old.raid.next part shelf.old.raid } }
{
    let marked = mark_entries(sprig, shelf.raid().number(), age, now);
    shelf.end_turn(part);
    marked
}

// Gives each entry that may go this mark, and answers how many.
fn mark_entries(sprig: &mut Sprig, mark: u64, age: u64, now: u64) -> u64
    ensures count { result ≡ count_by (is_eligible_entry age now) sprig.old.entries }
    ensures sprig { HasMarksBy (mark_given age now mark) sprig.old sprig.new }
{
    // A sprig has fewer than 2^64 entries.
    let _entries = sprig.len();
    let mut marked = 0;
    let mut next = sprig.next_after(None);
    while let Some(entry) = next {
        if eligible(&entry, age, now) {
            sprig.replace(with_mark(&entry, mark));
            marked += 1;
        }
        next = sprig.next_after(Some(&entry.digest));
    }
    marked
}

// The entry with this mark.
pub(crate) fn with_mark(entry: &Entry, mark: u64) -> Entry
    ensures { result ≡ with_mark mark entry.now }
{
    Entry { mark, ..*entry }
}
