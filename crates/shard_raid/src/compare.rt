// How the copies of a part that a raid's scans found are compared with its entries.
ghost use Rattle.std.specs.Prelude.{◌≡◌, ◌≢◌, ◌<◌, ℕ, [], count_by, ◌&&◌};
ghost use Rattle.model_device.specs.Book.{Setup};
ghost use Rattle.model_device.specs.Device.{State, apply_turn};
ghost use Rattle.model_device.specs.Events.{turn_call, marks_undone};
ghost use Rattle.raid_book.specs.Turns.{turn_with};
ghost use Rattle.raid_book.specs.Found.{copies_for, least_part};
ghost use Rattle.law_sprig.specs.Becoming.{mark_left};
ghost use Rattle.law_sprig.specs.Tests.{has_older_copy};
ghost use Rattle.block_shelf.specs.View.{IsSetupOf};
ghost use Rattle.law_steps.specs.Standing.{StandTogether};
ghost use Rattle.law_steps.specs.Events.{StepMakes};
ghost use Rattle.shard_raid.specs.Marks.{HasMarksBy, is_marked_by, Unmarks};
ghost use Rattle.shard_raid.specs.Raids.{turns_left};

use crate::mark::with_mark;
use arena_sprig::Sprig;
use block_shelf::Shelf;
use disk_model::Disk;
use raid_book::RaidNext;
use rec_format::{Digest, Entry, Stamp};
use tomb_rules::older;

/// Each entry of which a copy was found that is earlier has no mark then: it has to stay as it is, since the copy would come back without
/// it. It answers how many of them had the raid's mark. The found copies of the part are taken out, and the raid goes on to its next
/// turn. No disk is called.
pub fn raid_apply<D: Disk>(sprig: &mut Sprig, shelf: &mut Shelf<D>, part: u32) -> u64
    requires turn { shelf.old.raid.next ≡ RaidNext.Apply part }
    ensures makes { (setup : Setup) (s : State) (now : ℕ) → IsSetupOf setup shelf.old → StandTogether setup part sprig.old shelf.old s
        → StepMakes D.view setup part (turn_call shelf.old.raid.number (apply_turn part) now) (marks_undone result) shelf.old s sprig.new shelf.new }
    ensures count { result ≡ count_by (λ e. is_marked_by shelf.old.raid.number e && has_older_copy (copies_for part shelf.old.raid.found) e) sprig.old.entries }
    ensures sprig { HasMarksBy (mark_left (copies_for part shelf.old.raid.found)) sprig.old sprig.new }
    ensures book { shelf.new ≡ record shelf.old {
      raid = record shelf.old.raid {
        found = shelf.new.raid.found;
        next = turn_with shelf.old.raid.blocks shelf.old.raid.scanned (least_part shelf.new.raid.found);
      };
    } }
    ensures nearer { turns_left shelf.new.raid < turns_left shelf.old.raid }
    ensures taken { copies_for part shelf.new.raid.found ≡ [] }
    ensures others { (other : ℕ) → other ≢ part → copies_for other shelf.new.raid.found ≡ copies_for other shelf.old.raid.found }
{
    let undone = compare_found(sprig, shelf, part);
    // What is left in the book is of parts that are no lesser.
    let _next = shelf.raid().next();
    shelf.end_turn(part);
    undone
}

// Takes the found copies of a part, and the mark from each entry that is later than one of them; answers how many had the raid's mark.
fn compare_found<D: Disk>(sprig: &mut Sprig, shelf: &mut Shelf<D>, part: u32) -> u64
    ensures count { result ≡ count_by (λ e. is_marked_by shelf.old.raid.number e && has_older_copy (copies_for part shelf.old.raid.found) e) sprig.old.entries }
    ensures sprig { HasMarksBy (mark_left (copies_for part shelf.old.raid.found)) sprig.old sprig.new }
    ensures rest { shelf.new ≡ record shelf.old { raid = record shelf.old.raid { found = shelf.new.raid.found } } }
    ensures others { (other : ℕ) → other ≢ part → copies_for other shelf.new.raid.found ≡ copies_for other shelf.old.raid.found }
{
    // A sprig has fewer than 2^64 entries.
    let _entries = sprig.len();
    let number = shelf.raid().number();
    let mut undone = 0;
    while let Some((digest, stamp)) = shelf.found_for(part) {
        if unmark(sprig, &digest, stamp, number) {
            undone += 1;
        }
    }
    undone
}

// Takes the mark from the entry of a digest, if it is later than this stamp; answers whether that was the mark of this raid.
fn unmark(sprig: &mut Sprig, digest: &Digest, stamp: Stamp, number: u64) -> bool
    ensures { Unmarks digest.now stamp number sprig.old sprig.new result }
{
    let Some(entry) = sprig.find(digest) else {
        return false;
    };
    if !older(stamp, &entry) {
        return false;
    }
    sprig.replace(with_mark(&entry, 0));
    is_marked_by(&entry, number)
}

// Whether the entry has the mark of the raid of this number; 0 is no mark.
pub(crate) fn is_marked_by(entry: &Entry, number: u64) -> bool
    ensures { result ≡ is_marked_by number entry.now }
{
    entry.mark != 0 && entry.mark == number
}
