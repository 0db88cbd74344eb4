// Raids on one device, turn by turn.
use raid_book::RaidNext;
use scenario_text::Trouble;
use shard_core::{Raid, RaidDid, RaidRefusal};
use std::alloc::Global;

/// More turns than a raid has.
pub const MOST_TURNS: u64 = 100_000;

/// What turns of a raid did, taken together.
#[derive(Clone, Copy)]
pub struct Took {
    marks: u64,
    unmarked: u64,
    removed: u64,
    cleared: u64,
}

impl Took {
    pub const NOTHING: Took = Took {
        marks: 0,
        unmarked: 0,
        removed: 0,
        cleared: 0,
    };

    pub fn add(&mut self, did: RaidDid) {
        match did {
            RaidDid::Marked { marks } => self.marks = self.marks.saturating_add(marks),
            RaidDid::Applied { unmarked } => self.unmarked = self.unmarked.saturating_add(unmarked),
            RaidDid::Dropped { removed, cleared } => {
                self.removed = self.removed.saturating_add(removed);
                self.cleared = self.cleared.saturating_add(cleared);
            }
            RaidDid::Scanned { .. } | RaidDid::Done => {}
        }
    }

    pub fn text(&self, alloc: Global) -> Result<String, Trouble> {
        let Took {
            marks,
            unmarked,
            removed,
            cleared,
        } = *self;
        Ok(format!(in alloc;
            "marks {marks} unmarked {unmarked} removed {removed} cleared {cleared}"
        )?)
    }
}

impl Took {
    /// What came of marks that were still there in the end.
    pub fn ended(&self, alloc: Global) -> Result<String, Trouble> {
        let (removed, cleared) = (self.removed, self.cleared);
        Ok(format!(in alloc; "removed {removed} cleared {cleared}")?)
    }
}

/// How many turns come before each line, or those up to the next scan.
#[derive(Clone, Copy)]
pub enum Beside {
    Turns(u64),
    Scan,
}

impl Beside {
    /// Whether no more turns come before the line, behind so many of which the last did this.
    pub fn is_over(self, taken: u64, did: RaidDid) -> bool {
        let is_scan = matches!(did, RaidDid::Scanned { .. });
        let is_done = matches!(did, RaidDid::Done);
        match self {
            Beside::Turns(count) => is_done || count <= taken,
            Beside::Scan => is_done || is_scan,
        }
    }
}

/// The raids of a device, in the order in which they began; how many turns of the last one come before each line; and behind how many more
/// lines another one begins.
#[derive(Drop)]
pub struct Raids {
    handles: Vec<Raid>,
    pub beside: Beside,
    pub begins_in: Option<u64>,
    /// How many milliseconds later than a line a turn comes.
    pub later: u64,
    /// What all turns did since the last one began.
    pub took: Took,
}

fn next_text(alloc: Global, next: RaidNext) -> Result<String, Trouble> {
    match next {
        RaidNext::Mark(part) => Ok(format!(in alloc; "mark {part}")?),
        RaidNext::Scan(block) => Ok(format!(in alloc; "scan {block}")?),
        RaidNext::Apply(part) => Ok(format!(in alloc; "apply {part}")?),
        RaidNext::Drop(part) => Ok(format!(in alloc; "drop {part}")?),
        RaidNext::Finished => Ok(format!(in alloc; "finished")?),
    }
}

/// Why a turn is refused: it is stale where another raid runs, which is told with its next turn.
pub fn refusal_text(alloc: Global, refusal: RaidRefusal) -> Result<String, Trouble> {
    match refusal {
        RaidRefusal::Stale { number, next } => {
            let next = next_text(alloc, next)?;
            Ok(format!(in alloc; "stale: raid {number} is at {next}")?)
        }
        RaidRefusal::Damaged { block, place } => {
            Ok(format!(in alloc; "block {block} damaged at {place}")?)
        }
        RaidRefusal::Memory => Err(Trouble::Memory),
        RaidRefusal::Fault => Ok(format!(in alloc; "fault")?),
    }
}

impl Raids {
    pub fn new(alloc: Global) -> Raids {
        Raids {
            handles: Vec::new(alloc),
            beside: Beside::Turns(0),
            begins_in: None,
            later: 0,
            took: Took::NOTHING,
        }
    }

    /// The raid that began in this place; the last one where that is none.
    pub fn handle(&mut self, place: Option<usize>) -> Option<&mut Raid> {
        let last = self.handles.len().saturating_sub(1);
        self.handles.get_mut(place.unwrap_or(last))
    }

    /// Takes up one that has begun.
    pub fn push(&mut self, raid: Raid) -> Result<(), Trouble> {
        self.handles.push(raid)?;
        self.took = Took::NOTHING;
        Ok(())
    }

    /// Whether no turns come before lines.
    pub fn is_alone(&self) -> bool {
        self.handles.is_empty() || matches!(self.beside, Beside::Turns(0))
    }

    /// Whether a raid begins before the line that comes now.
    pub fn is_due(&mut self) -> bool {
        match self.begins_in {
            Some(0) => {
                self.begins_in = None;
                true
            }
            Some(lines) => {
                self.begins_in = Some(lines.saturating_sub(1));
                false
            }
            None => false,
        }
    }
}
