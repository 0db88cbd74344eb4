// How what waits in write buffers comes to the disk.
ghost use Rattle.std.specs.Prelude.{◌≡◌, ◌≢◌, ◌<◌, ◌≤◌, ◌^◌, true, false, [], List, Ok, IfOk, OnOk, OnErr};
ghost use Rattle.std.specs.List.{AllByRecursion};
ghost use Rattle.model_faults.specs.Counts.{Rose};
ghost use Rattle.disk_model.specs.Disk.{IsHonest};
ghost use Rattle.model_device.specs.Book.{Setup};
ghost use Rattle.model_device.specs.Device.{State};
ghost use Rattle.model_device.specs.Steps.{Step};
ghost use Rattle.model_device.specs.Events.{flush_call, flush_next_call, flush_sealed_call};
ghost use Rattle.model_device.specs.Legal.{flush_all, flush_between};
ghost use Rattle.block_shelf.specs.Disks.{IsLater};
ghost use Rattle.block_shelf.specs.Sure.{StaysSure};
ghost use Rattle.block_shelf.specs.Low.{gains};
ghost use Rattle.block_shelf.specs.View.{IsShelf, IsSetupOf, SameShape, is_unsealed};
ghost use Rattle.block_shelf.specs.Standing.{StandsFor};
ghost use Rattle.block_shelf.specs.Calls.{Goes};
ghost use Rattle.model_device.specs.Vacating.{can_gain};
ghost use Rattle.law_steps.specs.Standing.{ShelfStands};
ghost use Rattle.law_steps.specs.Events.{MakesEvent};
ghost use Rattle.shard_core.specs.View.{SameSetup, setup_of};
ghost use Rattle.shard_core.specs.Stands.{Agrees, IsWhole};
ghost use Rattle.shard_core.specs.Calls.{Makes, MakesAny, flush_answer, FlushesAll};
ghost use Rattle.shard_core.specs.Flushing.{flushed_count};
ghost use Rattle.shard_core.specs.Writing.{EndsRight};
ghost use Rattle.shard_core.specs.Keeping.{FlushesInTurn, FlushesFront, SealsAndFlushes, KeepsTended};
ghost use Rattle.shard_core.specs.Vacating.{MakesEvents, TendsWell};
ghost use Rattle.shard_core.specs.Failing.{FailsBy, MayFail, TendsFail};

use crate::Shard;
use block_shelf::Shelf;
use disk_model::{Disk, DiskFault};
use std::alloc::Global;

// No buffer has a greater number.
const LAST_NUMBER: u64 = 1 << 62;

/// At `Ok` the sealed buffers up to the one of this number are flushed, in rising number, and it answers how many. After the first fault
/// those before it stay flushed.
pub(crate) fn flush_up_to<D: Disk>(shelf: &mut Shelf<D>, last: u64) -> Result<u64, DiskFault>
    ensures flushed { (setup : Setup) (s : State) → IsSetupOf setup shelf.old → StandsFor setup shelf.old s → EndsRight last shelf.old.buffers
        → (steps : List Step) × FlushesAll result (flush_between 0 last s.book) steps × Goes D.view setup steps shelf.old s shelf.new }
    ensures few { IfOk result (λ n. n < 2 ^ 60) }
    ensures all { IfOk result (λ n. AllByRecursion (λ b. b.number ≤ last) shelf.old.buffers → AllByRecursion (λ b. is_unsealed b.phase ≡ true) shelf.new.buffers) }
    ensures quiet { AllByRecursion (λ b. is_unsealed b.phase ≡ false) shelf.old.buffers → AllByRecursion (λ b. is_unsealed b.phase ≡ false) shelf.new.buffers }
    ensures kept { FlushesInTurn shelf.old shelf.new }
    ensures left { OnErr result (shelf.new.buffers ≢ []) }
    ensures cause { OnErr result (Rose (D.view shelf.old.disk).faults (D.view shelf.new.disk).faults) }
    ensures sure { StaysSure D.view shelf.old shelf.new }
    ensures fails { FailsBy result shelf.old shelf.new }
    ensures later { IsLater (D.view shelf.old.disk) (D.view shelf.new.disk) }
    ensures honest { IsHonest (D.view shelf.old.disk) → IsHonest (D.view shelf.new.disk) }
    ensures shape { SameShape shelf.old shelf.new }
    ensures whole { IsShelf D.view shelf.old }
{
    let mut count = 0;
    while let Some(number) = shelf.flush_step()? {
        count += 1;
        if number >= last {
            break;
        }
    }
    Ok(count)
}

// At `Ok` all sealed buffers are flushed, in rising number, and it answers how many. After the first fault those before it stay flushed.
fn flush_sealed<D: Disk>(shelf: &mut Shelf<D>) -> Result<u64, DiskFault>
    ensures flushed { (setup : Setup) (s : State) → IsSetupOf setup shelf.old → StandsFor setup shelf.old s
        → (steps : List Step) × FlushesAll result (flush_all s.book) steps × Goes D.view setup steps shelf.old s shelf.new }
    ensures few { IfOk result (λ n. n < 2 ^ 60) }
    ensures quiet { AllByRecursion (λ b. is_unsealed b.phase ≡ false) shelf.old.buffers → OnOk result (shelf.new.buffers ≡ []) }
    ensures kept { FlushesInTurn shelf.old shelf.new }
    ensures left { OnErr result (shelf.new.buffers ≢ []) }
    ensures cause { OnErr result (Rose (D.view shelf.old.disk).faults (D.view shelf.new.disk).faults) }
    ensures sure { StaysSure D.view shelf.old shelf.new }
    ensures fails { FailsBy result shelf.old shelf.new }
    ensures later { IsLater (D.view shelf.old.disk) (D.view shelf.new.disk) }
    ensures honest { IsHonest (D.view shelf.old.disk) → IsHonest (D.view shelf.new.disk) }
    ensures shape { SameShape shelf.old shelf.new }
{
    flush_up_to(shelf, LAST_NUMBER)
}

/// At `Ok` nothing is pending, and it answers how many buffers it flushed; from then on, until a record is removed, each crash leaves its
/// version of now or a later one, and nothing from before a tombstone comes back. The buffers that are being filled are sealed, and all
/// are flushed in rising number. After a fault those that were flushed stay so, and at least one is pending. It takes no memory.
pub fn flush_shelf<D: Disk>(shelf: &mut Shelf<D>) -> Result<u64, DiskFault>
    ensures makes { (setup : Setup) (s : State) → IsSetupOf setup shelf.old → ShelfStands setup shelf.old s
        → MakesEvent D.view setup flush_call (flush_answer result) shelf.old s shelf.new (ShelfStands setup shelf.new) }
    ensures few { IfOk result (λ n. n < 2 ^ 60) }
    ensures quiet { OnOk result (shelf.new.buffers ≡ []) }
    ensures left { OnErr result (shelf.new.buffers ≢ []) }

    // What is flushed comes to the back of what is kept, and the front goes where there is too much.
    ensures kept { (setup : Setup) (s : State) → IsSetupOf setup shelf.old → ShelfStands setup shelf.old s → FlushesFront shelf.old shelf.new }
    ensures cause { OnErr result (Rose (D.view shelf.old.disk).faults (D.view shelf.new.disk).faults) }
    ensures sure { StaysSure D.view shelf.old shelf.new }
    ensures fails { FailsBy result shelf.old shelf.new }
    ensures later { IsLater (D.view shelf.old.disk) (D.view shelf.new.disk) }
    ensures honest { IsHonest (D.view shelf.old.disk) → IsHonest (D.view shelf.new.disk) }
    ensures shape { SameShape shelf.old shelf.new }
{
    shelf.seal_streams();
    flush_sealed(shelf)
}

/// The buffers that are due are sealed, where at most 6 blocks are free, and at `Ok` all sealed ones are flushed, in rising number, and it
/// answers how many; of these no crash loses anything then. After a fault those before it stay flushed, and the others wait; at most the
/// gate of the one that failed is unsure by it. It takes no memory.
pub fn flush_low<D: Disk>(shelf: &mut Shelf<D>) -> Result<u64, DiskFault>
    ensures makes { (setup : Setup) (s : State) → IsSetupOf setup shelf.old → ShelfStands setup shelf.old s
        → MakesEvent D.view setup flush_sealed_call (flush_answer result) shelf.old s shelf.new (ShelfStands setup shelf.new) }
    ensures few { IfOk result (λ n. n < 2 ^ 60) }
    ensures left { OnErr result (shelf.new.buffers ≢ []) }

    // What is flushed comes to the back of what is kept, and the front goes where there is too much.
    ensures kept { (setup : Setup) (s : State) → IsSetupOf setup shelf.old → ShelfStands setup shelf.old s → SealsAndFlushes shelf.old shelf.new }
    ensures cause { OnErr result (Rose (D.view shelf.old.disk).faults (D.view shelf.new.disk).faults) }
    ensures sure { StaysSure D.view shelf.old shelf.new }
    ensures fails { FailsBy result shelf.old shelf.new }
    ensures later { IsLater (D.view shelf.old.disk) (D.view shelf.new.disk) }
    ensures honest { IsHonest (D.view shelf.old.disk) → IsHonest (D.view shelf.new.disk) }
    ensures shape { SameShape shelf.old shelf.new }
    ensures whole { IsShelf D.view shelf.old }
{
    shelf.seal_low();
    flush_sealed(shelf)
}

/// The buffers that are due are sealed, where at most 6 blocks are free, and at `Ok` the sealed one of the lowest number is flushed: it
/// answers 1, or 0 where none is sealed. No crash loses anything of it then. After a fault it is pending still, and at most its gate is
/// unsure by that. It takes no memory.
pub fn flush_next<D: Disk>(shelf: &mut Shelf<D>) -> Result<u64, DiskFault>
    ensures makes { (setup : Setup) (s : State) → IsSetupOf setup shelf.old → ShelfStands setup shelf.old s
        → MakesEvent D.view setup flush_next_call (flush_answer result) shelf.old s shelf.new (ShelfStands setup shelf.new) }
    ensures one { IfOk result (λ n. n ≤ 1) }
    ensures none { result ≡ Ok 0 → AllByRecursion (λ b. is_unsealed b.phase ≡ true) shelf.new.buffers }
    ensures left { OnErr result (shelf.new.buffers ≢ []) }

    // What is flushed comes to the back of what is kept, and the front goes where there is too much.
    ensures kept { (setup : Setup) (s : State) → IsSetupOf setup shelf.old → ShelfStands setup shelf.old s → SealsAndFlushes shelf.old shelf.new }
    ensures cause { OnErr result (Rose (D.view shelf.old.disk).faults (D.view shelf.new.disk).faults) }
    ensures sure { StaysSure D.view shelf.old shelf.new }
    ensures fails { FailsBy result shelf.old shelf.new }
    ensures later { IsLater (D.view shelf.old.disk) (D.view shelf.new.disk) }
    ensures honest { IsHonest (D.view shelf.old.disk) → IsHonest (D.view shelf.new.disk) }
    ensures shape { SameShape shelf.old shelf.new }
{
    shelf.seal_low();
    flushed_count(shelf.flush_step())
}

// How many buffers were flushed, where one was or none.
fn flushed_count(flushed: Result<Option<u64>, DiskFault>) -> Result<u64, DiskFault>
    ensures { result ≡ flushed_count flushed }
{
    match flushed {
        Ok(Some(_)) => Ok(1),
        Ok(None) => Ok(0),
        Err(fault) => Err(fault),
    }
}

impl<D: Disk> Shard<D> {
    /// At `Ok` nothing is pending, and it answers how many buffers it flushed; from then on, until a record is removed, each crash leaves
    /// its version of now or a later one, and nothing from before a tombstone comes back. The buffers that are being filled are sealed,
    /// and all are flushed in rising number. After a fault those that were flushed stay so, and at least one is pending; at most the gate of
    /// the one that failed is unsure by it. It takes no memory.
    pub fn flush(&mut self) -> Result<u64, DiskFault>
        ensures makes { (s : State) → Agrees self.old s → Makes D.view flush_call (flush_answer result) self.old s self.new }
        ensures few { IfOk result (λ n. n < 2 ^ 60) }
        ensures quiet { OnOk result (self.new.shelf.buffers ≡ []) }
        ensures left { OnErr result (self.new.shelf.buffers ≢ []) }
        ensures sure { StaysSure D.view self.old.shelf self.new.shelf }
        ensures fails { FailsBy result self.old.shelf self.new.shelf }

        // What is flushed comes to the back of what is kept, and the front goes where there is too much.
        ensures kept { FlushesFront self.old.shelf self.new.shelf }
        ensures later { IsLater (D.view self.old.shelf.disk) (D.view self.new.shelf.disk) }
        ensures honest { IsHonest (D.view self.old.shelf.disk) → IsHonest (D.view self.new.shelf.disk) }
        ensures shape { SameSetup self.old self.new }
    {
        flush_shelf(&mut self.shelf)
    }

    /// Makes room, and answers nothing; of what was flushed no crash loses anything by it. It seals what is due where at most 6 blocks
    /// are free, flushes what is sealed, as far as the disk goes, and vacates the block that has waited longest, if one waits and that
    /// can gain room. Where a block is free, no move is refused for want of space. With a low-water mark of at most 50, a tending in
    /// which nothing is refused leaves less to vacate than there was, or the device at rest: then a tending does nothing. Where the disk
    /// fails, or a move is refused, what was done before stands, and what is left is as with `flush` and `defrag_one`.
    pub fn tend(&mut self, alloc: Global)
        ensures makes { (s : State) → Agrees self.old s → MakesEvents D.view (TendsWell (setup_of self.old) s) self.old s self.new }
        ensures sure { StaysSure D.view self.old.shelf self.new.shelf }
        ensures fails { TendsFail self.old.shelf self.new.shelf }

        // What is flushed comes to the back of what is kept; then only what is kept of a block goes in which a buffer begins.
        ensures kept { KeepsTended self.old.shelf self.new.shelf }
        ensures later { IsLater (D.view self.old.shelf.disk) (D.view self.new.shelf.disk) }
        ensures honest { IsHonest (D.view self.old.shelf.disk) → IsHonest (D.view self.new.shelf.disk) }
        ensures shape { SameSetup self.old self.new }
    {
        self.flush_low();
        if self.can_gain() {
            let _ = self.defrag_one(alloc);
        }
    }
}

impl<D: Disk> Shard<D> {
    // The first two parts of that, which take no memory.
    fn flush_low(&mut self)
        ensures whole { IsShelf D.view self.old.shelf × IsWhole self.old }
        ensures makes { (s : State) → Agrees self.old s → MakesAny D.view flush_sealed_call self.old s self.new }
        ensures sure { StaysSure D.view self.old.shelf self.new.shelf }
        ensures fails { MayFail self.old.shelf self.new.shelf }
        ensures kept { SealsAndFlushes self.old.shelf self.new.shelf }
        ensures later { IsLater (D.view self.old.shelf.disk) (D.view self.new.shelf.disk) }
        ensures honest { IsHonest (D.view self.old.shelf.disk) → IsHonest (D.view self.new.shelf.disk) }
        ensures shape { SameSetup self.old self.new }
    {
        let _ = flush_low(&mut self.shelf);
    }

    // Whether a block is to be vacated, if one is queued.
    fn can_gain(&self) -> bool
        ensures seen { result ≡ gains self.now.shelf }
        ensures state { (s : State) → Agrees self.now s → result ≡ can_gain s.book }
    {
        self.shelf.can_gain()
    }
}
