// How a shelf begins.
ghost use Rattle.std.specs.Prelude.{◌≡◌, ◌+◌, ◌≤◌, ◌==◌, ℕ, true, List, [], length, filter, IfOk, MatchResult};
ghost use Rattle.std.specs.List.{range_with_len};
ghost use Rattle.std.specs.VecDeque.{deque_capacity};
ghost use Rattle.disk_model.specs.Disk.{IsHonest, IsOnly};
ghost use Rattle.rec_format.specs.Places.{part_count};
ghost use Rattle.rec_format.specs.Versions.{block_capacity, top_number};
ghost use Rattle.model_device.specs.Book.{Setup};
ghost use Rattle.block_format.specs.Layout.{IsGeometry, device_end, Body};
ghost use Rattle.block_format.specs.Copies.{Copy, copies_of};
ghost use Rattle.law_start.specs.Sound.{IsSound};
ghost use Rattle.law_start.specs.Start.{cold_copies, greatest_number, start_state, entries_state};
ghost use Rattle.law_images.specs.Held.{AreSure};
ghost use Rattle.block_shelf.specs.Lives.{copies_in, use_in};
ghost use Rattle.defrag_queue.specs.Queues.{is_below_mark};
ghost use Rattle.raid_book.specs.Books.{empty_book};
ghost use Rattle.block_shelf.specs.View.{AreLimits, GatesStand, IsSetupOf, gate_at};
ghost use Rattle.block_shelf.specs.Standing.{StandsFor, BooksStand, IsPlaced, ImagesHold};
ghost use Rattle.block_shelf.specs.Starting.{CanBeLive, KeepsFor, StartsWith, AreLive, AllHave, copies_at};

use crate::ledger::LiveLedger;
use crate::{NoMemory, Place, Shelf, ShelfLimits};
use block_format::{Gate, Geometry, SECTOR_BYTES, capacity};
use defrag_queue::Queue;
use disk_model::Disk;
use hold_book::HoldBook;
use partition_map::parts_of;
use post_cache::Cache;
use raid_book::RaidBook;
use rec_format::Digest;
use std::alloc::Global;
use std::collections::VecDeque;
use write_buffer::Buffer;

// The ledger of a device, in which these copies are live.
fn ledger_of(
    alloc: Global,
    geometry: &Geometry,
    live: &[(Digest, Place)],
) -> Result<LiveLedger, NoMemory>
    requires geometry { IsGeometry geometry.now }
    requires live { CanBeLive geometry.now live.now }
    ensures size { IfOk result (λ lives. length lives ≡ geometry.now.blocks) }
    ensures copies { IfOk result (λ lives. (block : ℕ) → copies_in block lives ≡ copies_at block live.now) }
{
    let mut ledger = LiveLedger::new(alloc, geometry.blocks)?;
    for (digest, place) in live {
        ledger.add(*place, digest);
    }
    Ok(ledger)
}

// The blocks in which nothing is live, the lowest first, with room for all blocks.
fn unused_blocks(alloc: Global, blocks: u32, ledger: &LiveLedger) -> Result<VecDeque<u32>, NoMemory>
    requires { length ledger.now ≡ blocks }
    ensures blocks { IfOk result (λ free. free.items ≡ filter (λ b. use_in b ledger.now == 0) (range_with_len 0 blocks)) }
    ensures room { IfOk result (λ free. blocks ≤ deque_capacity free) }
{
    let mut free = VecDeque::with_capacity(alloc, blocks as usize)?;
    for block in 0..blocks {
        if ledger.used(block) == 0 {
            free.push_back(block)?;
        }
    }
    Ok(free)
}

// The blocks that are to be vacated, the lowest first.
fn queue_of(
    alloc: Global,
    geometry: &Geometry,
    lwm: u32,
    ledger: &LiveLedger,
) -> Result<Queue, NoMemory>
    requires { length ledger.now ≡ geometry.now.blocks }
    ensures shape { IfOk result (λ queue. (queue.blocks ≡ geometry.now.blocks) × (queue.capacity ≡ block_capacity geometry.now.block_size) × (queue.lwm ≡ lwm)) }
    ensures blocks { IfOk result (λ queue. queue.queue ≡ filter (λ b. is_below_mark (block_capacity geometry.now.block_size) lwm (use_in b ledger.now) true) (range_with_len 0 geometry.now.blocks)) }
{
    let mut queue = Queue::new(alloc, geometry.blocks, capacity(geometry.block_size), lwm)?;
    for block in 0..geometry.blocks {
        queue.consider(block, ledger.used(block), true);
    }
    Ok(queue)
}

// What a shelf keeps in memory from its start on: its live copies, its free blocks, with room for all, the blocks that are to be vacated,
// no flushed buffer, with room for as many as may be kept, the book of its raids, and room for the body of one block.
#[derive(Drop)]
struct Kept {
    ledger: LiveLedger,
    free: VecDeque<u32>,
    queue: Queue,
    cache: Cache<Buffer>,
    raid: RaidBook,
    body: Vec<u8>,
}

fn kept_of(
    alloc: Global,
    geometry: &Geometry,
    limits: &ShelfLimits,
    live: &[(Digest, Place)],
) -> Result<Kept, NoMemory>
    requires geometry { IsGeometry geometry.now }
    requires live { CanBeLive geometry.now live.now }
    requires limits { AreLimits limits.now }
    ensures { IfOk result (λ kept. KeepsFor geometry.now limits.now live.now kept.ledger kept.free.items (deque_capacity kept.free) kept.queue kept.cache kept.raid kept.body.items) }
{
    let ledger = ledger_of(alloc, geometry, live)?;
    let free = unused_blocks(alloc, geometry.blocks, &ledger)?;
    let queue = queue_of(alloc, geometry, limits.lwm, &ledger)?;
    let cache = Cache::new(alloc, limits.cache)?;
    let parts = parts_of(geometry.device, geometry.devices, limits.sprigs);
    let raid = RaidBook::new(alloc, parts, geometry.blocks)?;
    let body = vec![in alloc; 0; geometry.block_size as usize - SECTOR_BYTES]?;
    Ok(Kept {
        ledger,
        free,
        queue,
        cache,
        raid,
        body,
    })
}

impl<D: Disk> Shelf<D> {
    /// At `Ok` the shelf of a device behind a start: these copies are live, no block has a buffer and none is held, no flushed buffer is
    /// kept, no raid runs, the blocks without a live copy are free, the lowest first, and those of little use wait to be vacated, the
    /// lowest first. No disk is called. There is one gate for each block. All memory is taken that a later call may not ask for; where it
    /// is wanting the disk comes back as it was.
    pub fn new(
        alloc: Global,
        disk: D,
        geometry: Geometry,
        gates: Vec<Gate>,
        next_number: u64,
        live: &[(Digest, Place)],
        limits: ShelfLimits,
    ) -> Result<Shelf<D>, (D, NoMemory)>
        requires geometry { IsGeometry geometry }
        requires room { device_end geometry ≤ (D.view disk).extent }
        requires limits { AreLimits limits }
        requires number { (1 ≤ next_number) × (next_number ≤ top_number + 1) }
        requires count { length gates.items ≡ geometry.blocks }
        requires stand { IsHonest (D.view disk) → GatesStand geometry (D.view disk).may_leave gates.items }
        requires live { CanBeLive geometry live.now }
        ensures starts { MatchResult result (StartsWith disk geometry limits gates.items live.now next_number) (λ refused. refused.0 ≡ disk) }

        // Over any disk: from these entries, and from a sound image.
        ensures entries { IfOk result (λ shelf. (setup : Setup) (found : List Copy) → IsSetupOf setup shelf → AreLive live.now found
            → StandsFor setup shelf (entries_state setup found next_number) × BooksStand setup shelf (entries_state setup found next_number)) }
        ensures image { IfOk result (λ shelf. (setup : Setup) (image : List ℕ) (bodies : List Body) → IsSetupOf setup shelf → IsSound setup image bodies
            → AreLive live.now (cold_copies (copies_of bodies)) → next_number ≡ greatest_number bodies + 1 → StandsFor setup shelf (start_state setup bodies) × BooksStand setup shelf (start_state setup bodies)) }

        // Where each image has the copies, they lie where the entries say.
        ensures placed { IfOk result (λ shelf. (setup : Setup) (found : List Copy) → AllHave geometry (D.view disk).may_leave found
            → IsPlaced D.view shelf (entries_state setup found next_number)) }

        // Over an honest disk with this one image, which is sound: no gate is unsure then.
        ensures safe { IsHonest (D.view disk) → AreSure geometry (gate_at gates.items) → IfOk result (λ shelf. (setup : Setup) (image : List ℕ) (bodies : List Body) → IsSetupOf setup shelf
            → IsSound setup image bodies → IsOnly image (D.view disk).may_leave → IsPlaced D.view shelf (start_state setup bodies) × ImagesHold setup D.view shelf (start_state setup bodies)) }
    {
        let kept = match kept_of(alloc, &geometry, &limits, live) {
            Ok(kept) => kept,
            Err(error) => return Err((disk, error)),
        };
        let Kept {
            ledger,
            free,
            queue,
            cache,
            raid,
            body,
        } = kept;
        Ok(Shelf {
            disk,
            geometry,
            limits,
            buffers: Vec::new(alloc),
            gates,
            ledger,
            holds: HoldBook::new(alloc),
            free,
            queue,
            cache,
            raid,
            next_number,
            body,
        })
    }
}
