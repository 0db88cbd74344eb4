// How passes are dealt out to workers and seats.
ghost use Rattle.std.specs.Prelude.{◌≡◌, ◌+◌, ◌*◌, ◌<◌, ◌≤◌, [], All, IfOk, OnOk, OnErr, length, vec_len, vec_capacity};
ghost use Rattle.turn_table.specs.Passes.{own_count};
ghost use Rattle.live_node.specs.Lives.{opening_at, IsPassAt};
ghost use Rattle.live_node.specs.Vacates.{HasListRoom};
ghost use Rattle.live_store.specs.Pairs.{EachPair};
ghost use Rattle.live_store.specs.Known.{EachLive};
ghost use Rattle.live_crew.specs.Crews.{AreOfNode, IsNewPass, device_of};
ghost use Rattle.live_crew.specs.Dealing.{AreDealt, CanBeDealt, GiveEach, GivesChore, IsCrew, many_duties};

use crate::chore::LiveChore;
use disk_model::Disk;
use io_traits::Clock;
use live_chores::{DefragChore, ExpireChore, FlushChore, RaidChore};
use live_node::{Live, LivePass};
use live_store::LiveStore;
use node_serve::Duty;
use rec_format::{Digest, NoMemory};
use std::alloc::Global;

/// Duties over devices under their tables.
pub type Duties<'a, D, R, C> = Vec<Duty<LiveStore<'a, D, R>, LiveChore<'a, R, D>, C>>;

// The chore at this place among the four of a device, with a pass that is split off. Where there is no memory, none is.
fn make_chore<'a, R, D: Disk>(
    alloc: Global,
    rt: &'a R,
    live: &'a Live<D>,
    pass: &mut LivePass<D>,
    place: u8,
) -> Result<LiveChore<'a, R, D>, NoMemory>
    requires pass { IsPassAt live.now pass.old }
    requires left { 1 < own_count pass.old }
    requires new { IsNewPass pass.old }
    requires place { place < 4 }
    ensures ok { IfOk result (λ chore. GivesChore live.now pass.old pass.new place chore) }
    ensures err { OnErr result (pass.new ≡ pass.old) }
{
    match place {
        0 => Ok(LiveChore::Flush(FlushChore::new(rt, live, live.split(pass, 1)))),
        1 => {
            let list = live.digest_list(alloc)?;
            let own = live.split(pass, 1);
            Ok(LiveChore::Defrag(DefragChore::new(rt, live, own, list)))
        }
        2 => Ok(LiveChore::Expire(ExpireChore::new(rt, live, live.split(pass, 1)))),
        _ => Ok(LiveChore::Raid(RaidChore::new(rt, live, live.split(pass, 1)))),
    }
}

// The worker of this number, of which those before it are there. Where there is no memory, no pass is split off.
fn add_worker<'a, D: Disk, R, C: Clock>(
    alloc: Global,
    rt: &'a R,
    lives: &'a [Live<D>],
    passes: &mut [LivePass<D>],
    who: u8,
    clock: &C,
    duties: &mut Duties<'a, D, R, C>,
) -> Result<(), NoMemory>
    requires there { device_of who < length lives.now }
    requires crew { IsCrew (length lives.now) who 0 duties.old.items }
    requires dealt { AreDealt C.times (C.times clock.now) lives.now passes.old duties.old.items }
    requires room { vec_len duties.old < vec_capacity duties.old }
    ensures dealt { AreDealt C.times (C.times clock.now) lives.now passes.new duties.new.items }
    ensures crew { OnOk result (IsCrew (length lives.now) (who + 1) 0 duties.new.items) }
    ensures room { vec_capacity duties.new ≡ vec_capacity duties.old }
{
    let device = usize::from(who / 4);
    let clock = clock.fork(alloc)?;
    let chore = make_chore(alloc, rt, &lives[device], &mut passes[device], who % 4)?;
    duties.push_reserved(Duty::Worker { chore, clock, who });
    Ok(())
}

// All workers, by their numbers. Where there is no memory, those before it are there.
fn add_workers<'a, D: Disk, R, C: Clock>(
    alloc: Global,
    rt: &'a R,
    lives: &'a [Live<D>],
    passes: &mut [LivePass<D>],
    clock: &C,
    duties: &mut Duties<'a, D, R, C>,
) -> Result<(), NoMemory>
    requires few { length lives.now ≤ 16 }
    requires crew { IsCrew (length lives.now) 0 0 duties.old.items }
    requires dealt { AreDealt C.times (C.times clock.now) lives.now passes.old duties.old.items }
    requires room { 4 * length lives.now ≤ vec_capacity duties.old }
    ensures dealt { AreDealt C.times (C.times clock.now) lives.now passes.new duties.new.items }
    ensures crew { OnOk result (IsCrew (length lives.now) (4 * length lives.now) 0 duties.new.items) }
    ensures room { vec_capacity duties.new ≡ vec_capacity duties.old }
{
    let workers = 4 * lives.len() as u8;
    for who in 0..workers {
        add_worker(alloc, rt, lives, passes, who, clock, duties)?;
    }
    Ok(())
}

// A list with room for the digests of a block of any of the devices.
fn list_for<D: Disk>(alloc: Global, lives: &[Live<D>]) -> Result<Vec<Digest>, NoMemory>
    ensures { IfOk result (λ list. EachLive (λ _ live. HasListRoom (opening_at live) (vec_capacity list)) lives.now) }
{
    let mut list = Vec::new(alloc);
    for live in lives {
        let other = live.digest_list(alloc)?;
        if other.capacity() > list.capacity() {
            list = other;
        }
    }
    Ok(list)
}

// A pass of each device, split off from the one here, in a list that has room for them.
fn split_each<D: Disk>(
    lives: &[Live<D>],
    passes: &mut [LivePass<D>],
    list: Vec<LivePass<D>>,
) -> Vec<LivePass<D>>
    requires passes { EachPair IsPassAt lives.now passes.old }
    requires left { All (λ pass. 1 < own_count pass) passes.old }
    requires new { All IsNewPass passes.old }
    requires none { list.items ≡ [] }
    requires room { length lives.now ≤ vec_capacity list }
    ensures { GiveEach lives.now passes.old passes.new result.items }
{
    let mut list = list;
    for (device, live) in lives.iter().enumerate() {
        list.push_reserved(live.split(&mut passes[device], 1));
    }
    list
}

// One seat more. Where there is no memory, no pass is split off.
fn add_seat<'a, D: Disk, R, C: Clock>(
    alloc: Global,
    rt: &'a R,
    lives: &'a [Live<D>],
    passes: &mut [LivePass<D>],
    seat: u8,
    clock: &C,
    duties: &mut Duties<'a, D, R, C>,
) -> Result<(), NoMemory>
    requires devices { AreOfNode lives.now }
    requires crew { IsCrew (length lives.now) (4 * length lives.now) seat duties.old.items }
    requires dealt { AreDealt C.times (C.times clock.now) lives.now passes.old duties.old.items }
    requires room { vec_len duties.old < vec_capacity duties.old }
    ensures dealt { AreDealt C.times (C.times clock.now) lives.now passes.new duties.new.items }
    ensures crew { OnOk result (IsCrew (length lives.now) (4 * length lives.now) (seat + 1) duties.new.items) }
    ensures room { vec_capacity duties.new ≡ vec_capacity duties.old }
{
    let list = list_for(alloc, lives)?;
    let own = Vec::with_capacity(alloc, lives.len())?;
    let clock = clock.fork(alloc)?;
    let own = split_each(lives, passes, own);
    let store = LiveStore::new(rt, lives, own, list);
    duties.push_reserved(Duty::Seat { store, clock });
    Ok(())
}

// So many seats, behind all workers. Where there is no memory, those before it are there.
fn add_seats<'a, D: Disk, R, C: Clock>(
    alloc: Global,
    rt: &'a R,
    lives: &'a [Live<D>],
    passes: &mut [LivePass<D>],
    seats: u8,
    clock: &C,
    duties: &mut Duties<'a, D, R, C>,
) -> Result<(), NoMemory>
    requires devices { AreOfNode lives.now }
    requires crew { IsCrew (length lives.now) (4 * length lives.now) 0 duties.old.items }
    requires dealt { AreDealt C.times (C.times clock.now) lives.now passes.old duties.old.items }
    requires room { 4 * length lives.now + seats ≤ vec_capacity duties.old }
    ensures dealt { AreDealt C.times (C.times clock.now) lives.now passes.new duties.new.items }
    ensures crew { OnOk result (IsCrew (length lives.now) (4 * length lives.now) seats duties.new.items) }
{
    for seat in 0..seats {
        add_seat(alloc, rt, lives, passes, seat, clock, duties)?;
    }
    Ok(())
}

/// Four workers of each device, in order, and behind them so many seats, each with a pass of its device or of each, which is split off from the
/// one here, and with a clock of its own. None has seen anything. No pass is lost: what was dealt out stands in the list, also where it stops.
///
/// # Errors
///
/// There is no memory for all of them. Those before are in the list.
pub fn deal<'a, D: Disk, R, C: Clock>(
    alloc: Global,
    rt: &'a R,
    lives: &'a [Live<D>],
    passes: &mut [LivePass<D>],
    seats: u8,
    clock: &C,
    duties: &mut Duties<'a, D, R, C>,
) -> Result<(), NoMemory>
    requires devices { AreOfNode lives.now }
    requires seated { EachPair IsPassAt lives.now passes.old }
    requires passes { All CanBeDealt passes.old }
    requires none { duties.old.items ≡ [] }
    ensures dealt { AreDealt C.times (C.times clock.now) lives.now passes.new duties.new.items }
    ensures crew { OnOk result (IsCrew (length lives.now) (4 * length lives.now) seats duties.new.items) }
{
    duties.reserve(4 * lives.len() + usize::from(seats))?;
    add_workers(alloc, rt, lives, passes, clock, duties)?;
    add_seats(alloc, rt, lives, passes, seats, clock, duties)
}
