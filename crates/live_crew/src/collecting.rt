// How all passes come back.
ghost use Rattle.std.specs.Prelude.{◌≡◌, ◌+◌, ◌<◌, ◌≤◌, ℕ, All, length, slice_get};
ghost use Rattle.live_node.specs.Lives.{IsPassAt};
ghost use Rattle.live_store.specs.Pairs.{EachPair};
ghost use Rattle.live_crew.specs.Crews.{AreAtWork, HasAllNumbers, HasSeenFirst, IsAt, IsSeenBy, numbers_at, numbers_there};

use crate::chore::LiveChore;
use crate::dealing::Duties;
use disk_model::Disk;
use live_node::{Live, LivePass};
use live_store::LiveStore;
use node_serve::Duty;

// Each pass of a list, one of each device in order, is joined into the one here.
fn join_each<D: Disk>(lives: &[Live<D>], passes: &mut [LivePass<D>], own: Vec<LivePass<D>>)
    requires few { length lives.now ≤ 16 }
    requires passes { EachPair IsPassAt lives.now passes.old }
    requires own { EachPair IsPassAt lives.now own.items }
    ensures passes { EachPair IsPassAt lives.now passes.new }
    ensures numbers { (device : ℕ) → numbers_there (slice_get passes.new device) ≡ numbers_there (slice_get passes.old device) + numbers_there (slice_get own.items device) }
    ensures seen { EachPair HasSeenFirst own.items passes.new }
    ensures goes_on { EachPair HasSeenFirst passes.old passes.new }
{
    let mut own = own;
    while let Some(pass) = own.pop() {
        let device = own.len();
        lives[device].join(&mut passes[device], pass);
    }
}

// The passes of a duty are joined into those here.
fn collect_one<'a, D: Disk, R, C: Drop>(
    lives: &[Live<D>],
    passes: &mut [LivePass<D>],
    duty: Duty<LiveStore<'a, D, R>, LiveChore<'a, R, D>, C>,
)
    requires passes { EachPair IsPassAt lives.now passes.old }
    requires at { IsAt lives.now duty }
    ensures passes { EachPair IsPassAt lives.now passes.new }
    ensures numbers { (device : ℕ) → device < length lives.now → numbers_there (slice_get passes.new device) ≡ numbers_there (slice_get passes.old device) + numbers_at device duty.entry }
    ensures seen { IsSeenBy passes.new duty.entry }
    ensures goes_on { EachPair HasSeenFirst passes.old passes.new }
{
    match duty {
        Duty::Seat {
            store,
            clock: _clock,
        } => join_each(lives, passes, store.into_passes()),
        Duty::Worker {
            chore,
            clock: _clock,
            who,
        } => {
            let device = usize::from(who / 4);
            lives[device].join(&mut passes[device], chore.into_pass());
        }
    }
}

/// All passes of the duties are joined into those here, each into the one of its device, which then has all pass numbers again, and has seen
/// what each of them has seen.
pub fn collect<'a, D: Disk, R, C: Drop>(
    lives: &[Live<D>],
    passes: &mut [LivePass<D>],
    duties: Duties<'a, D, R, C>,
)
    requires { AreAtWork lives.now passes.old duties.items }
    ensures passes { EachPair IsPassAt lives.now passes.new }
    ensures all { All HasAllNumbers passes.new }
    ensures seen { All (IsSeenBy passes.new) duties.entry.items }
    ensures goes_on { EachPair HasSeenFirst passes.old passes.new }
{
    let mut duties = duties;
    while let Some(duty) = duties.pop() {
        collect_one(lives, passes, duty);
    }
}
