// The states that the lists of devices begin with.
ghost use Rattle.std.specs.Prelude.{IfOk};
ghost use Rattle.std.specs.List.{AllByRecursion};
ghost use Rattle.live_store.specs.Pairs.{EachPair};
ghost use Rattle.live_serve.specs.Naming.{HasName, IsNamedBy};

use disk_model::Disk;
use live_node::DeviceState;
use rec_format::NoMemory;
use shard_core::Shard;
use std::alloc::Global;
use turn_table::{Noted, Notes};

// A device that has no state named yet, and whether its image is known to be sound, as contracts see that.
struct Unnamed<'a, D: Disk> {
    shard: &'a Shard<D>,
    known: &'a Noted<bool>,
}

impl<'a, D: Disk> Drop for Unnamed<'a, D> {
    fn drop(self) {
        let Self { shard: _, known: _ } = self;
    }
}

// The states that may be named for it.
struct Naming;

impl<'a, D: Disk> Notes<Unnamed<'a, D>, DeviceState> for Naming {
    ghost use Rattle.live_serve.specs.Naming.{MayBeNamed};

    ghost may_note = { λ a s. MayBeNamed D.view a.known.now.value a.shard.now s };
}

// A state that may be named for the device.
fn name_one<D: Disk>(shard: &Shard<D>, known: &Noted<bool>) -> Noted<DeviceState>
    requires { HasName D.view known.now.value shard.now }
    ensures { IsNamedBy D.view known.now.value shard.now result }
{
    Noted::about::<Unnamed<D>, Naming>(&Unnamed { shard, known })
}

/// For each device, in order, a state that may be named for it: where its image is known to be sound, that in which a start from it leaves it.
pub fn name_each<D: Disk>(
    alloc: Global,
    shards: &[Shard<D>],
    known: &Noted<bool>,
) -> Result<Vec<Noted<DeviceState>>, NoMemory>
    requires { AllByRecursion (HasName D.view known.now.value) shards.now }
    ensures { IfOk result (λ states. EachPair (IsNamedBy D.view known.now.value) shards.now states.items) }
{
    let mut states = Vec::new(alloc);
    for shard in shards {
        states.push(name_one(shard, known))?;
    }
    Ok(states)
}
