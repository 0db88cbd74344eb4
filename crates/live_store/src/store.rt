// The store of one session.
ghost use Rattle.std.specs.Prelude.{vec_capacity};
ghost use Rattle.std.specs.Coded.{codes};
ghost use Rattle.hold_book.specs.Holds.{hold_state_code};
ghost use Rattle.live_node.specs.Lives.{IsPassAt};
ghost use Rattle.live_store.specs.Pairs.{EachPair-prop};
ghost use Rattle.live_store.specs.Known.{AreDevices, ArePasses};

use crate::each::{Upkeep, counts_each, defrag_each, expire_each, keep_up_each};
use crate::one::act_on;
use disk_model::{Disk, DiskFault};
use line_proto::{Command, LineFault, Reply, Store};
use live_node::{Live, LivePass};
use node_replies::{defrag_reply, digest_of, expire_reply, flush_reply, heal_reply};
use partition_map::device_of;
use rec_format::Digest;
use std::alloc::Global;
use std::sync::Wait;

/// The devices of a node, each under its table, with a pass of each.
#[derive(Drop)]
pub struct LiveStore<'a, D: Disk, R> {
    rt: &'a R,
    lives: &'a [Live<D>],
    // One of each device, in order.
    passes: Vec<LivePass<D>>,
    // Lent to a vacating, with room for the digests of a block.
    list: Vec<Digest>,
    pub ghost devices: { AreDevices (vec_capacity list) lives.now },
    pub ghost seated: { ArePasses lives.now passes.items } by { EachPair-prop IsPassAt (λ live pass. Prim.hlevel (codes, hold_state_code)) lives.now passes.items },
}

impl<'a, D: Disk, R> LiveStore<'a, D, R> {
    ghost use Rattle.std.specs.Prelude.{◌≡◌, vec_capacity};
    ghost use Rattle.live_store.specs.Known.{AreDevices, ArePasses};
    ghost use Rattle.live_store.specs.Stores.{lives_of, passes_of};

    /// A store of the devices of a node, 1 to 16, in order, with a pass of each that holds nothing, and with a list that has room for the
    /// digests of a block of any of them (`Live::digest_list`).
    pub fn new(
        rt: &'a R,
        lives: &'a [Live<D>],
        passes: Vec<LivePass<D>>,
        list: Vec<Digest>,
    ) -> LiveStore<'a, D, R>
        requires devices { AreDevices (vec_capacity list) lives.now }
        requires passes { ArePasses lives.now passes.items }
        ensures lives { lives_of result ≡ lives.now }
        ensures passes { passes_of result ≡ passes.items }
    {
        LiveStore {
            rt,
            lives,
            passes,
            list,
        }
    }

    /// Its passes, in order. The list is let go.
    pub fn into_passes(self) -> Vec<LivePass<D>>
        ensures same { result.items ≡ passes_of self.entry }
        ensures passes { ArePasses (lives_of self.entry) result.items }
    {
        let LiveStore { passes, .. } = self;
        passes
    }
}

impl<'a, D: Disk, R: Wait> LiveStore<'a, D, R> {
    ghost use Rattle.std.specs.Prelude.{◌≡◌};
    ghost use Rattle.model_device.specs.Vacating.{Outcome};
    ghost use Rattle.live_store.specs.Known.{KeepNumbers};
    ghost use Rattle.live_store.specs.Works.{IsCounted, CountsOnce, EachDevice};
    ghost use Rattle.live_store.specs.Upkeep.{call_of};
    ghost use Rattle.live_store.specs.Stores.{lives_of, passes_of, known_by};

    // Asks it of each device, in order, with the store's passes.
    fn keep_up(&mut self, upkeep: Upkeep) -> Result<u64, DiskFault>
        ensures lives { lives_of self.new ≡ lives_of self.old }
        ensures numbers { KeepNumbers (passes_of self.old) (passes_of self.new) }
        ensures counts { (outcome : Outcome) × IsCounted result outcome × EachDevice (CountsOnce D.view (call_of upkeep)) (known_by self.old) (known_by self.new) 0 0 outcome }
    {
        keep_up_each(upkeep, self.rt, self.lives, &mut self.passes)
    }
}

impl<'a, D: Disk, R: Wait> Store for LiveStore<'a, D, R> {
    ghost use Rattle.std.specs.Prelude.{◌≡◌};
    ghost use Rattle.live_store.specs.Stores.{Acts};

    ghost acts = { Acts D.view };

    ghost tends = { λ old new. new ≡ old };

    fn act(&mut self, alloc: Global, command: &Command, now: u64) -> Reply {
        self.act_in(alloc, &mut Vec::new(alloc), command, now)
    }

    fn act_in(&mut self, alloc: Global, room: &mut Vec<u8>, command: &Command, now: u64) -> Reply {
        if let Some(digest) = digest_of(command) {
            let device = usize::from(device_of(digest, self.lives.len() as u16));
            return act_on(
                alloc,
                room,
                self.rt,
                &self.lives[device],
                &mut self.passes[device],
                command,
                digest,
                now,
            );
        }
        match command {
            Command::Flush => flush_reply(self.keep_up(Upkeep::Flush)),
            Command::Heal => heal_reply(self.keep_up(Upkeep::Heal)),
            Command::Defrag => defrag_reply(defrag_each(
                alloc,
                self.rt,
                self.lives,
                &mut self.passes,
                &mut self.list,
            )),
            Command::Expire => expire_reply(expire_each(
                alloc,
                self.rt,
                self.lives,
                &mut self.passes,
                now,
            )),
            Command::Stat => Reply::StatOf(counts_each(self.rt, self.lives, &mut self.passes)),
            Command::Raid | Command::Restart => Reply::Fail(LineFault::Mode),
            _ => unreachable!(),
        }
    }

    fn tend(&mut self, _alloc: Global) {}
}
