// A node over its devices.
ghost use Rattle.std.specs.Prelude.{◌≡◌, ◌≢◌, ◌≤◌, ◌<◌, ◌^◌, ◌++◌, true, false, None, ℕ, List, length, vec_len, IfOk, MatchOption, MatchResult, option_map};
ghost use Rattle.rec_format.specs.declared.version.Digest.{Digest};
ghost use Rattle.rec_format.specs.Places.{device_number};
ghost use Rattle.shard_core.specs.View.{IsSettings, ShardView};
ghost use Rattle.line_proto.specs.Lines.{IsInRange, reply_text};
ghost use Rattle.line_proto.specs.declared.reply.Reply.{Reply};
ghost use Rattle.model_node.specs.Commands.{Slot, node_counts};
ghost use Rattle.core_run.specs.Views.{serving, halted, disks_of, faults_of};
ghost use Rattle.core_run.specs.Sure.{AreSureSince};
ghost use Rattle.core_run.specs.Standing.{StandsFor};
ghost use Rattle.core_run.specs.Starts.{StartsEach, RefusesAt};
ghost use Rattle.core_run.specs.Turns.{GetsOn, GoesOn, RepliesOn};
ghost use Rattle.core_run.specs.Calls.{Acts, Closes};
ghost use Rattle.node_replies.specs.Digests.{digest_of};

use crate::devices::{
    close_each, counts_of, defrag_each, expire_each, flush_each, heal_each, tend_each,
};
use crate::raid::raid_each;
use crate::starts::{start_all, stop_all};
use disk_model::Disk;
use line_proto::{Command, Page, Reply, Store, print_version};
use node_replies::{
    defrag_reply, delete_reply, digest_of, expire_reply, flush_reply, heal_reply, known_reply,
    raid_reply, read_reply, write_reply,
};
use partition_map::device_of;
use rec_format::{Counts, Digest};
use shard_core::{Settings, Shard, StartCause};
use std::alloc::Global;
use std::marker::Model;

/// The devices of a node, 1 to 16.
#[derive(Drop)]
pub struct Node<D: Disk> {
    // The devices that are served, in order; there are none behind a restart that was refused.
    shards: Vec<Shard<D>>,
    // Behind such a restart the device that was refused, and why.
    refused: Option<(u16, StartCause)>,
    // What each device is run with.
    set: Settings,
    // Behind such a restart the disks, in order. Else it is empty, with room for them, so that handing them back takes no memory.
    disks: Vec<D>,
}

/// A device that a node can't be started with, and why, and all disks, in order.
pub struct NodeRefusal<D> {
    pub device: u16,
    pub cause: StartCause,
    pub disks: Vec<D>,
}

impl<D: Disk> Model for Node<D> {
    ghost use Rattle.std.specs.Prelude.{vec_capacity};
    ghost use Rattle.std.specs.Coded.{codes};
    ghost use Rattle.hold_book.specs.Holds.{hold_state_code};
    ghost use Rattle.core_run.specs.Views.{NodeView, IsNode};

    ghost Value = { NodeView D };

    ghost coded = { Prim.hlevel (codes, hold_state_code) };

    ghost view = { λ n. record { shards = n.shards.items; refused = n.refused; disks = n.disks.items } };

    ghost invariant = { λ n. IsNode n.set (vec_capacity n.shards) (vec_capacity n.disks) (record { shards = n.shards.items; refused = n.refused; disks = n.disks.items }) };
}

impl<D: Disk> Node<D> {
    /// At `Ok` each device is served from what its disk holds, 1 to 16 of them, in order; nothing was written, and of a disk that tells
    /// its bytes a crash leaves just what a read gives. A device is sound then where its disk is honest and its image is sound. A refusal
    /// tells the first device that isn't taken into use and why, and hands all disks back, in order, with nothing written to any.
    pub fn start(alloc: Global, mut disks: Vec<D>, set: Settings) -> Result<Node<D>, NodeRefusal<D>>
        requires disks { (1 ≤ vec_len disks) × (vec_len disks ≤ 16) }
        requires set { IsSettings set }
        ensures begun { MatchResult result (λ node. (shards : List (ShardView D)) × (node ≡ serving shards) × StartsEach D.view set 0 (vec_len disks) disks.items shards)
            (λ refusal. RefusesAt D.view set refusal.device 0 (vec_len disks) refusal.cause disks.items refusal.disks.items) }
        ensures sure { IfOk result (λ node. AreSureSince D.view (faults_of D.view disks.items) node.shards) }
    {
        let Ok(mut shards) = Vec::with_capacity(alloc, disks.len()) else {
            return Err(NodeRefusal {
                device: 0,
                cause: StartCause::Memory,
                disks,
            });
        };
        match start_all(alloc, &mut disks, &mut shards, set) {
            Ok(()) => Ok(Node {
                shards,
                refused: None,
                set,
                disks,
            }),
            Err((device, cause)) => Err(NodeRefusal {
                device,
                cause,
                disks,
            }),
        }
    }

    // Drops all buffers and starts each device again from its disk. Where one is refused the node halts.
    fn restart(&mut self, alloc: Global) -> Reply
        requires served { self.old.refused ≡ None }
        ensures { (now : ℕ) → Acts D.view self.old Command.Restart now result self.new }
    {
        stop_all(&mut self.shards, &mut self.disks);
        match start_all(alloc, &mut self.disks, &mut self.shards, self.set) {
            Ok(()) => {
                let counts = counts_of(&self.shards);
                Reply::Restarted {
                    records: counts.records,
                    tombstones: counts.tombstones,
                }
            }
            Err(why) => {
                self.refused = Some(why);
                Reply::Halted
            }
        }
    }

    /// The device whose restart was refused, and why; none where none was. A node with such a device answers every command by `Halted`,
    /// and does nothing.
    pub fn halted(&self) -> Option<(u16, StartCause)>
        ensures { MatchOption result ((shards : List (ShardView D)) × (self.now ≡ serving shards)) (λ why. (disks : List D) × (self.now ≡ halted why disks)) }
    {
        self.refused
    }

    /// At `None` nothing is pending on any device, and from then on each crash leaves of each record its version of now or a later one,
    /// until it is removed. Else it answers the first device whose disk failed, which has a buffer left; those behind that one are
    /// flushed too, as far as their disks go. It is for the end of a run, and no restart may have been refused.
    pub fn close(&mut self) -> Option<u16>
        requires served { (shards : List (ShardView D)) × (self.old ≡ serving shards) }
        ensures { Closes D.view result self.old self.new }
    {
        close_each(&mut self.shards)
    }

    /// The numbers of all devices together: records, tombstones and covered records, expired ones too; free blocks, pending buffers,
    /// queued and held blocks.
    pub fn counts(&self) -> Counts
        ensures { (node : List Slot) → StandsFor D.view self.now node → result ≡ node_counts node }
    {
        counts_of(&self.shards)
    }

    /// Gives the disks back, in order, as they are. What the write buffers have is lost, as by a crash.
    pub fn stop(self) -> Vec<D>
        ensures { result.items ≡ disks_of self }
    {
        let Node {
            mut shards,
            refused,
            mut disks,
            ..
        } = self;
        if refused.is_none() {
            stop_all(&mut shards, &mut disks);
        }
        disks
    }
}

// Carries out a command on a digest of the device. What is read of a payload takes the room.
fn act_on<D: Disk>(
    shard: &mut Shard<D>,
    alloc: Global,
    room: &mut Vec<u8>,
    command: &Command,
    digest: &Digest,
    now: u64,
) -> Reply
    requires time { now ≤ 2 ^ 61 }
    requires range { IsInRange command.now }
    requires on { digest_of command.now ≡ Some digest.now }
    requires place { device_number shard.old.shelf.geometry.devices digest.now ≡ shard.old.shelf.geometry.device }
    ensures replies { RepliesOn D.view shard.old command.now now result shard.new }
    ensures goes { GoesOn D.view shard.old shard.new }
{
    match command {
        Command::Put {
            ttl,
            expect,
            payload,
            ..
        } => write_reply(shard.put(alloc, digest, *ttl, payload.as_slice(), *expect, now)),
        Command::Get(_) => read_reply(shard.get_in(alloc, room, digest, now)),
        Command::Meta(_) => known_reply(shard.meta(digest, now)),
        Command::Del(_) => delete_reply(shard.delete(alloc, digest, now)),
        Command::Bury(_) => write_reply(shard.bury(alloc, digest, now)),
        _ => unreachable!(),
    }
}

// Whether the record that is seen of a digest of the device was printed behind the text of the page, out of a buffer in memory that has it. Else
// nothing was done.
fn print_on<D: Disk>(shard: &Shard<D>, digest: &Digest, now: u64, page: &mut Page) -> bool
    requires place { device_number shard.now.shelf.geometry.devices digest.now ≡ shard.now.shelf.geometry.device }
    ensures printed { result ≡ true → (reply : Reply) × GetsOn D.view shard.now digest.now now reply shard.now × (page.new ≡ page.old ++ reply_text reply) }
    ensures not { result ≡ false → page.new ≡ page.old }
{
    let Some(version) = shard.look(digest, now) else {
        return false;
    };
    match print_version(&version, page) {
        Ok(()) => true,
        Err(_) => false,
    }
}

impl<D: Disk> Store for Node<D> {
    ghost use Rattle.core_run.specs.Calls.{Acts, Tends};

    ghost acts = { Acts D.view };

    ghost tends = { Tends D.view };

    /// A command that is refused leaves its device as the device's call does, and every other as it was. Of a command over all devices those
    /// before the one that is refused have done theirs, what that one did before stands, and those behind it are as before.
    fn act(&mut self, alloc: Global, command: &Command, now: u64) -> Reply {
        self.act_in(alloc, &mut Vec::new(alloc), command, now)
    }

    fn act_in(&mut self, alloc: Global, room: &mut Vec<u8>, command: &Command, now: u64) -> Reply {
        if self.refused.is_some() {
            return Reply::Halted;
        }
        if let Some(digest) = digest_of(command) {
            let device = device_of(digest, self.shards.len() as u16);
            return act_on(
                &mut self.shards[usize::from(device)],
                alloc,
                room,
                command,
                digest,
                now,
            );
        }
        match command {
            Command::Flush => flush_reply(flush_each(&mut self.shards)),
            Command::Heal => heal_reply(heal_each(&mut self.shards)),
            Command::Defrag => defrag_reply(defrag_each(alloc, &mut self.shards)),
            Command::Expire => expire_reply(expire_each(alloc, &mut self.shards, now)),
            Command::Raid => raid_reply(raid_each(alloc, &mut self.shards, now)),
            Command::Stat => Reply::StatOf(counts_of(&self.shards)),
            Command::Restart => self.restart(alloc),
            _ => unreachable!(),
        }
    }

    /// A record is printed out of a buffer in memory that has it: a write buffer, or a flushed one that is kept. Nothing changes.
    fn print_get(&self, digest: &Digest, now: u64, page: &mut Page) -> bool {
        if self.refused.is_some() {
            return false;
        }
        let device = device_of(digest, self.shards.len() as u16);
        print_on(&self.shards[usize::from(device)], digest, now, page)
    }

    /// What is refused on one device leaves it as `Shard::tend` does, and the next is tended all the same.
    fn tend(&mut self, alloc: Global) {
        tend_each(alloc, &mut self.shards);
    }
}
