// Random calls of four threads over one device.
ghost use Rattle.std.specs.Prelude.{◌≡◌, ◌+◌, ◌<◌, All};
ghost use Rattle.turn_table.specs.Passes.{own_count, joined_count};
ghost use Rattle.live_node.specs.Lives.{IsPassAt};
ghost use Rattle.test_devices.specs.Trials.{IsAlone, IsShardAlone, IsFirst, IsGiven};

use crate::tests::calls::{Answer, Ask, Call, DIGESTS, flush_next, made, shown};
use crate::tests::devices::{Trouble, ended, formatted, opened, rejoined, settings, share};
use crate::tests::orders::{Calls, Order, find_order};
use disk_model::MemDisk;
use live_node::{Live, LivePass};
use rand_core::utils::NextWord;
use rand_pcg::Pcg32;
use shard_core::Shard;
use std::alloc::{AllocError, Global};
use std::sync::Wait;
use std::test::Fail;
use std::thread::{Threads, for_each_mut};

/// What came of it.
#[derive(Clone, Copy, Debug, PartialEq, Eq)]
pub enum Found {
    /// The answers of each digest, and what the device shows of it in the end, fit one order.
    Fits,
    /// Those of the digest of this number don't.
    Differs { digest: u32 },
    /// The search for an order was given up at this one.
    Unknown { digest: u32 },
}

// The time of the last look, in milliseconds.
const END: u64 = 1_000_000_000;

// What a thread asks and is answered.
#[derive(Drop)]
struct Talk {
    number: u32,
    words: Pcg32,
    // The generation that it saw last of each digest.
    seen: [u16; 48],
    calls: Vec<Call>,
    // No call is missing.
    is_whole: bool,
}

impl Talk {
    fn new(alloc: Global, seed: u64, number: u32) -> Talk {
        Talk {
            number,
            words: Pcg32::new(seed, u64::from(number)),
            seen: [0; 48],
            calls: Vec::new(alloc),
            is_whole: true,
        }
    }

    // A number below this one.
    fn below(&mut self, limit: u32) -> u32
        requires { 0 < limit }
        ensures { result < limit }
    {
        self.words.next_word() % limit
    }

    // What is asked next of a digest: of 16 calls 6 are puts, of which 4 expect the generation that was seen last. Every third digest is never
    // deleted durably, so that it isn't covered.
    fn ask(&mut self, digest: u32, count: u32) -> Ask {
        let payload = count.wrapping_mul(4).wrapping_add(self.number);
        let seen = self.seen.get(digest as usize).copied();
        match self.below(16) {
            0..2 => Ask::Put {
                expect: None,
                payload,
            },
            2..6 => Ask::Put {
                expect: seen,
                payload,
            },
            6..9 => Ask::Get,
            9..11 => Ask::Meta,
            11 if digest % 3 != 0 => Ask::Bury,
            _ => Ask::Delete,
        }
    }

    // Keeps in mind which generation was seen, and the call.
    fn note(&mut self, call: Call) {
        let seen = match call.answer {
            Answer::Written { stamp } | Answer::Read { stamp, .. } | Answer::Known { stamp, .. } =>
                { stamp.gen_ }
            Answer::Other { seen } => seen,
            Answer::Nothing | Answer::Gone | Answer::Failed => 0,
        };
        if let Some(kept) = self.seen.get_mut(call.digest as usize) {
            *kept = seen;
        }
        if self.calls.push(call).is_err() {
            self.is_whole = false;
        }
    }
}

// A thread's pass, and what it asks.
#[derive(Drop)]
struct Hand {
    pass: LivePass<MemDisk>,
    talk: Talk,
}

impl Hand {
    // A new one, with a pass of one number.
    fn new(
        alloc: Global,
        live: &Live<MemDisk>,
        pass: &mut LivePass<MemDisk>,
        seed: u64,
        number: u32,
    ) -> Hand
        requires pass { IsPassAt live.now pass.old }
        requires many { 1 < own_count pass.old }
        ensures pass { IsPassAt live.now pass.new }
        ensures numbers { (own_count pass.new + 1 ≡ own_count pass.old) × (joined_count pass.new ≡ joined_count pass.old) }
        ensures given { IsGiven live.now result.pass }
    {
        Hand {
            pass: share(live, pass),
            talk: Talk::new(alloc, seed, number),
        }
    }

    // Gives its pass back.
    fn into_talk(self, live: &Live<MemDisk>, pass: &mut LivePass<MemDisk>) -> Talk
        requires pass { IsPassAt live.now pass.old }
        requires given { IsGiven live.now self.pass }
        ensures pass { IsPassAt live.now pass.new }
        ensures numbers { (own_count pass.new ≡ own_count pass.old) × (joined_count pass.new ≡ joined_count pass.old + 1) }
    {
        let Hand { pass: other, talk } = self;
        rejoined(live, pass, other);
        talk
    }
}

// Makes one call, and behind each 64th flushes a buffer.
fn take_turn<R: Wait>(alloc: Global, rt: &R, live: &Live<MemDisk>, hand: &mut Hand, count: u32)
    requires given { IsGiven live.now hand.old.pass }
    requires alone { IsAlone live.now }
    ensures given { IsGiven live.now hand.new.pass }
{
    let digest = hand.talk.below(DIGESTS);
    let ask = hand.talk.ask(digest, count);
    let now = 1000 + u64::from(count / 64);
    let call = made(alloc, rt, live, &mut hand.pass, digest, ask, now);
    hand.talk.note(call);
    if count % 64 == 63 {
        flush_next(rt, live, &mut hand.pass);
    }
}

fn take_turns<R: Wait>(alloc: Global, rt: &R, live: &Live<MemDisk>, hand: &mut Hand, turns: u32)
    requires given { IsGiven live.now hand.old.pass }
    requires alone { IsAlone live.now }
    ensures given { IsGiven live.now hand.new.pass }
{
    for count in 0..turns {
        take_turn(alloc, rt, live, hand, count);
    }
}

// Each hand takes so many turns in a thread of its own.
fn work<R: Threads + Wait + Sync>(
    rt: &R,
    alloc: Global,
    live: &Live<MemDisk>,
    hands: &mut [Hand],
    turns: u32,
)
    requires given { All (λ hand. IsGiven live.now hand.pass) hands.old }
    requires alone { IsAlone live.now }
    ensures given { All (λ hand. IsGiven live.now hand.pass) hands.new }
{
    for_each_mut(
        rt,
        hands,
        4,
        &|_, hand| take_turns(alloc, rt, live, hand, turns),
    );
}

// The calls on one digest.
fn calls_on(alloc: Global, talk: &Talk, digest: u32) -> Result<Vec<Call>, AllocError> {
    let mut calls = Vec::new(alloc);
    for call in &talk.calls {
        if call.digest == digest {
            calls.push(*call)?;
        }
    }
    Ok(calls)
}

fn calls_of(alloc: Global, talks: &[Talk; 4], digest: u32) -> Result<Calls, AllocError> {
    Ok([
        calls_on(alloc, &talks[0], digest)?,
        calls_on(alloc, &talks[1], digest)?,
        calls_on(alloc, &talks[2], digest)?,
        calls_on(alloc, &talks[3], digest)?,
    ])
}

// Whether the answers of all threads, and what the device shows in the end, fit one order of each digest.
fn compared(alloc: Global, talks: &[Talk; 4], shard: &mut Shard<MemDisk>) -> Result<Found, Trouble>
    requires { IsShardAlone shard.old }
{
    for digest in 0..DIGESTS {
        let last = shown(alloc, shard, digest, END);
        let Ok(calls) = calls_of(alloc, talks, digest) else {
            return Err(Trouble::Memory);
        };
        match find_order(alloc, &calls, &last) {
            Ok(Order::Found) => {}
            Ok(Order::None) => return Ok(Found::Differs { digest }),
            Ok(Order::Unknown) => return Ok(Found::Unknown { digest }),
            Err(_) => return Err(Trouble::Memory),
        }
    }
    Ok(Found::Fits)
}

// Takes turns in four threads over a device, which comes out of its table then.
fn worked<R: Threads + Wait + Sync>(
    rt: &R,
    alloc: Global,
    live: Live<MemDisk>,
    mut pass: LivePass<MemDisk>,
    seed: u64,
    turns: u32,
) -> ([Talk; 4], Shard<MemDisk>)
    requires pass { IsFirst live pass }
    requires alone { IsAlone live }
    ensures alone { IsShardAlone result.1 }
{
    let mut hands = [
        Hand::new(alloc, &live, &mut pass, seed, 0),
        Hand::new(alloc, &live, &mut pass, seed, 1),
        Hand::new(alloc, &live, &mut pass, seed, 2),
        Hand::new(alloc, &live, &mut pass, seed, 3),
    ];
    work(rt, alloc, &live, &mut hands, turns);
    let [one, two, three, four] = hands;
    let talks = [
        one.into_talk(&live, &mut pass),
        two.into_talk(&live, &mut pass),
        three.into_talk(&live, &mut pass),
        four.into_talk(&live, &mut pass),
    ];
    (talks, ended(live, pass))
}

/// Four threads take so many turns each over one device, with calls that follow from the seed: puts, of which most expect a generation, gets,
/// deletes, some of them durable, and looks at what is known, on 48 digests. Then the device is taken out of its table. Says whether the answers
/// fit.
pub fn fit_in_four_threads<R: Threads + Wait + Sync>(
    rt: &R,
    alloc: Global,
    seed: u64,
    turns: u32,
) -> Result<Found, Trouble> {
    let disk = formatted(alloc, 64, 0, 1)?;
    let (live, pass) = opened(alloc, disk, settings(1, 4))?;
    let (talks, mut shard) = worked(rt, alloc, live, pass, seed, turns);
    if talks.iter().any(|talk| !talk.is_whole) {
        return Err(Trouble::Memory);
    }
    compared(alloc, &talks, &mut shard)
}

#[test]
fn the_answers_of_four_threads_fit_one_order(rt: HostRuntime) -> Result<(), Fail> {
    let Ok(found) = fit_in_four_threads(&rt, rt.alloc(), 1, 2000) else {
        return Err(Fail::new("the device isn't there"));
    };
    assert_eq!(rt; found, Found::Fits);
    Ok(())
}
