// Whether the answers to calls of some threads on one digest fit one order of them all, in which each thread's stand in its own.
use crate::tests::calls::{Answer, Ask, Call, units_of};
use rec_format::Stamp;
use std::alloc::{AllocError, Global};

/// How many threads there are.
pub const THREADS: usize = 4;

/// The calls of each thread on one digest, in its order.
pub type Calls = [Vec<Call>; THREADS];

/// What came of the search for an order.
#[derive(Clone, Copy, Debug, PartialEq, Eq)]
pub enum Order {
    Found,
    None,
    /// The search was given up.
    Unknown,
}

// How many writes are tried at most.
const TRIES: u32 = 100_000;

// The last version of a digest that isn't removed. A tombstone has no payload.
#[derive(Clone, Copy)]
struct Top {
    stamp: Stamp,
    payload: Option<u32>,
    cover: bool,
}

// What stands of a digest, and the greatest last update time that it has had.
#[derive(Clone, Copy)]
struct Record {
    top: Option<Top>,
    high: u64,
}

impl Record {
    // The stamp and the payload of the put that is seen.
    fn seen(&self) -> Option<(Stamp, u32)> {
        let top = self.top?;
        let payload = top.payload?;
        Some((top.stamp, payload))
    }

    // The generation that is seen, 0 where there is no record.
    fn generation(&self) -> u16 {
        match self.seen() {
            Some((stamp, _)) => stamp.gen_,
            None => 0,
        }
    }

    fn is_covered(&self) -> bool {
        self.top.is_some_and(|top| top.cover)
    }

    // The stamp of a version that is written over the last one, at this time. No generation is used up here.
    fn next_over(top: &Top, now: u64) -> Stamp {
        Stamp {
            lut: top.stamp.lut.max(now),
            gen_: top.stamp.gen_.saturating_add(1),
        }
    }

    // Whether a version that is written at this time may have this stamp. Without an entry its time is above all that the digest's sprig has
    // had, which other digests have too.
    fn may_write(&self, stamp: Stamp, now: u64) -> bool {
        match self.top {
            Some(top) => stamp == Record::next_over(&top, now),
            None => stamp.gen_ == 1 && stamp.lut >= now && stamp.lut > self.high,
        }
    }

    // With a put or a tombstone of this stamp.
    fn written(stamp: Stamp, payload: Option<u32>, cover: bool) -> Record {
        Record {
            top: Some(Top {
                stamp,
                payload,
                cover,
            }),
            high: stamp.lut,
        }
    }

    // After a delete of a record that is seen: a covered one leaves a tombstone, any other nothing.
    fn deleted(&self, now: u64) -> Option<Record> {
        self.seen()?;
        let top = self.top?;
        if top.cover {
            let stamp = Record::next_over(&top, now);
            return Some(Record::written(stamp, None, true));
        }
        Some(Record {
            top: None,
            high: self.high,
        })
    }

    // After a call that changes something, where it may answer this here.
    fn after(&self, call: &Call) -> Option<Record> {
        match (call.ask, call.answer) {
            (Ask::Put { expect, payload }, Answer::Written { stamp }) => {
                let expected = expect.is_none_or(|expect| expect == self.generation());
                (expected && self.may_write(stamp, call.now)).then_some(Record::written(
                    stamp,
                    Some(payload),
                    self.is_covered(),
                ))
            }
            (Ask::Bury, Answer::Written { stamp }) => self
                .may_write(stamp, call.now)
                .then_some(Record::written(stamp, None, true)),
            (Ask::Delete, Answer::Gone) => self.deleted(call.now),
            _ => None,
        }
    }

    // Whether a call that changes nothing may answer this here.
    fn shows(&self, call: &Call) -> bool {
        match (call.ask, call.answer) {
            (
                Ask::Put {
                    expect: Some(expect),
                    ..
                },
                Answer::Other { seen },
            ) => expect != seen && seen == self.generation(),
            (Ask::Get, Answer::Read { stamp, payload }) => self.seen() == Some((stamp, payload)),
            (Ask::Meta, Answer::Known { stamp, units }) => self.seen().is_some_and(|(
                seen,
                payload,
            )| seen == stamp && units_of(payload) == units),
            (Ask::Get | Ask::Meta | Ask::Delete, Answer::Nothing) => self.seen().is_none(),
            _ => false,
        }
    }

    // Whether an answer with this stamp may come here or later.
    fn may_come(&self, stamp: Stamp) -> bool {
        match self.top {
            Some(top) => stamp >= top.stamp,
            None => stamp.lut > self.high,
        }
    }
}

// The stamp of an answer that has one.
fn stamp_of(call: &Call) -> Option<Stamp> {
    match call.answer {
        Answer::Written { stamp } | Answer::Read { stamp, .. } | Answer::Known { stamp, .. } => {
            Some(stamp)
        }
        Answer::Nothing | Answer::Gone | Answer::Other { .. } | Answer::Failed => None,
    }
}

// How many calls of each thread stand in an order so far, and what stands of the digest behind them.
#[derive(Clone, Copy)]
struct Replay {
    done: [usize; THREADS],
    record: Record,
}

impl Replay {
    // The calls of a thread that are left.
    fn left<'a>(&self, calls: &'a Calls, thread: usize) -> &'a [Call] {
        let (Some(all), Some(done)) = (calls.get(thread), self.done.get(thread)) else {
            return &[];
        };
        all.get(*done..).unwrap_or(&[])
    }

    // So many calls of a thread more stand in the order.
    fn advance(&mut self, thread: usize, count: usize) {
        if let Some(done) = self.done.get_mut(thread) {
            *done = done.saturating_add(count);
        }
    }

    // Takes the next calls of a thread that change nothing, as far as their answers come here: they may as well stand here as later.
    fn take_reads(&mut self, calls: &Calls, thread: usize) {
        let reads = self
            .left(calls, thread)
            .iter()
            .take_while(|call| self.record.shows(call))
            .count();
        self.advance(thread, reads);
    }

    // Whether the next answer with a stamp of each thread may still come.
    fn may_go_on(&self, calls: &Calls) -> bool {
        (0..THREADS).all(|thread| {
            self.left(calls, thread)
                .iter()
                .find_map(stamp_of)
                .is_none_or(|stamp| self.record.may_come(stamp))
        })
    }

    fn is_whole(&self, calls: &Calls) -> bool {
        (0..THREADS).all(|thread| self.left(calls, thread).is_empty())
    }

    // With the next call of a thread, if that may change something here.
    fn with_next(&self, calls: &Calls, thread: usize) -> Option<Replay> {
        let next = self.left(calls, thread).first()?;
        let mut replay = *self;
        replay.record = self.record.after(next)?;
        replay.advance(thread, 1);
        replay.may_go_on(calls).then_some(replay)
    }
}

// Adds what may come next of each thread.
fn add_next(open: &mut Vec<Replay>, replay: &Replay, calls: &Calls) -> Result<(), AllocError> {
    for thread in 0..THREADS {
        if let Some(next) = replay.with_next(calls, thread) {
            open.push(next)?;
        }
    }
    Ok(())
}

// The same with all calls that change nothing and whose answers come here.
fn with_reads(mut replay: Replay, calls: &Calls) -> Replay {
    for thread in 0..THREADS {
        replay.take_reads(calls, thread);
    }
    replay
}

/// Whether there is an order of the calls on one digest in which each answers what it was answered, and behind which this last one does.
pub fn find_order(alloc: Global, calls: &Calls, last: &Call) -> Result<Order, AllocError> {
    let mut open = Vec::new(alloc);
    open.push(Replay {
        done: [0; THREADS],
        record: Record { top: None, high: 0 },
    })?;
    for _ in 0..TRIES {
        let Some(replay) = open.pop() else {
            return Ok(Order::None);
        };
        let replay = with_reads(replay, calls);
        if replay.is_whole(calls) && replay.record.shows(last) {
            return Ok(Order::Found);
        }
        add_next(&mut open, &replay, calls)?;
    }
    Ok(Order::Unknown)
}
