// Sessions that no run has: one that ends at a small limit, and one over a store that halts of itself.
use io_traits::{Both, ListClock, TextSink, TextSource};
use line_proto::{Command, Reply, Store};
use node_session::{Ended, session};
use std::alloc::Global;
use std::process::Abort;
use std::test::Fail;

// A store that has nothing, and halts at a get.
#[derive(Drop)]
struct Halting {
    tended: u64,
}

impl Store for Halting {
    ghost acts = { λ old command now reply new. Unit {0} };

    ghost tends = { λ old new. Unit {0} };

    fn act(&mut self, _alloc: Global, command: &Command, _now: u64) -> Reply {
        match command {
            Command::Get(_) => Reply::Halted,
            _ => Reply::Nothing,
        }
    }

    fn tend(&mut self, _alloc: Global) {
        self.tended = self.tended.saturating_add(1);
    }
}

// What is sent and the limit; how the session is to end, what it is to write, and how often its store is to be tended.
#[derive(Clone, Copy)]
struct Case {
    input: &'static [u8],
    limit: u64,
    ended: Ended,
    text: &'static [u8],
    tended: u64,
}

type Link = Both<TextSource, TextSink>;

fn link_over(alloc: Global, input: &[u8]) -> Result<Link, Fail> {
    Ok(Both {
        source: TextSource::new(input.to_vec(alloc)?, Vec::new(alloc)),
        sink: TextSink::new(alloc, Vec::new(alloc)),
    })
}

fn ends_so(
    rt: &impl Abort,
    alloc: Global,
    store: &mut Halting,
    link: &mut Link,
    case: &Case,
) -> Result<(), Fail> {
    let mut clock = ListClock::new([1000].to_vec(alloc)?);
    let ended = session(alloc, store, link, &mut clock, case.limit);
    assert_eq!(rt;
        (ended, link.sink.written(), store.tended),
        (case.ended, case.text, case.tended)
    );
    Ok(())
}

fn run(rt: &impl Abort, alloc: Global, case: &Case) -> Result<(), Fail> {
    let mut link = link_over(alloc, case.input)?;
    ends_so(rt, alloc, &mut Halting { tended: 0 }, &mut link, case)
}

/// Once the limit is reached nothing more is read, not even the end.
const LIMITED: [Case; 5] = [
    Case {
        input: b"stat\nstat\n",
        limit: 8,
        ended: Ended::Long { taken: 8 },
        text: b"none\n",
        tended: 1,
    },
    Case {
        input: b"get 000102030405060708\n",
        limit: 8,
        ended: Ended::Long { taken: 8 },
        text: b"",
        tended: 0,
    },
    Case {
        input: b"stat\n",
        limit: 5,
        ended: Ended::Long { taken: 5 },
        text: b"none\n",
        tended: 1,
    },
    Case {
        input: b"quit\n",
        limit: 5,
        ended: Ended::Quit { lines: 1 },
        text: b"bye\n",
        tended: 0,
    },
    Case {
        input: b"",
        limit: 9,
        ended: Ended::Finish { lines: 0 },
        text: b"",
        tended: 0,
    },
];

#[test]
fn the_limit_ends_it(rt: HostRuntime) -> Result<(), Fail> {
    for case in LIMITED {
        run(&rt, rt.alloc(), &case)?;
    }
    Ok(())
}

#[test]
fn what_was_answered_before_a_halt_is_written(rt: HostRuntime) -> Result<(), Fail> {
    run(
        &rt,
        rt.alloc(),
        &Case {
            input: b"stat\nfrob\nget 000102030405060708090a0b0c0d0e0f10111213\nstat\n",
            limit: u64::MAX,
            ended: Ended::Halted,
            text: b"none\nerr line\n",
            tended: 2,
        },
    )
}
