// What the search for an order finds of a few calls on one digest.
use crate::tests::calls::{Answer, Ask, Call};
use crate::tests::orders::{Calls, Order, find_order};
use rec_format::Stamp;
use std::alloc::{AllocError, Global};
use std::test::Fail;

fn stamp(lut: u64, gen_: u16) -> Stamp {
    Stamp { lut, gen_ }
}

fn call(ask: Ask, answer: Answer) -> Call {
    Call {
        digest: 0,
        now: 1000,
        ask,
        answer,
    }
}

// A put of this payload.
fn put(payload: u32, lut: u64, gen_: u16) -> Call {
    let ask = Ask::Put {
        expect: None,
        payload,
    };
    call(
        ask,
        Answer::Written {
            stamp: stamp(lut, gen_),
        },
    )
}

fn get(payload: u32, lut: u64, gen_: u16) -> Call {
    call(
        Ask::Get,
        Answer::Read {
            stamp: stamp(lut, gen_),
            payload,
        },
    )
}

fn nothing() -> Call {
    call(Ask::Get, Answer::Nothing)
}

fn gone() -> Call {
    call(Ask::Delete, Answer::Gone)
}

fn bury(lut: u64, gen_: u16) -> Call {
    call(
        Ask::Bury,
        Answer::Written {
            stamp: stamp(lut, gen_),
        },
    )
}

// The calls of two threads, and what is shown in the end.
fn order_of(alloc: Global, one: &[Call], two: &[Call], last: Call) -> Result<Order, AllocError> {
    let calls: Calls = [
        one.to_vec(alloc)?,
        two.to_vec(alloc)?,
        Vec::new(alloc),
        Vec::new(alloc),
    ];
    find_order(alloc, &calls, &last)
}

// The first thread's get comes before the second's put, its delete behind.
#[test]
fn answers_that_fit_have_an_order(rt: HostRuntime) -> Result<(), Fail> {
    let alloc = rt.alloc();
    let one = [
        nothing(),
        put(7, 1000, 1),
        get(7, 1000, 1),
        gone(),
        nothing(),
    ];
    let two = [nothing(), put(8, 1000, 2), get(8, 1000, 2), put(9, 1001, 1)];
    assert_eq!(rt; order_of(alloc, &one, &two, get(9, 1001, 1))?, Order::Found);
    let one = [bury(1000, 1), put(7, 1000, 2), gone(), nothing()];
    let two = [put(8, 1000, 4), gone()];
    assert_eq!(rt; order_of(alloc, &one, &two, nothing())?, Order::Found);
    Ok(())
}

#[test]
fn answers_that_do_not_fit_have_none(rt: HostRuntime) -> Result<(), Fail> {
    let alloc = rt.alloc();
    let one = [put(7, 1000, 1), get(7, 1000, 1)];
    // A lost write: both put the first generation.
    let two = [put(8, 1000, 1)];
    assert_eq!(rt; order_of(alloc, &one, &two, get(8, 1000, 1))?, Order::None);
    // The second thread sees the put, and then nothing.
    let two = [get(7, 1000, 1), nothing()];
    assert_eq!(rt; order_of(alloc, &one, &two, get(7, 1000, 1))?, Order::None);
    // The payload is that of another put.
    let two = [put(8, 1000, 2), get(7, 1000, 2)];
    assert_eq!(rt; order_of(alloc, &one, &two, get(8, 1000, 2))?, Order::None);
    // An old version stands in the end.
    let two = [put(8, 1000, 2)];
    assert_eq!(rt; order_of(alloc, &one, &two, get(7, 1000, 1))?, Order::None);
    // A covered record leaves a tombstone, over which the generation goes on.
    let two = [bury(1000, 2), put(8, 1000, 3), gone(), put(9, 1001, 1)];
    assert_eq!(rt; order_of(alloc, &one, &two, get(9, 1001, 1))?, Order::None);
    Ok(())
}

// Each thread deletes once, of two lives: which of the deletes is which follows from what the threads see then.
#[test]
fn deletes_find_their_places(rt: HostRuntime) -> Result<(), Fail> {
    let alloc = rt.alloc();
    let one = [put(7, 1000, 1), gone(), get(9, 1002, 1)];
    let two = [gone(), put(8, 1001, 1), put(9, 1002, 1)];
    assert_eq!(rt; order_of(alloc, &one, &two, get(9, 1002, 1))?, Order::Found);
    let two = [gone(), put(8, 1001, 1), gone(), put(9, 1002, 1)];
    assert_eq!(rt; order_of(alloc, &one, &two, get(9, 1002, 1))?, Order::None);
    Ok(())
}
