// Stores over devices, by one command after another.
ghost use Rattle.std.specs.Prelude.{◌≡◌, ◌≢◌, ◌<◌, ◌≤◌, ◌^◌, [], ◌∷◌, ◌++◌, length, IfSome, vec_len, vec_capacity};
ghost use Rattle.line_proto.specs.Lines.{IsInRange};
ghost use Rattle.live_store.specs.Pairs.{EachPair};
ghost use Rattle.live_store.specs.Known.{EachLive};
ghost use Rattle.test_stores.specs.Trials.{IsMade, IsShare, IsStoreOf, HasRoom};

use crate::tests::devices::{FALLING, NewDevice, RISING, ended, make_device, rejoined, share};
use disk_model::MemDisk;
use line_proto::{Command, Page, Reply, Store, print_reply};
use live_node::{Live, LivePass};
use live_store::LiveStore;
use rec_format::{Bytes, Digest};
use std::alloc::Global;
use std::slice;
use std::sync::Wait;
use std::test::Fail;

/// Room for the passes of so many devices.
pub fn seats(alloc: Global, count: usize) -> Option<Vec<LivePass<MemDisk>>>
    ensures { IfSome result (λ seats. (seats.items ≡ []) × (count ≤ vec_capacity seats)) }
{
    Vec::with_capacity(alloc, count).ok()
}

/// A store of a device that is alone.
pub fn over_one<'a, R>(
    rt: &'a R,
    live: &'a Live<MemDisk>,
    mut seats: Vec<LivePass<MemDisk>>,
    pass: LivePass<MemDisk>,
    list: Vec<Digest>,
) -> LiveStore<'a, MemDisk, R>
    requires made { IsMade 0 1 live.now }
    requires share { IsShare live.now pass }
    requires seats { (seats.items ≡ []) × (1 ≤ vec_capacity seats) }
    requires room { HasRoom (vec_capacity list) live.now }
    ensures store { IsStoreOf (live.now ∷ []) result }
{
    seats.push_reserved(pass);
    LiveStore::new(rt, slice::from_ref(live), seats, list)
}

/// A store of two devices.
pub fn over_two<'a, R>(
    rt: &'a R,
    lives: &'a [Live<MemDisk>; 2],
    mut seats: Vec<LivePass<MemDisk>>,
    passes: (LivePass<MemDisk>, LivePass<MemDisk>),
    list: Vec<Digest>,
) -> LiveStore<'a, MemDisk, R>
    requires made { EachLive (λ device live. IsMade device 2 live) lives.now }
    requires shares { EachPair IsShare lives.now (passes.0 ∷ passes.1 ∷ []) }
    requires seats { (seats.items ≡ []) × (2 ≤ vec_capacity seats) }
    requires room { EachLive (λ _ live. HasRoom (vec_capacity list) live) lives.now }
    ensures store { IsStoreOf lives.now result }
{
    seats.push_reserved(passes.0);
    seats.push_reserved(passes.1);
    LiveStore::new(rt, lives, seats, list)
}

// The last pass of a list.
fn take_last(passes: &mut Vec<LivePass<MemDisk>>) -> LivePass<MemDisk>
    requires { 0 < vec_len passes.old }
    ensures { passes.old.items ≡ passes.new.items ++ result ∷ [] }
{
    match passes.pop() {
        Some(pass) => pass,
        None => unreachable!(),
    }
}

/// The pass of a store of one device.
pub fn given<'a, R>(live: &Live<MemDisk>, store: LiveStore<'a, MemDisk, R>) -> LivePass<MemDisk>
    requires store { IsStoreOf (live.now ∷ []) store }
    ensures share { IsShare live.now result }
{
    let mut passes = store.into_passes();
    take_last(&mut passes)
}

/// The passes of a store of two devices.
pub fn both_given<'a, R>(
    lives: &[Live<MemDisk>; 2],
    store: LiveStore<'a, MemDisk, R>,
) -> (LivePass<MemDisk>, LivePass<MemDisk>)
    requires store { IsStoreOf lives.now store }
    ensures shares { EachPair IsShare lives.now (result.0 ∷ result.1 ∷ []) }
{
    let mut passes = store.into_passes();
    let second = take_last(&mut passes);
    let first = take_last(&mut passes);
    (first, second)
}

// Carries out a command at 1,000 milliseconds.
fn act<'a, R: Wait>(
    alloc: Global,
    lives: &[Live<MemDisk>],
    store: &mut LiveStore<'a, MemDisk, R>,
    command: &Command,
) -> Reply
    requires store { IsStoreOf lives.now store.old }
    requires range { IsInRange command.now }
    requires goes_on { command.now ≢ Command.Quit }
    ensures store { IsStoreOf lives.now store.new }
    ensures reply { result ≢ Reply.Halted }
{
    store.act(alloc, command, 1000)
}

// The text of a reply.
fn text_of(alloc: Global, reply: &Reply) -> Option<Vec<u8>>
    requires { reply.now ≢ Reply.Halted }
{
    let mut page = Page::new(alloc);
    print_reply(reply, &mut page).ok()?;
    let mut text = Vec::new(alloc);
    text.extend_from_slice(page.text()).ok()?;
    Some(text)
}

// The text of the reply to a command.
fn answer<'a, R: Wait>(
    alloc: Global,
    lives: &[Live<MemDisk>],
    store: &mut LiveStore<'a, MemDisk, R>,
    command: &Command,
) -> Option<Vec<u8>>
    requires store { IsStoreOf lives.now store.old }
    requires range { IsInRange command.now }
    requires goes_on { command.now ≢ Command.Quit }
    ensures store { IsStoreOf lives.now store.new }
{
    let reply = act(alloc, lives, store, command);
    text_of(alloc, &reply)
}

// A put of some bytes, which never expires.
fn put_of(digest: Digest, payload: Vec<u8>) -> Command
    requires { length payload.items ≤ 2 ^ 31 }
    ensures range { IsInRange result }
    ensures goes_on { result ≢ Command.Quit }
{
    Command::Put {
        digest,
        ttl: 0,
        expect: None,
        payload: Bytes::from_vec(payload),
    }
}

// The replies to a put, to a get of what was put, and to a get of another digest.
fn put_and_get<'a, R: Wait>(
    alloc: Global,
    lives: &[Live<MemDisk>],
    store: &mut LiveStore<'a, MemDisk, R>,
    put: &Command,
) -> Option<[Vec<u8>; 3]>
    requires store { IsStoreOf lives.now store.old }
    requires range { IsInRange put.now }
    requires goes_on { put.now ≢ Command.Quit }
    ensures store { IsStoreOf lives.now store.new }
{
    let first = answer(alloc, lives, store, put);
    let second = answer(alloc, lives, store, &Command::Get(RISING));
    let third = answer(alloc, lives, store, &Command::Get(FALLING));
    Some([first?, second?, third?])
}

// So it is over a new device.
fn put_and_get_over_one<R: Wait>(rt: &R, alloc: Global) -> Option<[Vec<u8>; 3]> {
    let put = put_of(RISING, Vec::from_array(alloc, [0xaa, 0xbb]).ok()?);
    let seats = seats(alloc, 1)?;
    let NewDevice {
        live,
        mut pass,
        list,
    } = make_device(alloc, 0, 1)?;
    let one = share(&live, &mut pass);
    let mut store = over_one(rt, &live, seats, one, list);
    let replies = put_and_get(alloc, slice::from_ref(&live), &mut store, &put);
    rejoined(&live, &mut pass, given(&live, store));
    ended(live, pass);
    replies
}

#[test]
fn a_put_and_a_get_are_carried_out(rt: HostRuntime) -> Result<(), Fail> {
    let Some([put, get, other]) = put_and_get_over_one(&rt, rt.alloc()) else {
        return Err(Fail::new("memory"));
    };
    assert_eq!(rt; put.as_slice(), b"ok 1 1000\n".as_slice());
    assert_eq!(rt; get.as_slice(), b"val 1 1000 0 aabb\n".as_slice());
    assert_eq!(rt; other.as_slice(), b"none\n".as_slice());
    Ok(())
}
