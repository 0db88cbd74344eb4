// Sessions over stores, with links in memory.
ghost use Rattle.std.specs.Prelude.{◌≡◌, ◌≤◌, [], ◌∷◌, IfSome, vec_capacity};
ghost use Rattle.live_store.specs.Pairs.{EachPair};
ghost use Rattle.live_store.specs.Known.{EachLive};
ghost use Rattle.test_stores.specs.Trials.{IsMade, IsFirst, IsBeside, IsShare, IsStoreOf, HasRoom};

use crate::tests::devices::{
    NewDevice, counts, ended, make_device, make_failing, one_rejoined, rejoined, share, shares,
    unmade,
};
use crate::tests::stores::{both_given, given, over_one, over_two, seats};
use disk_model::MemDisk;
use io_traits::{Both, ListClock, TextSink, TextSource};
use live_node::{Live, LivePass};
use live_session::serve_link;
use live_store::LiveStore;
use node_session::Ended;
use rec_format::{Counts, Digest};
use std::alloc::Global;
use std::slice;
use std::sync::Wait;
use std::test::Fail;

// A link of which this text comes, and a clock that stands at 1,000 milliseconds.
#[derive(Drop)]
struct Client {
    link: Both<TextSource, TextSink>,
    clock: ListClock,
}

fn client_of(alloc: Global, text: &[u8]) -> Option<Client> {
    let text = text.to_vec(alloc).ok()?;
    let times = Vec::from_array(alloc, [1000]).ok()?;
    Some(Client {
        link: Both {
            source: TextSource::new(text, Vec::new(alloc)),
            sink: TextSink::new(alloc, Vec::new(alloc)),
        },
        clock: ListClock::new(times),
    })
}

// What was written, where the input was served to its end.
fn told(alloc: Global, client: &Client, ended: Ended) -> Option<Vec<u8>> {
    match ended {
        Ended::Finish { lines: _ } => client.link.sink.written().to_vec(alloc).ok(),
        _ => None,
    }
}

// Serves a session over a store, and tells what it wrote.
fn serve<'a, R: Wait>(
    alloc: Global,
    lives: &[Live<MemDisk>],
    store: &mut LiveStore<'a, MemDisk, R>,
    mut client: Client,
) -> Option<Vec<u8>>
    requires store { IsStoreOf lives.now store.old }
    ensures store { IsStoreOf lives.now store.new }
{
    let ended = serve_link(alloc, store, &mut client.link, &mut client.clock, 1 << 40);
    told(alloc, &client, ended)
}

// What a session over a device that is alone writes. The device is ended.
fn told_over<R: Wait>(
    rt: &R,
    alloc: Global,
    made: NewDevice,
    seats: Vec<LivePass<MemDisk>>,
    client: Client,
) -> Option<Vec<u8>>
    requires made { IsMade 0 1 made.live }
    requires first { IsFirst made.live made.pass }
    requires room { HasRoom (vec_capacity made.list) made.live }
    requires seats { (seats.items ≡ []) × (1 ≤ vec_capacity seats) }
{
    let NewDevice {
        live,
        mut pass,
        list,
    } = made;
    let one = share(&live, &mut pass);
    let mut store = over_one(rt, &live, seats, one, list);
    let told = serve(alloc, slice::from_ref(&live), &mut store, client);
    rejoined(&live, &mut pass, given(&live, store));
    ended(live, pass);
    told
}

// What a session over a new device writes.
fn told_over_one<R: Wait>(rt: &R, alloc: Global, text: &[u8]) -> Option<Vec<u8>> {
    let client = client_of(alloc, text)?;
    let seats = seats(alloc, 1)?;
    let made = make_device(alloc, 0, 1)?;
    told_over(rt, alloc, made, seats, client)
}

// What a session over a new device writes whose disk fails the write behind so many.
fn told_over_failing<R: Wait>(rt: &R, alloc: Global, text: &[u8], writes: u64) -> Option<Vec<u8>> {
    let client = client_of(alloc, text)?;
    let seats = seats(alloc, 1)?;
    let made = make_failing(alloc, writes)?;
    told_over(rt, alloc, made, seats, client)
}

// TwoDevices devices of a node, each with its first pass, and a list that can be lent to either.
struct TwoDevices {
    lives: [Live<MemDisk>; 2],
    passes: (LivePass<MemDisk>, LivePass<MemDisk>),
    list: Vec<Digest>,
}

// The list with more room.
fn longer(one: Vec<Digest>, other: Vec<Digest>) -> Vec<Digest>
    ensures { (vec_capacity one ≤ vec_capacity result) × (vec_capacity other ≤ vec_capacity result) }
{
    if one.capacity() < other.capacity() {
        other
    } else {
        one
    }
}

fn together(first: NewDevice, second: NewDevice) -> TwoDevices
    requires made { IsMade 0 2 first.live × IsMade 1 2 second.live }
    requires first { IsFirst first.live first.pass × IsFirst second.live second.pass }
    requires room { HasRoom (vec_capacity first.list) first.live × HasRoom (vec_capacity second.list) second.live }
    ensures made { EachLive (λ device live. IsMade device 2 live) result.lives }
    ensures first { EachPair IsFirst result.lives (result.passes.0 ∷ result.passes.1 ∷ []) }
    ensures room { EachLive (λ _ live. HasRoom (vec_capacity result.list) live) result.lives }
{
    let NewDevice { live, pass, list } = first;
    let NewDevice {
        live: other_live,
        pass: other_pass,
        list: other_list,
    } = second;
    TwoDevices {
        lives: [live, other_live],
        passes: (pass, other_pass),
        list: longer(list, other_list),
    }
}

// TwoDevices new devices of a node.
fn make_two(alloc: Global) -> Option<TwoDevices>
    ensures made { IfSome result (λ two. EachLive (λ device live. IsMade device 2 live) two.lives) }
    ensures first { IfSome result (λ two. EachPair IsFirst two.lives (two.passes.0 ∷ two.passes.1 ∷ [])) }
    ensures room { IfSome result (λ two. EachLive (λ _ live. HasRoom (vec_capacity two.list) live) two.lives) }
{
    let first = make_device(alloc, 0, 2)?;
    match make_device(alloc, 1, 2) {
        Some(second) => Some(together(first, second)),
        None => {
            unmade(first);
            None
        }
    }
}

// Serves a session over two devices by a pass of each, which are given back.
fn serve_two<R: Wait>(
    rt: &R,
    alloc: Global,
    lives: &[Live<MemDisk>; 2],
    seats: Vec<LivePass<MemDisk>>,
    passes: (LivePass<MemDisk>, LivePass<MemDisk>),
    list: Vec<Digest>,
    client: Client,
) -> (LivePass<MemDisk>, LivePass<MemDisk>, Option<Vec<u8>>)
    requires made { EachLive (λ device live. IsMade device 2 live) lives.now }
    requires shares { EachPair IsShare lives.now (passes.0 ∷ passes.1 ∷ []) }
    requires seats { (seats.items ≡ []) × (2 ≤ vec_capacity seats) }
    requires room { EachLive (λ _ live. HasRoom (vec_capacity list) live) lives.now }
    ensures shares { EachPair IsShare lives.now (result.0 ∷ result.1 ∷ []) }
{
    let mut store = over_two(rt, lives, seats, passes, list);
    let told = serve(alloc, lives, &mut store, client);
    let (first, second) = both_given(lives, store);
    (first, second, told)
}

// A pass of one number of each, for a store.
fn share_each(
    lives: &[Live<MemDisk>; 2],
    pass: &mut LivePass<MemDisk>,
    other: &mut LivePass<MemDisk>,
) -> (LivePass<MemDisk>, LivePass<MemDisk>)
    requires first { EachPair IsFirst lives.now (pass.old ∷ other.old ∷ []) }
    ensures beside { EachPair (λ live p. IsBeside live 1 p) lives.now (pass.new ∷ other.new ∷ []) }
    ensures shares { EachPair IsShare lives.now (result.0 ∷ result.1 ∷ []) }
{
    (share(&lives[0], pass), share(&lives[1], other))
}

// The numbers of each.
fn count_each<R: Wait>(
    rt: &R,
    lives: &[Live<MemDisk>; 2],
    pass: &mut LivePass<MemDisk>,
    other: &mut LivePass<MemDisk>,
) -> (Counts, Counts)
    requires beside { EachPair (λ live p. IsBeside live 1 p) lives.now (pass.old ∷ other.old ∷ []) }
    ensures beside { EachPair (λ live p. IsBeside live 1 p) lives.now (pass.new ∷ other.new ∷ []) }
{
    (counts(rt, &lives[0], pass), counts(rt, &lives[1], other))
}

// Joins the passes of a store, so that both devices may be ended.
fn rejoin_each(
    lives: &[Live<MemDisk>; 2],
    pass: &mut LivePass<MemDisk>,
    other: &mut LivePass<MemDisk>,
    shares: (LivePass<MemDisk>, LivePass<MemDisk>),
)
    requires beside { EachPair (λ live p. IsBeside live 1 p) lives.now (pass.old ∷ other.old ∷ []) }
    requires shares { EachPair IsShare lives.now (shares.0 ∷ shares.1 ∷ []) }
    ensures beside { EachPair (λ live p. IsBeside live 0 p) lives.now (pass.new ∷ other.new ∷ []) }
{
    rejoined(&lives[0], pass, shares.0);
    rejoined(&lives[1], other, shares.1);
}

fn end_each(lives: [Live<MemDisk>; 2], pass: LivePass<MemDisk>, other: LivePass<MemDisk>)
    requires { EachPair (λ live p. IsBeside live 0 p) lives (pass ∷ other ∷ []) }
{
    let [first, second] = lives;
    ended(first, pass);
    ended(second, other);
}

// What a session over two new devices writes, and the numbers of each behind it.
fn told_over_two<R: Wait>(rt: &R, alloc: Global, text: &[u8]) -> Option<(Vec<u8>, Counts, Counts)> {
    let client = client_of(alloc, text)?;
    let seats = seats(alloc, 2)?;
    let TwoDevices {
        lives,
        passes: (mut pass, mut other),
        list,
    } = make_two(alloc)?;
    let shares = share_each(&lives, &mut pass, &mut other);
    let (one, another, told) = serve_two(rt, alloc, &lives, seats, shares, list, client);
    let (first, second) = count_each(rt, &lives, &mut pass, &mut other);
    rejoin_each(&lives, &mut pass, &mut other, (one, another));
    end_each(lives, pass, other);
    Some((told?, first, second))
}

// By their first bytes two digests are of the first device, and one of the second. Each device has a buffer to flush, and its block, of little
// use, waits to be vacated.
#[test]
fn a_digest_names_its_device_and_sums_go_over_both(rt: HostRuntime) -> Result<(), Fail> {
    let text = b"put 000102030405060708090a0b0c0d0e0f10111213 0 * aa
put 0200000000000000000000000000000000000000 0 * bb
put 131211100f0e0d0c0b0a09080706050403020100 0 * cc
get 131211100f0e0d0c0b0a09080706050403020100
flush
stat
";
    let Some((told, first, second)) = told_over_two(&rt, rt.alloc(), text) else {
        return Err(Fail::new("memory"));
    };
    assert_eq!(rt;
        told.as_slice(),
        b"ok 1 1000\nok 1 1000\nok 1 1000\nval 1 1000 0 cc\nok 2\nstat 3 0 0 14 0 2 0\n".as_slice()
    );
    assert_eq!(rt; (first.records, second.records), (2, 1));
    assert_eq!(rt; (first.free, second.free), (7, 7));
    Ok(())
}

// A new device, and a second list that can be lent to it.
fn make_with_two_lists(alloc: Global) -> Option<(NewDevice, Vec<Digest>)>
    ensures made { IfSome result (λ r. IsMade 0 1 r.0.live) }
    ensures first { IfSome result (λ r. IsFirst r.0.live r.0.pass) }
    ensures rooms { IfSome result (λ r. HasRoom (vec_capacity r.0.list) r.0.live × HasRoom (vec_capacity r.1) r.0.live) }
{
    let made = make_device(alloc, 0, 1)?;
    match made.live.digest_list(alloc) {
        Ok(list) => Some((made, list)),
        Err(_) => {
            unmade(made);
            None
        }
    }
}

// What three sessions write.
type Told = (Option<Vec<u8>>, Option<Vec<u8>>, Option<Vec<u8>>);

// Serves three sessions over two stores of a device, the first and the third over the first of these. The passes are given back.
fn serve_beside<R: Wait>(
    rt: &R,
    alloc: Global,
    live: &Live<MemDisk>,
    lists: (Vec<Digest>, Vec<Digest>),
    seats: (Vec<LivePass<MemDisk>>, Vec<LivePass<MemDisk>>),
    passes: (LivePass<MemDisk>, LivePass<MemDisk>),
    clients: (Client, Client, Client),
) -> (LivePass<MemDisk>, LivePass<MemDisk>, Told)
    requires made { IsMade 0 1 live.now }
    requires shares { IsShare live.now passes.0 × IsShare live.now passes.1 }
    requires first { (seats.0.items ≡ []) × (1 ≤ vec_capacity seats.0) }
    requires second { (seats.1.items ≡ []) × (1 ≤ vec_capacity seats.1) }
    requires rooms { HasRoom (vec_capacity lists.0) live.now × HasRoom (vec_capacity lists.1) live.now }
    ensures shares { IsShare live.now result.0 × IsShare live.now result.1 }
{
    let mut first = over_one(rt, live, seats.0, passes.0, lists.0);
    let mut second = over_one(rt, live, seats.1, passes.1, lists.1);
    let lives = slice::from_ref(live);
    let told = (
        serve(alloc, lives, &mut first, clients.0),
        serve(alloc, lives, &mut second, clients.1),
        serve(alloc, lives, &mut first, clients.2),
    );
    (given(live, first), given(live, second), told)
}

fn all_told(told: Told) -> Option<(Vec<u8>, Vec<u8>, Vec<u8>)> {
    let (first, second, third) = told;
    Some((first?, second?, third?))
}

// What three sessions write, as they come.
fn told_beside<R: Wait>(
    rt: &R,
    alloc: Global,
    texts: [&[u8]; 3],
) -> Option<(Vec<u8>, Vec<u8>, Vec<u8>)> {
    let clients = (
        client_of(alloc, texts[0])?,
        client_of(alloc, texts[1])?,
        client_of(alloc, texts[2])?,
    );
    let seats = (seats(alloc, 1)?, seats(alloc, 1)?);
    let (
        NewDevice {
            live,
            mut pass,
            list,
        },
        other_list,
    ) = make_with_two_lists(alloc)?;
    let shares = shares(&live, &mut pass);
    let lists = (list, other_list);
    let (one, other, told) = serve_beside(rt, alloc, &live, lists, seats, shares, clients);
    one_rejoined(&live, &mut pass, one);
    rejoined(&live, &mut pass, other);
    ended(live, pass);
    all_told(told)
}

// The second session sees what the first put, and puts over it; a third, over the first's store, sees that.
#[test]
fn a_session_sees_what_was_put_by_another_at_the_device(rt: HostRuntime) -> Result<(), Fail> {
    let texts: [&[u8]; 3] = [
        b"put 000102030405060708090a0b0c0d0e0f10111213 0 0 aa\n",
        b"get 000102030405060708090a0b0c0d0e0f10111213
put 000102030405060708090a0b0c0d0e0f10111213 0 1 bb
",
        b"get 000102030405060708090a0b0c0d0e0f10111213
meta 000102030405060708090a0b0c0d0e0f10111213
",
    ];
    let Some((first, second, third)) = told_beside(&rt, rt.alloc(), texts) else {
        return Err(Fail::new("memory"));
    };
    assert_eq!(rt; first.as_slice(), b"ok 1 1000\n".as_slice());
    assert_eq!(rt;
        second.as_slice(),
        b"val 1 1000 0 aa\nok 2 1000\n".as_slice()
    );
    assert_eq!(rt;
        third.as_slice(),
        b"val 2 1000 0 bb\nmeta 2 1000 0 4\n".as_slice()
    );
    Ok(())
}

#[test]
fn a_raid_and_a_restart_are_of_another_mode(rt: HostRuntime) -> Result<(), Fail> {
    let Some(told) = told_over_one(&rt, rt.alloc(), b"raid\nrestart\nstat\n") else {
        return Err(Fail::new("memory"));
    };
    assert_eq!(rt;
        told.as_slice(),
        b"err mode\nerr mode\nstat 0 0 0 8 0 0 0\n".as_slice()
    );
    Ok(())
}

// Each flush of eight writes a body and a gate, two writes. It frees the block of the put before, whose gate is open: the first of the 8 blocks comes
// again at the ninth put, which closes that gate first, by the seventeenth write. That fails, so the gate is unsure, until a heal closes it.
#[test]
fn a_gate_that_failed_to_close_is_healed(rt: HostRuntime) -> Result<(), Fail> {
    let text = b"put 000102030405060708090a0b0c0d0e0f10111213 0 * aa
flush
put 000102030405060708090a0b0c0d0e0f10111213 0 * aa
flush
put 000102030405060708090a0b0c0d0e0f10111213 0 * aa
flush
put 000102030405060708090a0b0c0d0e0f10111213 0 * aa
flush
put 000102030405060708090a0b0c0d0e0f10111213 0 * aa
flush
put 000102030405060708090a0b0c0d0e0f10111213 0 * aa
flush
put 000102030405060708090a0b0c0d0e0f10111213 0 * aa
flush
put 000102030405060708090a0b0c0d0e0f10111213 0 * aa
flush
put 000102030405060708090a0b0c0d0e0f10111213 0 * aa
heal
heal
put 000102030405060708090a0b0c0d0e0f10111213 0 8 aa
";
    let Some(told) = told_over_failing(&rt, rt.alloc(), text, 16) else {
        return Err(Fail::new("memory"));
    };
    assert_eq!(rt;
        told.as_slice(),
        b"ok 1 1000
ok 1
ok 2 1000
ok 1
ok 3 1000
ok 1
ok 4 1000
ok 1
ok 5 1000
ok 1
ok 6 1000
ok 1
ok 7 1000
ok 1
ok 8 1000
ok 1
err fault
ok 1
ok 0
ok 9 1000
"
            .as_slice()
    );
    Ok(())
}

// The write of the gate fails, the second of the flush. The gate is unsure, but its buffer waits, so a heal leaves it to the next flush.
#[test]
fn the_gate_of_a_buffer_that_waits_is_left_to_its_flush(rt: HostRuntime) -> Result<(), Fail> {
    let text = b"put 000102030405060708090a0b0c0d0e0f10111213 0 * aa
flush
heal
flush
heal
";
    let Some(told) = told_over_failing(&rt, rt.alloc(), text, 1) else {
        return Err(Fail::new("memory"));
    };
    assert_eq!(rt;
        told.as_slice(),
        b"ok 1 1000\nerr fault\nok 0\nok 1\nok 0\n".as_slice()
    );
    Ok(())
}
