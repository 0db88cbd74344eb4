//! The calls of the store. Each is one event, which has its answer.
ghost use Rattle.std.specs.Prelude.{◌≡◌, ℕ, ◌+◌, ◌<◌, ◌≤◌, List, [], ◌∷◌, ◌++◌, ◌^◌, length, IfOk, IfErr, OnOk, IfSome, IfNone, Some, slice_get, Vec, vec_len, vec_capacity};
ghost use Rattle.std.specs.Global.{Global};
ghost use Rattle.turn_table.specs.Rule.{events};
ghost use Rattle.turn_table.specs.Passes.{view, seen, mine, found_out, own_count, joined_count, HoldsNothing, IsPassOf, KeepsNumbers, opening_of, part_count};
ghost use Rattle.turn_table.specs.Plays.{SeesMore};
ghost use Rattle.test_table.specs.Piles.{Opening, Event, pushed, counted, state_at, pile_of, LogFits, PileFits, IsPush};
ghost use Rattle.test_table.specs.Notes.{values, NoteFollows, opened_with};

use crate::machine::{Happening, Log, Piles};
use std::alloc::{AllocError, Global};
use std::sync::Wait;
use turn_table::{NewRefusal, Noted, Notes, Pass, Table};

// The same as `Table::new`, at these types alone.
fn made(
    alloc: Global,
    log: Log,
    piles: Vec<Vec<u64>>,
) -> Result<(Table<Piles>, Pass<Piles>), NewRefusal<Piles>>
    ghost opening: { Opening }
    requires count { (0 < vec_len piles) × (vec_len piles + 1 < 2 ^ 32) }
    requires log { LogFits opening [] log.before log.values.items }
    requires piles { (k : ℕ) (p : Vec ℕ Global) → slice_get piles.items k ≡ Some p → PileFits opening [] k p.items }
    ensures table { IfOk result (λ r. (opening_of r.0 ≡ opening) × (part_count r.0 ≡ vec_len piles)) }
    ensures pass { IfOk result (λ r. IsPassOf r.0 r.1 × HoldsNothing r.1 × (seen r.1 ≡ []) × (mine r.1 ≡ [])) }
    ensures numbers { IfOk result (λ r. (own_count r.1 ≡ 2 ^ 62) × (joined_count r.1 ≡ 0)) }
{
    Table::<Piles>::new(alloc, log, piles)
}

/// A table of this log and these piles, at least one. It opens with what they are now.
pub fn open(
    alloc: Global,
    log: Log,
    piles: Vec<Vec<u64>>,
) -> Result<(Table<Piles>, Pass<Piles>), NewRefusal<Piles>>
    requires { (0 < vec_len piles) × (vec_len piles + 1 < 2 ^ 32) }
    ensures table { IfOk result (λ r. (opening_of r.0 ≡ opened_with log.before log.values.items piles.items) × (part_count r.0 ≡ vec_len piles)) }
    ensures pass { IfOk result (λ r. IsPassOf r.0 r.1 × HoldsNothing r.1 × (seen r.1 ≡ []) × (mine r.1 ≡ [])) }
    ensures numbers { IfOk result (λ r. (own_count r.1 ≡ 2 ^ 62) × (joined_count r.1 ≡ 0)) }
{
    made(alloc, log, piles)
}

// What was done in a push, with log and pile as they are after it.
#[derive(Drop)]
struct Pushed<'a> {
    pass: &'a Pass<Piles>,
    log: &'a Log,
    values: &'a Vec<u64>,
    pile: u32,
    value: u64,
    answer: u64,
}

// The event of a push may follow what the pass has seen, and log and pile fit with it.
struct PushNotes;

impl<'a> Notes<Pushed<'a>, Happening> for PushNotes {
    ghost use Rattle.std.specs.Prelude.{IsSomeAnd};
    ghost use Rattle.turn_table.specs.Rule.{events};
    ghost use Rattle.turn_table.specs.Passes.{view, seen};
    ghost use Rattle.test_table.specs.Piles.{IsPush};
    ghost use Rattle.test_table.specs.Notes.{values};

    ghost may_note = { λ a e. IsSomeAnd (view a.pass.now).opening (λ o. IsPush o (values (events (seen a.pass.now))) a.pile a.value a.answer a.log.now.before a.log.now.values.items a.values.now.items e) };
}

#[derive(Drop)]
struct Counted<'a> {
    pass: &'a Pass<Piles>,
    log: &'a Log,
    answer: u64,
}

struct CountNotes;

impl<'a> Notes<Counted<'a>, Happening> for CountNotes {
    ghost use Rattle.std.specs.Prelude.{IsSomeAnd};
    ghost use Rattle.turn_table.specs.Rule.{events};
    ghost use Rattle.turn_table.specs.Passes.{view, seen};
    ghost use Rattle.test_table.specs.Piles.{IsCount};
    ghost use Rattle.test_table.specs.Notes.{values};

    ghost may_note = { λ a e. IsSomeAnd (view a.pass.now).opening (λ o. IsCount o (values (events (seen a.pass.now))) a.answer a.log.now.before a.log.now.values.items e) };
}

// Room for one more value in both.
fn make_room(one: &mut Vec<u64>, two: &mut Vec<u64>) -> Result<(), AllocError>
    ensures items { (one.new.items ≡ one.old.items) × (two.new.items ≡ two.old.items) }
    ensures len { (vec_len one.new ≡ vec_len one.old) × (vec_len two.new ≡ vec_len two.old) }
    ensures room { OnOk result ((vec_len one.new + 1 ≤ vec_capacity one.new) × (vec_len two.new + 1 ≤ vec_capacity two.new)) }
{
    one.reserve(1)?;
    two.reserve(1)
}

// Pushes a value on the log and on a pile, which for any opening and events that they fit is an event. Where there is no memory both stay.
fn place(log: &mut Log, values: &mut Vec<u64>, pile: u32, value: u64) -> Result<u64, AllocError>
    ensures ok { IfOk result (λ answer. (o : Opening) (events : List Event) → LogFits o events log.old.before log.old.values.items → PileFits o events pile values.old.items → (e : Event) × IsPush o events pile value answer log.new.before log.new.values.items values.new.items e) }
    ensures err { IfErr result (λ _. (log.new.before ≡ log.old.before) × (log.new.values.items ≡ log.old.values.items) × (values.new.items ≡ values.old.items)) }
{
    make_room(values, &mut log.values)?;
    let answer = values.len() as u64;
    values.push_reserved(value);
    log.values.push_reserved(value);
    Ok(answer)
}

/// Pushes a value on a pile, and answers how many values the pile had. Where there is no memory nothing is pushed.
pub fn push<R: Wait>(
    rt: &R,
    table: &Table<Piles>,
    pass: &mut Pass<Piles>,
    pile: u32,
    value: u64,
) -> Result<u64, AllocError>
    requires pass { IsPassOf table.now pass.old × HoldsNothing pass.old }
    requires pile { pile < part_count table.now }
    ensures pass { IsPassOf table.now pass.new × HoldsNothing pass.new }
    ensures numbers { KeepsNumbers pass.old pass.new }
    ensures seen { SeesMore NoteFollows (view pass.old) (view pass.new) }
    ensures ok { IfOk result (λ answer. values (mine pass.new) ≡ values (mine pass.old) ++ pushed pile value answer ∷ []) }
    ensures err { IfErr result (λ _. mine pass.new ≡ mine pass.old) }
{
    let mut values = table.take_part(rt, pass, pile);
    let mut log = table.take_hub(rt, pass);
    match place(&mut log, &mut values, pile, value) {
        Ok(answer) => {
            let event = Noted::about::<Pushed, PushNotes>(&Pushed {
                pass: &*pass,
                log: &log,
                values: &values,
                pile,
                value,
                answer,
            });
            table.give_hub(pass, log, event);
            table.give_part(pass, values);
            Ok(answer)
        }
        Err(refused) => {
            table.give_hub_back(pass, log);
            table.give_part(pass, values);
            Err(refused)
        }
    }
}

/// How many values there are, those that were counted before the opening among them.
pub fn count<R: Wait>(rt: &R, table: &Table<Piles>, pass: &mut Pass<Piles>) -> u64
    requires pass { IsPassOf table.now pass.old × HoldsNothing pass.old }
    ensures pass { IsPassOf table.now pass.new × HoldsNothing pass.new }
    ensures numbers { KeepsNumbers pass.old pass.new }
    ensures seen { SeesMore NoteFollows (view pass.old) (view pass.new) }
    ensures mine { values (mine pass.new) ≡ values (mine pass.old) ++ counted result ∷ [] }
{
    let log = table.take_hub(rt, pass);
    let answer = u64::from(log.before) + log.values.len() as u64;
    let event = Noted::about::<Counted, CountNotes>(&Counted {
        pass: &*pass,
        log: &log,
        answer,
    });
    table.give_hub(pass, log, event);
    answer
}

/// How many values a pile has, where no other pass has taken it. This is no event: the answer is that of the list that
/// the pass has then seen. It is `None` exactly where this call found the pile out.
pub fn try_len(table: &Table<Piles>, pass: &mut Pass<Piles>, pile: u32) -> Option<u64>
    requires pass { IsPassOf table.now pass.old × HoldsNothing pass.old }
    requires pile { pile < part_count table.now }
    ensures pass { IsPassOf table.now pass.new × HoldsNothing pass.new }
    ensures numbers { KeepsNumbers pass.old pass.new }
    ensures seen { SeesMore NoteFollows (view pass.old) (view pass.new) × (mine pass.new ≡ mine pass.old) }
    ensures some { IfSome result (λ n. (n ≡ length (pile_of pile (state_at (opening_of table.now) (values (events (seen pass.new)))))) × (found_out pass.new ≡ found_out pass.old)) }
    ensures none { IfNone result (found_out pass.new ≡ found_out pass.old ++ pile ∷ []) }
{
    let values = table.try_part(pass, pile)?;
    let count = values.len() as u64;
    table.give_part(pass, values);
    Some(count)
}
