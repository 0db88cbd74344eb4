ghost use Rattle.std.specs.Prelude.{◌≡◌, ◌+◌, ◌^◌, IfOk, vec_len};
ghost use Rattle.turn_table.specs.Passes.{HoldsNothing, IsPassOf, own_count, joined_count, part_count};

use std::alloc::Global;
use std::test::Fail;
use test_table::{Log, Piles, count, open, push, try_len};
use turn_table::{NotMade, Pass, Table};

// Ten values were counted before; the log and the first pile have a 7.
fn two_piles(alloc: Global) -> Result<(Table<Piles>, Pass<Piles>), Fail>
    ensures { IfOk result (λ r. IsPassOf r.0 r.1 × HoldsNothing r.1 × (part_count r.0 ≡ 2) × (own_count r.1 ≡ 2 ^ 62) × (joined_count r.1 ≡ 0)) }
{
    let log = Log {
        before: 10,
        values: vec![in alloc; 7]?,
    };
    let mut piles = Vec::new(alloc);
    piles.push(vec![in alloc; 7]?)?;
    piles.push(Vec::new(alloc))?;
    match open(alloc, log, piles) {
        Ok(made) => Ok(made),
        Err(NotMade { hub: _, parts: _ }) => Err("memory".into()),
    }
}

fn ended(table: Table<Piles>, pass: Pass<Piles>) -> (Log, Vec<Vec<u64>>)
    requires { IsPassOf table pass × HoldsNothing pass × (own_count pass + joined_count pass ≡ 2 ^ 62) }
    ensures { vec_len result.1 ≡ part_count table }
{
    match table.close(pass) {
        Ok(values) => values,
        Err(_) => unreachable!(),
    }
}

#[test]
fn each_call_answers_by_the_list_so_far(rt: HostRuntime) -> Result<(), Fail> {
    let (table, mut pass) = two_piles(rt.alloc())?;
    let first = push(&rt, &table, &mut pass, 1, 8);
    let second = push(&rt, &table, &mut pass, 0, 9);
    let total = count(&rt, &table, &mut pass);
    let mut other = table.split(&mut pass, 1);
    let held = table.try_part(&mut other, 1);
    let out = try_len(&table, &mut pass, 1);
    let home = try_len(&table, &mut pass, 0);
    if let Some(pile) = held {
        table.give_part(&mut other, pile);
    }
    table.join(&mut pass, other);
    let (log, piles) = ended(table, pass);
    assert_eq!(rt; first?, 0);
    assert_eq!(rt; second?, 1);
    assert_eq!(rt; total, 13);
    assert_eq!(rt; out, None);
    assert_eq!(rt; home, Some(2));
    assert_eq!(rt; log.values.as_slice(), [7, 8, 9].as_slice());
    assert_eq!(rt; piles[0].as_slice(), [7, 9].as_slice());
    assert_eq!(rt; piles[1].as_slice(), [8].as_slice());
    Ok(())
}
