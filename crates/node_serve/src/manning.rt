// How duties get their posts, and leave them.
ghost use Rattle.std.specs.Prelude.{◌≡◌, ◌+◌, ◌≤◌, ◌++◌, [], map, sum_by, vec_len, vec_capacity};
ghost use Rattle.node_serve.specs.Manning.{duty_of, links_of, ends_of};

use crate::duty::Duty;
use crate::post::{Manned, Post};
use crate::take::take_first;
use std::sync::ledger::{Ledger, Share};

/// Gives each duty a post, in order.
pub fn man_all<S, K, C, E: Ledger, M: Ledger>(
    duties: &mut Vec<Duty<S, K, C>>,
    manned: &mut Vec<Manned<S, K, C, E, M>>,
    links: &mut Share<E>,
    ends: &mut Share<M>,
)
    requires none { manned.old.items ≡ [] }
    requires room { vec_len duties.old ≤ vec_capacity manned.old }
    requires parts { (links.old.parts ≡ vec_len duties.old) × (ends.old.parts ≡ vec_len duties.old) }
    requires idle { (links.old.amount ≡ 0) × (ends.old.amount ≡ 0) }
    ensures manned { map duty_of manned.new.items ≡ duties.old.items }
    ensures left { (duties.new.items ≡ []) × (vec_capacity duties.new ≡ vec_capacity duties.old) }
    ensures parts { (links.new.parts ≡ 0) × (ends.new.parts ≡ 0) }
    ensures idle { (links.new.amount ≡ 0) × (ends.new.amount ≡ 0) × (sum_by links_of manned.new.items ≡ 0) }
{
    while let Some(duty) = take_first(duties) {
        let post = Post {
            links: links.split_off(1, 0),
            ends: ends.split_off(1, 0),
        };
        manned.push_reserved(Manned { duty, post });
    }
}

/// Takes the posts back from all duties, which stand behind the others then, in order.
pub fn relieve_all<S, K, C, E: Ledger, M: Ledger>(
    manned: Vec<Manned<S, K, C, E, M>>,
    duties: &mut Vec<Duty<S, K, C>>,
    links: &mut Share<E>,
    ends: &mut Share<M>,
)
    requires room { vec_len duties.old + vec_len manned ≤ vec_capacity duties.old }
    ensures duties { duties.new.items ≡ duties.old.items ++ map duty_of manned.items }
    ensures parts { (links.new.parts ≡ links.old.parts + vec_len manned) × (ends.new.parts ≡ ends.old.parts + vec_len manned) }
    ensures links { links.new.amount ≡ links.old.amount + sum_by links_of manned.items }
    ensures ends { ends.new.amount ≡ ends.old.amount + sum_by ends_of manned.items }
{
    let mut manned = manned;
    while let Some(done) = take_first(&mut manned) {
        let Manned { duty, post } = done;
        let Post {
            links: taken,
            ends: told,
        } = post;
        links.merge(taken);
        ends.merge(told);
        duties.push_reserved(duty);
    }
    manned.destroy_empty();
}
