//! How a table is made, and how it ends.
ghost use Rattle.std.specs.Prelude.{◌≡◌, ◌+◌, ◌<◌, ◌^◌, ℕ, [], Some, IfOk, IfErr, vec_len, slice_get};
ghost use Rattle.turn_table.specs.Legal.{IsLegal};
ghost use Rattle.turn_table.specs.Rule.{all_numbers, events, newcomer};
ghost use Rattle.turn_table.specs.Passes.{view, seen, own_count, joined_count, HoldsNothing, opening_of, part_count, IsPassOf};

use crate::machine::Machine;
use crate::noted::Noted;
use crate::row::{lay, take_out, unlay};
use crate::table::{NewRefusal, NotClosed, NotMade, Pass, PassOf, Slotted, StillOut, Table};
use crate::waiters::Waiters;
use atomic_table::Refused;
use std::alloc::Global;

// How many pass numbers there are.
const ALL: u64 = 1 << 62;

impl<M: Machine> Table<M> {
    /// A table of this hub and these parts, at least one and fewer than 2^32 - 1, with its first pass.
    ///
    /// The caller names an opening, which they fit with no event since. The pass has this opening and all 2^62
    /// pass numbers, has seen nothing and made no call.
    ///
    /// # Errors
    ///
    /// There is no memory.
    pub fn new(
        alloc: Global,
        hub: M::Hub,
        parts: Vec<M::Part>,
    ) -> Result<(Table<M>, Pass<M>), NewRefusal<M>>
        ghost opening: { M.Opening }
        requires count { (0 < vec_len parts) × (vec_len parts + 1 < 2 ^ 32) }
        requires hub { M.hub_fits opening [] hub }
        requires parts { (k : ℕ) (p : M.Part) → slice_get parts.items k ≡ Some p → M.part_fits opening [] k p }
        ensures table { IfOk result (λ r. (opening_of r.0 ≡ opening) × (part_count r.0 ≡ vec_len parts)) }
        ensures pass { IfOk result (λ r. IsPassOf r.0 r.1 × HoldsNothing r.1 × (view r.1 ≡ newcomer opening) × (own_count r.1 ≡ all_numbers) × (joined_count r.1 ≡ 0)) }
        ensures err { IfErr result (λ e. (e.hub ≡ hub) × (e.parts.items ≡ parts.items)) }
    {
        let count = parts.len();
        let Ok(words) = Vec::from_elem(alloc, 1u64, count + 1) else {
            return Err(NotMade { hub, parts });
        };
        let (places, spare) = match lay(alloc, hub, parts) {
            Ok(laid) => laid,
            Err((hub, parts)) => return Err(NotMade { hub, parts }),
        };
        let about = Noted::new();
        match atomic_table::Table::new(alloc, words.as_slice(), places, &about) {
            Ok((table, seat)) => {
                let pass = PassOf::seated(seat, ALL);
                let table = Slotted {
                    table,
                    parts: count,
                    spare,
                    part_waiters: Waiters::new(),
                    hub_waiters: Waiters::new(),
                };
                Ok((table, pass))
            }
            Err(Refused { slots }) => {
                let (hub, parts) = unlay(slots, spare);
                Err(NotMade { hub, parts })
            }
        }
    }

    /// Ends the table, and hands out the hub and the parts in their order. They fit all that the pass has seen.
    ///
    /// The pass holds nothing.
    ///
    /// # Errors
    ///
    /// Another pass is not joined into this one, directly or through a third. So it is exactly where the pass
    /// numbers that it has and those that were joined into it are fewer than 2^62.
    pub fn close(self, pass: Pass<M>) -> Result<(M::Hub, Vec<M::Part>), StillOut<M>>
        requires { IsPassOf self pass × HoldsNothing pass }
        ensures all { IfOk result (λ r. (own_count pass + joined_count pass ≡ all_numbers) × (vec_len r.1 ≡ part_count self)) }
        ensures legal { IfOk result (λ _. IsLegal M.may_follow (opening_of self) (events (seen pass))) }
        ensures hub { IfOk result (λ r. M.hub_fits (opening_of self) (events (seen pass)) r.0) }
        ensures parts { IfOk result (λ r. (k : ℕ) (p : M.Part) → slice_get r.1.items k ≡ Some p → M.part_fits (opening_of self) (events (seen pass)) k p) }
        ensures err { IfErr result (λ e. (e.table ≡ self) × (e.pass ≡ pass) × (0 < e.out) × (own_count pass + joined_count pass + e.out ≡ all_numbers)) }
    {
        let have = pass.own + pass.joined;
        if have < ALL {
            return Err(NotClosed {
                table: self,
                pass,
                out: ALL - have,
            });
        }
        let Slotted {
            table,
            parts,
            spare,
            part_waiters: _,
            hub_waiters: _,
        } = self;
        let closed = table.close_with(pass.into_seat());
        Ok(take_out(closed, parts, spare))
    }
}
