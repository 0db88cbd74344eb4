//! How a pass takes slots and gives them back. Each call is one step on the slot's word, which is 1 while the slot is at home.
ghost use Rattle.std.specs.Prelude.{◌≡◌, ℕ, ◌+◌, ◌<◌, [], ◌∷◌, ◌++◌, true, false, Some, None, Option, IfSome, IfNone, IsSomeAnd, MatchBool};
ghost use Rattle.atomic_table.specs.Table.{turned};
ghost use Rattle.turn_table.specs.Rule.{all_numbers, entry, events, IsQuietSince};
ghost use Rattle.turn_table.specs.Passes.{view, seen, mine, found_out, number, own_count, joined_count, KeepsNumbers, held_part, holds_hub, HoldsNothing, opening_of, part_count, IsPassOf};
ghost use Rattle.turn_table.specs.Plays.{with_part, with_hub, without_part, without_hub, with_event, with_found_out, having_found_out, HasWaited, SeesMore};

use crate::machine::Machine;
use crate::plays::{GiveBack, GivePart, GiveWith, TakeHub, TakePart};
use crate::rule::Place;
use crate::table::{Pass, Table};
use atomic_table::Seat;
use std::snapshot::Snapshot;
use std::sync::Wait;

// The slot of the part comes to the front, before that of the hub.
fn turn_to_part<S, V>(seat: &mut Seat<S, V>, behind: bool)
    ensures seat { (seat.new.table_id ≡ seat.old.table_id) × (seat.new.id ≡ seat.old.id) × (seat.new.me.0 ≡ seat.old.me.0) }
    ensures slots { MatchBool behind (seat.new.me.1 ≡ turned seat.old.me.1) (seat.new.me.1 ≡ seat.old.me.1) }
{
    if behind {
        seat.turn();
    }
}

impl<M: Machine> Table<M> {
    /// Takes the part, where it is at home. The pass holds nothing.
    ///
    /// It is `None` exactly where this call's own exchange found the slot out. The pass learns that alone, and some
    /// other pass is not joined into it.
    pub fn try_part(&self, pass: &mut Pass<M>, part: u32) -> Option<M::Part>
        requires pass { IsPassOf self.now pass.old × HoldsNothing pass.old }
        requires part { part < part_count self.now }
        ensures pass { IsPassOf self.now pass.new }
        ensures numbers { KeepsNumbers pass.old pass.new }
        ensures none { IfNone result ((view pass.new ≡ with_found_out part (view pass.old)) × (own_count pass.old + joined_count pass.old < all_numbers)) }
        ensures some { IfSome result (λ _. view pass.new ≡ with_part part (seen pass.new) (view pass.old)) }
        ensures seen { SeesMore M.may_follow (view pass.old) (view pass.new) }
        ensures fits { IfSome result (λ p. M.part_fits (opening_of self.now) (events (seen pass.new)) part p) }
    {
        let slots = &self.table.shared;
        if slots.swap::<TakePart<M>>(&mut pass.seat, part as usize, 0) != 1 {
            return None;
        }
        pass.part = Some(part);
        match slots.exchange(&mut pass.seat, part as usize, Place::Away) {
            Place::Part(value) => Some(value),
            _ => unreachable!(),
        }
    }

    /// Takes the part, and waits as long as it is out. The pass holds nothing. The part fits what the pass has then seen.
    pub fn take_part<R: Wait>(&self, rt: &R, pass: &mut Pass<M>, part: u32) -> M::Part
        requires pass { IsPassOf self.now pass.old × HoldsNothing pass.old }
        requires part { part < part_count self.now }
        ensures numbers { KeepsNumbers pass.old pass.new }
        ensures pass { IsPassOf self.now pass.new × (view pass.new ≡ with_part part (seen pass.new) (having_found_out (found_out pass.new) (view pass.old))) }
        ensures waited { HasWaited part (view pass.old) (view pass.new) }
        ensures seen { SeesMore M.may_follow (view pass.old) (view pass.new) }
        ensures fits { M.part_fits (opening_of self.now) (events (seen pass.new)) part result }
    {
        match self.try_part(pass, part) {
            Some(value) => value,
            None => self.wait_for_part(rt, pass, part),
        }
    }

    // Takes the part when it comes home. It stands apart, so that the code of a call that finds it at home stays short.
    #[cold]
    #[inline(never)]
    fn wait_for_part<R: Wait>(&self, rt: &R, pass: &mut Pass<M>, part: u32) -> M::Part
        requires pass { IsPassOf self.now pass.old × HoldsNothing pass.old }
        requires part { part < part_count self.now }
        ensures numbers { KeepsNumbers pass.old pass.new }
        ensures pass { IsPassOf self.now pass.new × (view pass.new ≡ with_part part (seen pass.new) (having_found_out (found_out pass.new) (view pass.old))) }
        ensures waited { HasWaited part (view pass.old) (view pass.new) }
        ensures seen { SeesMore M.may_follow (view pass.old) (view pass.new) }
        ensures fits { M.part_fits (opening_of self.now) (events (seen pass.new)) part result }
    {
        for _ in rt.forever() {
            if let Some(value) = self.try_part(pass, part) {
                return value;
            }
            self.part_waiters
                .park(rt, &self.table.shared, part as usize);
        }
        unreachable!()
    }

    /// Takes the hub, where it is at home. The pass may hold a part.
    ///
    /// It is `None` exactly where this call's own exchange found the slot out. The pass learns that alone, and some
    /// other pass is not joined into it. The hub's slot stands behind those of the parts.
    pub fn try_hub(&self, pass: &mut Pass<M>) -> Option<M::Hub>
        requires { IsPassOf self.now pass.old × (holds_hub pass.old ≡ false) }
        ensures pass { IsPassOf self.now pass.new }
        ensures numbers { KeepsNumbers pass.old pass.new }
        ensures none { IfNone result ((view pass.new ≡ with_found_out (part_count self.now) (view pass.old)) × (own_count pass.old + joined_count pass.old < all_numbers)) }
        ensures some { IfSome result (λ _. view pass.new ≡ with_hub (seen pass.new) (view pass.old)) }
        ensures seen { SeesMore M.may_follow (view pass.old) (view pass.new) }
        ensures fits { IfSome result (λ h. M.hub_fits (opening_of self.now) (events (seen pass.new)) h) }

        // No event that was not seen before names the part that the pass holds.
        ensures quiet { IfSome result (λ _. (k : ℕ) → held_part pass.old ≡ Some k → IsQuietSince M.part_named k (seen pass.old) (seen pass.new)) }

        // So what fitted as that part fits still.
        ensures still { IfSome result (λ _. (k : ℕ) (p : M.Part) → held_part pass.old ≡ Some k → M.part_fits (opening_of self.now) (events (seen pass.old)) k p → M.part_fits (opening_of self.now) (events (seen pass.new)) k p) }
    {
        let slots = &self.table.shared;
        if slots.swap::<TakeHub<M>>(&mut pass.seat, self.parts, 0) != 1 {
            return None;
        }
        pass.hub = true;
        match slots.exchange(&mut pass.seat, self.parts, Place::Away) {
            Place::Hub(value, _) => Some(value),
            _ => unreachable!(),
        }
    }

    /// Takes the hub, and waits as long as it is out. The pass may hold a part. The hub fits what the pass has then seen.
    pub fn take_hub<R: Wait>(&self, rt: &R, pass: &mut Pass<M>) -> M::Hub
        requires { IsPassOf self.now pass.old × (holds_hub pass.old ≡ false) }
        ensures numbers { KeepsNumbers pass.old pass.new }
        ensures pass { IsPassOf self.now pass.new × (view pass.new ≡ with_hub (seen pass.new) (having_found_out (found_out pass.new) (view pass.old))) }
        ensures waited { HasWaited (part_count self.now) (view pass.old) (view pass.new) }
        ensures seen { SeesMore M.may_follow (view pass.old) (view pass.new) }
        ensures fits { M.hub_fits (opening_of self.now) (events (seen pass.new)) result }

        // No event that was not seen before names the part that the pass holds.
        ensures quiet { (k : ℕ) → held_part pass.old ≡ Some k → IsQuietSince M.part_named k (seen pass.old) (seen pass.new) }

        // So what fitted as that part fits still.
        ensures still { (k : ℕ) (p : M.Part) → held_part pass.old ≡ Some k → M.part_fits (opening_of self.now) (events (seen pass.old)) k p → M.part_fits (opening_of self.now) (events (seen pass.new)) k p }
    {
        match self.try_hub(pass) {
            Some(value) => value,
            None => self.wait_for_hub(rt, pass),
        }
    }

    // Takes the hub when it comes home.
    #[cold]
    #[inline(never)]
    fn wait_for_hub<R: Wait>(&self, rt: &R, pass: &mut Pass<M>) -> M::Hub
        requires { IsPassOf self.now pass.old × (holds_hub pass.old ≡ false) }
        ensures numbers { KeepsNumbers pass.old pass.new }
        ensures pass { IsPassOf self.now pass.new × (view pass.new ≡ with_hub (seen pass.new) (having_found_out (found_out pass.new) (view pass.old))) }
        ensures waited { HasWaited (part_count self.now) (view pass.old) (view pass.new) }
        ensures seen { SeesMore M.may_follow (view pass.old) (view pass.new) }
        ensures fits { M.hub_fits (opening_of self.now) (events (seen pass.new)) result }

        // No event that was not seen before names the part that the pass holds.
        ensures quiet { (k : ℕ) → held_part pass.old ≡ Some k → IsQuietSince M.part_named k (seen pass.old) (seen pass.new) }

        // So what fitted as that part fits still.
        ensures still { (k : ℕ) (p : M.Part) → held_part pass.old ≡ Some k → M.part_fits (opening_of self.now) (events (seen pass.old)) k p → M.part_fits (opening_of self.now) (events (seen pass.new)) k p }
    {
        for _ in rt.forever() {
            if let Some(value) = self.try_hub(pass) {
                return value;
            }
            self.hub_waiters.park(rt, &self.table.shared, self.parts);
        }
        unreachable!()
    }

    /// Gives the hub back with an event, which is entered behind all that the pass has seen, under its own number.
    /// No other call makes the list longer. The event names the part that the pass holds, or none.
    pub fn give_hub(&self, pass: &mut Pass<M>, hub: M::Hub, event: M::Event)
        requires pass { IsPassOf self.now pass.old × (holds_hub pass.old ≡ true) }
        requires fits { M.hub_fits (opening_of self.now) (events (seen pass.old) ++ event ∷ []) hub }
        requires follows { M.may_follow (opening_of self.now) (events (seen pass.old)) event }
        requires names { (k : ℕ) → M.part_named event ≡ Some k → held_part pass.old ≡ Some k }
        ensures numbers { KeepsNumbers pass.old pass.new }
        ensures pass { IsPassOf self.now pass.new × (view pass.new ≡ with_event event (view pass.old)) }
        ensures seen { SeesMore M.may_follow (view pass.old) (view pass.new) }
    {
        let slots = &self.table.shared;
        let said = Some(event);
        let told = Snapshot::of(&said);
        match slots.exchange(&mut pass.seat, self.parts, Place::Hub(hub, told)) {
            Place::Away => {}
            _ => unreachable!(),
        }
        slots.store::<GiveWith<M>>(&mut pass.seat, self.parts, 1);
        pass.hub = false;
        self.hub_waiters.wake_one(slots, self.parts);
    }

    /// Gives the hub back with no event. The list stays.
    pub fn give_hub_back(&self, pass: &mut Pass<M>, hub: M::Hub)
        requires pass { IsPassOf self.now pass.old × (holds_hub pass.old ≡ true) }
        requires fits { M.hub_fits (opening_of self.now) (events (seen pass.old)) hub }
        ensures numbers { KeepsNumbers pass.old pass.new }
        ensures pass { IsPassOf self.now pass.new × (view pass.new ≡ without_hub (view pass.old)) }
        ensures seen { SeesMore M.may_follow (view pass.old) (view pass.new) }
    {
        let slots = &self.table.shared;
        let nothing: Option<M::Event> = None;
        let told = Snapshot::of(&nothing);
        match slots.exchange(&mut pass.seat, self.parts, Place::Hub(hub, told)) {
            Place::Away => {}
            _ => unreachable!(),
        }
        slots.store::<GiveBack<M>>(&mut pass.seat, self.parts, 1);
        pass.hub = false;
        self.hub_waiters.wake_one(slots, self.parts);
    }

    /// Gives the part back that the pass holds.
    pub fn give_part(&self, pass: &mut Pass<M>, part: M::Part)
        requires pass { IsPassOf self.now pass.old }
        requires fits { IsSomeAnd (held_part pass.old) (λ k. M.part_fits (opening_of self.now) (events (seen pass.old)) k part) }
        ensures numbers { KeepsNumbers pass.old pass.new }
        ensures pass { IsPassOf self.now pass.new × (view pass.new ≡ without_part (view pass.old)) }
        ensures seen { SeesMore M.may_follow (view pass.old) (view pass.new) }
    {
        let slots = &self.table.shared;
        let Some(number) = pass.part else {
            unreachable!()
        };
        let slot = number as usize;
        turn_to_part(&mut pass.seat, pass.hub);
        match slots.exchange(&mut pass.seat, slot, Place::Part(part)) {
            Place::Away => {}
            _ => unreachable!(),
        }
        slots.store::<GivePart<M>>(&mut pass.seat, slot, 1);
        pass.part = None;
        self.part_waiters.wake_one(slots, slot);
    }
}
