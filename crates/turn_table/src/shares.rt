//! How a pass is split in two, and how two are joined.
ghost use Rattle.std.specs.Prelude.{◌≡◌, ◌+◌, ◌<◌};
ghost use mathlib.Core.List.{IsPrefix};
ghost use Rattle.turn_table.specs.Passes.{view, seen, own_count, joined_count, HoldsNothing, IsPassOf};
ghost use Rattle.turn_table.specs.Plays.{first_share, last_share, joined_view, SeesMore};

use crate::machine::Machine;
use crate::plays::{Cut, Cutting, Glue, Look};
use crate::table::{Pass, PassOf, Table};
use std::marker::Brand;

impl<M: Machine> Table<M> {
    fn cut<C: Cutting>(&self, pass: &mut Pass<M>, share: u64) -> Pass<M>
        requires pass { IsPassOf self.now pass.old × HoldsNothing pass.old }
        requires share { (share ≡ C.share) × (0 < share) × (share < own_count pass.old) }
        ensures passes { IsPassOf self.now pass.new × IsPassOf self.now result }
        ensures numbers { (own_count pass.new + share ≡ own_count pass.old) × (joined_count pass.new ≡ joined_count pass.old) × (own_count result ≡ share) × (joined_count result ≡ 0) }
        ensures views { (view pass.new ≡ first_share share (view pass.old)) × (view result ≡ last_share share (view pass.old)) }
    {
        let seat = self.table.shared.split_seat::<Cut<C>>(&mut pass.seat);
        pass.own -= share;
        PassOf::seated(seat, share)
    }

    /// Gives the last `share` of a pass's numbers, some but not all of them, to a new pass. It has seen the same, has made
    /// no call, and nothing is joined into it. The pass that is split holds nothing.
    pub fn split(&self, pass: &mut Pass<M>, share: u64) -> Pass<M>
        requires pass { IsPassOf self.now pass.old × HoldsNothing pass.old }
        requires share { (0 < share) × (share < own_count pass.old) }
        ensures passes { IsPassOf self.now pass.new × IsPassOf self.now result }
        ensures numbers { (own_count pass.new + share ≡ own_count pass.old) × (joined_count pass.new ≡ joined_count pass.old) × (own_count result ≡ share) × (joined_count result ≡ 0) }
        ensures views { (view pass.new ≡ first_share share (view pass.old)) × (view result ≡ last_share share (view pass.old)) }
    {
        self.cut::<Brand>(pass, share)
    }

    /// Takes in another pass, which is then spent. `pass` has then seen the longer of both lists, of which the other is a
    /// beginning, and all numbers of the other are joined into it. Neither holds a slot.
    pub fn join(&self, pass: &mut Pass<M>, other: Pass<M>)
        requires pass { IsPassOf self.now pass.old × HoldsNothing pass.old }
        requires other { IsPassOf self.now other × HoldsNothing other }
        ensures pass { IsPassOf self.now pass.new × (view pass.new ≡ joined_view (view pass.old) (view other)) }
        ensures numbers { (own_count pass.new ≡ own_count pass.old) × (joined_count pass.new ≡ joined_count pass.old + own_count other + joined_count other) }
        ensures begins { IsPrefix (seen pass.old) (seen pass.new) × IsPrefix (seen other) (seen pass.new) }
        ensures seen { SeesMore M.may_follow (view pass.old) (view pass.new) }
    {
        let more = other.own + other.joined;
        self.table
            .shared
            .join_seat::<Glue>(&mut pass.seat, other.into_seat());
        pass.joined += more;
        self.table.shared.load::<Look<M>>(&mut pass.seat, 0);
    }
}
