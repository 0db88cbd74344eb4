// How a pass is split in two, and how two are joined.
ghost use Rattle.std.specs.Prelude.{◌≡◌, ◌+◌, ◌<◌, []};
ghost use mathlib.Core.List.{IsPrefix};
ghost use Rattle.turn_table.specs.Passes.{view, seen, own_count, joined_count};
ghost use Rattle.turn_table.specs.Plays.{first_share, last_share, joined_view};
ghost use Rattle.live_node.specs.Calls.{IsRight};
ghost use Rattle.live_node.specs.Lives.{opening_at, IsPassAt};

use crate::live::Live;
use crate::machine::LivePass;
use disk_model::Disk;

impl<D: Disk> Live<D> {
    /// Gives the last `share` of a pass's numbers, some but not all of them, to a new pass, which has seen the same and has made no call.
    pub fn split(&self, pass: &mut LivePass<D>, share: u64) -> LivePass<D>
        requires pass { IsPassAt self.now pass.old }
        requires share { (0 < share) × (share < own_count pass.old) }
        ensures passes { IsPassAt self.now pass.new × IsPassAt self.now result }
        ensures numbers { (own_count pass.new + share ≡ own_count pass.old) × (joined_count pass.new ≡ joined_count pass.old) × (own_count result ≡ share) × (joined_count result ≡ 0) }
        ensures views { (view pass.new ≡ first_share share (view pass.old)) × (view result ≡ last_share share (view pass.old)) }
    {
        self.table.split(pass, share)
    }

    /// Takes in another pass, which is then spent. `pass` has then seen the longer of both lists, of which the other is a beginning, and all
    /// numbers of the other are joined into it.
    pub fn join(&self, pass: &mut LivePass<D>, other: LivePass<D>)
        requires pass { IsPassAt self.now pass.old }
        requires other { IsPassAt self.now other }
        ensures pass { IsPassAt self.now pass.new × (view pass.new ≡ joined_view (view pass.old) (view other)) }
        ensures numbers { (own_count pass.new ≡ own_count pass.old) × (joined_count pass.new ≡ joined_count pass.old + own_count other + joined_count other) }
        ensures begins { IsPrefix (seen pass.old) (seen pass.new) × IsPrefix (seen other) (seen pass.new) }
        ensures right { IsRight D.view (opening_at self.now) (view pass.old) (view pass.new) [] }
    {
        self.table.join(pass, other);
    }
}
