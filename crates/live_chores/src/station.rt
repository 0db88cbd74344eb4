// What a chore works with.
ghost use Rattle.live_node.specs.Lives.{IsPassAt};

use disk_model::Disk;
use live_node::{Live, LivePass};

/// A device under its table, and a pass of it.
#[derive(Drop)]
pub(crate) struct Station<'a, R, D: Disk> {
    pub rt: &'a R,
    pub live: &'a Live<D>,
    pub pass: LivePass<D>,
    pub ghost at: { IsPassAt live.now pass },
}
