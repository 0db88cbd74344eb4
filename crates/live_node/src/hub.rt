// The hub of a device: its shelf, with the three counts of its entries.
ghost use Rattle.std.specs.Prelude.{◌≡◌, List, IfOk, IfErr};
ghost use Rattle.model_device.specs.Events.{Event};
ghost use Rattle.shard_core.specs.Numbers.{AreFew, counts_of};
ghost use Rattle.live_node.specs.Opening.{Opening, IsOpening, state_at};
ghost use Rattle.live_node.specs.Fits.{HubFits};
ghost use Rattle.live_node.specs.Turns.{can_vacate};

use arena_sprig::Tally;
use block_shelf::Shelf;
use disk_model::Disk;
use rec_format::Counts;
use std::alloc::{AllocFailed, Global};

/// The shelf of a device, and how many records, tombstones and covered records there are. Both lie in boxes, so a hub is moved by two words, and the
/// largest that lies in a slot of the table is a sprig.
#[derive(Drop)]
pub struct Hub<D: Disk> {
    pub(crate) shelf: Box<Shelf<D>>,
    pub(crate) tally: Box<Tally>,
}

impl<D: Disk> Hub<D> {
    /// The hub of a shelf and of its counts. Where there is no memory the shelf comes back.
    pub(crate) fn new(alloc: Global, shelf: Shelf<D>, tally: Tally) -> Result<Hub<D>, Shelf<D>>
        ensures ok { IfOk result (λ hub. (hub.shelf.value ≡ shelf) × (hub.tally.value ≡ tally)) }
        ensures err { IfErr result (λ back. back ≡ shelf) }
    {
        let Ok(tally) = Box::new(alloc, tally) else {
            return Err(shelf);
        };
        match Box::new(alloc, shelf) {
            Ok(shelf) => Ok(Hub { shelf, tally }),
            Err(AllocFailed { value }) => Err(value),
        }
    }

    // The numbers of the device.
    pub(crate) fn counts(&self) -> Counts
        ensures numbers { (o : Opening D) (events : List Event) → HubFits D.view o events self.now.shelf.value self.now.tally.value → IsOpening o → result ≡ counts_of (state_at o events) }
        ensures few { (o : Opening D) (events : List Event) → HubFits D.view o events self.now.shelf.value self.now.tally.value → IsOpening o → AreFew result }
    {
        let shelf = &*self.shelf;
        let tally = &*self.tally;
        let _shape = shelf.geometry();
        Counts {
            records: tally.records,
            tombstones: tally.tombstones,
            covered: tally.covered,
            ..shelf.counts()
        }
    }

    // Whether a block is queued, and to vacate it gains room.
    pub(crate) fn can_vacate(&self) -> bool
        ensures { (o : Opening D) (events : List Event) → HubFits D.view o events self.now.shelf.value self.now.tally.value → result ≡ can_vacate (state_at o events) }
    {
        let shelf = &*self.shelf;
        if shelf.counts().queued == 0 {
            return false;
        }
        shelf.can_gain()
    }
}
