//! The machine of a device: which hubs and parts fit its list of events, and which events may follow.
use crate::hub::Hub;
use arena_sprig::Sprig;
use block_shelf::Shelf;
use disk_model::Disk;
use shard_core::{Settings, Shard};
use std::marker::{Model, PhantomData};
use turn_table::{Machine, Noted, Notes, Pass};

/// An event of a device as contracts see it. No value of it is made, but a `Noted` of it is.
pub struct Happening;

impl Model for Happening {
    ghost use Rattle.live_node.specs.Fits.{PartEvent, no_event};

    ghost Value = { PartEvent };

    ghost view = { λ _. no_event };
}

/// A state of a device as contracts see it. No value of it is made, but a `Noted` of it is, by which a caller names one.
pub struct DeviceState;

impl Model for DeviceState {
    ghost use Rattle.model_device.specs.Device.{State};
    ghost use Rattle.live_node.specs.Opening.{no_state};

    ghost Value = { State };

    ghost view = { λ _. no_state };
}

/// The states for which a device stands may be noted about it.
pub struct Standing;

impl<D: Disk> Notes<Shard<D>, DeviceState> for Standing {
    ghost use Rattle.shard_core.specs.Stands.{Agrees};

    ghost may_note = { λ shard s. Agrees shard s };
}

/// What the table of a device opened with, as contracts see it. No value of it is made.
pub struct Origin<D: Disk> {
    shelf: Shelf<D>,
    set: Settings,
}

impl<D: Disk> Model for Origin<D> {
    ghost use Rattle.std.specs.Coded.{codes};
    ghost use Rattle.hold_book.specs.Holds.{hold_state_code};
    ghost use Rattle.live_node.specs.Opening.{Opening, no_state};

    ghost Value = { Opening D };

    ghost coded = { Prim.hlevel (codes, hold_state_code) };

    ghost view = { λ o. record { shelf = o.shelf; set = o.set; state = no_state } };
}

/// A device, whose hub is its shelf and whose parts are its sprigs.
pub struct Device<D: Disk> {
    disk: PhantomData<D>,
}

impl<D: Disk> Machine for Device<D> {
    ghost use Rattle.live_node.specs.Fits.{HubFits, PartFits};
    ghost use Rattle.live_node.specs.Notes.{events_in, NoteFollows};
    ghost use Rattle.live_node.specs.Laws as laws;

    type Hub = Hub<D>;

    type Part = Sprig;

    type Event = Noted<Happening>;

    type Opening = Origin<D>;

    ghost hub_fits = { λ o notes h. HubFits D.view o (events_in notes) h.shelf.value h.tally.value };

    ghost part_fits = { λ o notes k p. PartFits o (events_in notes) k p };

    ghost may_follow = { NoteFollows D.view };

    ghost part_named = { λ n. let e = n.value in e.part };

    ghost fits_on = { λ o notes n k p legal fits may other. laws.fits_on D.view o notes n k p fits may other };
}

/// A pass of the table of a device.
pub type LivePass<D> = Pass<Device<D>>;
