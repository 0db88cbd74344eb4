//! The machine of the store: its hub is the log, its parts are the piles, and its events carry their answers.
ghost use Rattle.std.specs.Prelude.{◌≡◌};

use std::marker::Model;
use turn_table::{Machine, Noted};

/// An event as contracts see it. No value of it is made, but a `Noted` of it is.
pub struct Happening;

impl Model for Happening {
    ghost use Rattle.test_table.specs.Piles.{Event, counted};

    ghost Value = { Event };

    ghost view = { λ _. counted 0 };
}

/// What a table opened with, as contracts see it. No value of it is made.
pub struct Origin;

impl Model for Origin {
    ghost use Rattle.test_table.specs.Piles.{Opening, empty};

    ghost Value = { Opening };

    ghost view = { λ _. empty };
}

/// All values that were pushed, behind those that were counted before.
#[derive(Drop)]
pub struct Log {
    pub before: u32,
    pub values: Vec<u64>,
}

/// A log, and piles that are numbered from 0.
pub struct Piles;

impl Machine for Piles {
    ghost use Rattle.std.specs.Prelude.{◌≡◌};
    ghost use Rattle.test_table.specs.Piles.{LogFits, PileFits, pile_named};
    ghost use Rattle.test_table.specs.Laws as laws;
    ghost use Rattle.test_table.specs.Notes.{values, NoteFollows};

    type Hub = Log;

    type Part = Vec<u64>;

    type Event = Noted<Happening>;

    type Opening = Origin;

    ghost hub_fits = { λ o notes h. LogFits o (values notes) h.before h.values.items };

    ghost part_fits = { λ o notes k p. PileFits o (values notes) k p.items };

    ghost may_follow = { NoteFollows };

    ghost part_named = { λ n. pile_named n.value };

    ghost fits_on = { λ o notes n k p legal fits may other. laws.fits_on o notes n k p.items fits other };
}
