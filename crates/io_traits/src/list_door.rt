// A door of links in memory.
ghost use Rattle.std.specs.Prelude.{◌≡◌, ◌+◌, ◌↔◌, [], false, length, drop, Some, None, IfOk, OnOk, OnErr, IsErr, Contains, is_ok, slice_get, if◌then◌else◌};
ghost use Rattle.model_faults.specs.Counts.{one_more};
ghost use Rattle.io_traits.specs.Door.{gave_none, links_given};

use crate::{Door, DoorFault, Sink, Source};
use http_server::Log;
use std::marker::Model;

/// A door in memory: the links to be given, in order, and the numbers of the calls that are to fail, counted from 0 over all calls.
#[derive(Drop)]
pub struct ListDoor<L: Source + Sink + Send> {
    links: Vec<L>,
    given: Log<(), ()>,
    fails: Vec<u64>,
    calls: u64,
    faults: u64,
    ended: bool,
}

impl<L: Source + Sink + Send> Model for ListDoor<L> {
    ghost use Rattle.std.specs.Prelude.{length};
    ghost use Rattle.io_traits.specs.Memory.{DoorState};

    ghost Value = { DoorState L };

    ghost view = { λ d. record { links = d.links.items; given = length d.given.items; fails = d.fails.items; calls = d.calls; faults = d.faults; ended = d.ended } };
}

impl<L: Source + Sink + Send> ListDoor<L> {
    /// A door of these links, whose calls of these numbers are to fail.
    pub fn new(links: Vec<L>, fails: Vec<u64>) -> Self
        ensures { result ≡ record { links = links.items; given = 0; fails = fails.items; calls = 0; faults = 0; ended = false } }
    {
        ListDoor {
            links,
            given: Log::new(),
            fails,
            calls: 0,
            faults: 0,
            ended: false,
        }
    }
}

impl<L: Source + Sink + Send> Door for ListDoor<L> {
    type Link = L;

    ghost faults = { λ d. d.faults };

    ghost ended = { λ d. d.ended };

    ghost given = { λ d. d.given };

    ghost may_give = { λ d link. Contains d.links link };

    fn next_link(&mut self) -> Result<Option<L>, DoorFault>
        // It fails exactly where its list says so, and then each link stays.
        ensures fails { IsErr result ↔ Contains self.old.fails self.old.calls }
        ensures links { self.new.links ≡ (if is_ok result then drop 1 self.old.links else self.old.links) }

        // Else it gives the first link that is left: none exactly where none is left.
        ensures link { IfOk result (λ link. link ≡ slice_get self.old.links 0) }
        ensures given { self.new.given ≡ self.old.given + links_given result }
        ensures faults { self.new.faults ≡ (if is_ok result then self.old.faults else one_more self.old.faults) }
        ensures last { self.new.ended ≡ gave_none result }
        ensures calls { self.new.calls ≡ one_more self.old.calls }
        ensures list { self.new.fails ≡ self.old.fails }
    {
        let refused = self.fails.contains(&self.calls);
        self.calls = self.calls.saturating_add(1);
        if refused {
            self.faults = self.faults.saturating_add(1);
            self.ended = false;
            return Err(DoorFault);
        }
        self.ended = self.links.is_empty();
        if self.ended {
            return Ok(None);
        }
        self.given = self.given.and(&(), &());
        Ok(Some(self.links.remove(0)))
    }
}
