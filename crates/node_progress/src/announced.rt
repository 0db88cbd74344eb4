// A door that tells when links are served.
ghost use Rattle.std.specs.Prelude.{◌≡◌, None, Some};

use crate::Progress;
use io_traits::{Door, DoorFault};
use std::io::IsTerminal;
use std::marker::Model;

/// A door that tells, as it is first asked, that its links are served, in words of its owner on a line of their own; or no door, which gives no
/// link and tells nothing. In clauses it is the door below, if there is one.
#[derive(Drop)]
pub struct Announced<'a, G: Door, E: Eprint + IsTerminal + Drop> {
    door: Option<G>,
    progress: &'a Progress<E>,
    // The words, until they are told.
    words: Option<String>,
}

impl<'a, G: Door, E: Eprint + IsTerminal + Drop> Model for Announced<'a, G, E> {
    ghost use Rattle.std.specs.Prelude.{Option};

    ghost Value = { Option G };

    ghost view = { λ a. a.door };
}

impl<'a, G: Door, E: Eprint + IsTerminal + Drop> Announced<'a, G, E> {
    /// The door, which tells these words as it is first asked.
    pub fn new(door: G, progress: &'a Progress<E>, words: String) -> Announced<'a, G, E>
        ensures { result ≡ Some door }
    {
        Announced {
            door: Some(door),
            progress,
            words: Some(words),
        }
    }

    /// No door.
    pub fn shut(progress: &'a Progress<E>) -> Announced<'a, G, E>
        ensures { result ≡ None }
    {
        Announced {
            door: None,
            progress,
            words: None,
        }
    }
}

impl<'a, G: Door, E: Eprint + IsTerminal + Drop> Door for Announced<'a, G, E> {
    ghost use Rattle.node_progress.specs.Doors.{MayGive, faults_of, given_by, has_ended};

    type Link = G::Link;

    ghost faults = { λ a. faults_of G.faults a };

    ghost ended = { λ a. has_ended G.ended a };

    ghost given = { λ a. given_by G.given a };

    ghost may_give = { λ a link. MayGive G.may_give a link };

    fn next_link(&mut self) -> Result<Option<G::Link>, DoorFault> {
        if let Some(words) = self.words.take() {
            self.progress.announce(words.as_str());
        }
        match &mut self.door {
            Some(door) => door.next_link(),
            None => Ok(None),
        }
    }
}
