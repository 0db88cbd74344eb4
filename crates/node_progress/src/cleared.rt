// A link beside which no progress stands.
ghost use Rattle.std.specs.Prelude.{◌≡◌};

use crate::Progress;
use io_traits::{Ends, Sink, SinkFault, Source, SourceFault};
use std::io::IsTerminal;
use std::marker::Model;

/// A link that clears the line of the progress before each read and each write, so that the line stands neither beside what is typed nor
/// beside the output; the first read tells that lines are served. In clauses it is the link below.
#[derive(Drop)]
pub struct Cleared<'a, L: Ends, E: Eprint + IsTerminal + Drop> {
    link: L,
    progress: &'a Progress<E>,
}

impl<'a, L: Ends, E: Eprint + IsTerminal + Drop> Model for Cleared<'a, L, E> {
    ghost Value = { L };

    ghost view = { λ c. c.link };
}

impl<'a, L: Ends, E: Eprint + IsTerminal + Drop> Cleared<'a, L, E> {
    /// The link over this one, which clears the progress's line before each read and each write.
    pub fn new(link: L, progress: &'a Progress<E>) -> Cleared<'a, L, E>
        ensures { result ≡ link }
    {
        Cleared { link, progress }
    }

    /// The link below.
    pub fn into_link(self) -> L
        ensures { result ≡ self.entry }
    {
        let Cleared { link, .. } = self;
        link
    }
}

impl<'a, L: Ends, E: Eprint + IsTerminal + Drop> Ends for Cleared<'a, L, E> {
    ghost left = { λ c. L.left c };

    ghost taken = { λ c. L.taken c };

    ghost source_faults = { λ c. L.source_faults c };

    ghost written = { λ c. L.written c };

    ghost handed = { λ c. L.handed c };

    ghost sink_faults = { λ c. L.sink_faults c };
}

impl<'a, L: Source, E: Eprint + IsTerminal + Drop> Source for Cleared<'a, L, E> {
    fn read_some(&mut self, out: &mut [u8]) -> Result<usize, SourceFault> {
        self.progress.end();
        self.progress.ready();
        self.link.read_some(out)
    }
}

impl<'a, L: Sink, E: Eprint + IsTerminal + Drop> Sink for Cleared<'a, L, E> {
    fn write_some(&mut self, bytes: &[u8]) -> Result<usize, SinkFault> {
        self.progress.end();
        self.link.write_some(bytes)
    }

    fn flush(&mut self) -> Result<(), SinkFault> {
        self.link.flush()
    }
}
