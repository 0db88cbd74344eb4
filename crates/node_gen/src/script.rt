// The script as a source.
ghost use Rattle.std.specs.Prelude.{◌≡◌, ◌<◌, [], length, Some, None, IsOk};
ghost use Rattle.io_traits.specs.Source.{ReadGives};
ghost use Rattle.node_gen.specs.Script.{script_text};

use crate::cursor::Cursor;
use crate::line::Line;
use crate::step::Step;
use io_traits::{Ends, Source, SourceFault};
use std::marker::Model;

/// The text of the script of a number of records. One line of it is in memory at a time.
#[derive(Drop)]
pub struct Script {
    cursor: Cursor,
}

impl Model for Script {
    ghost use Rattle.node_gen.specs.Script.{ScriptState};

    ghost Value = { ScriptState };

    ghost use Rattle.node_gen.specs.Places.{taken_of, left_of, IsPlace};

    ghost view = { λ s. record { taken = taken_of s.cursor; left = left_of s.cursor } };

    ghost invariant = { λ s. IsPlace s.cursor };
}

impl Script {
    /// The script of so many records, of which nothing was taken.
    pub fn new(count: u32) -> Self
        ensures { result ≡ record { taken = []; left = script_text count } }
    {
        Script {
            cursor: Cursor {
                count,
                step: Step::Put,
                next: 0,
                line: Line::new(),
                at: 0,
            },
        }
    }
}

impl Ends for Script {
    ghost left = { λ s. Some s.left };

    ghost taken = { λ s. s.taken };

    ghost source_faults = { λ _. 0 };

    ghost written = { λ _. None };

    ghost handed = { λ _. None };

    ghost sink_faults = { λ _. 0 };
}

impl Source for Script {
    fn read_some(&mut self, out: &mut [u8]) -> Result<usize, SourceFault>
        requires { 0 < length out.old }

        // It never fails, and gives at most the rest of one line.
        ensures fine { IsOk result }
        ensures bytes { ReadGives self.old.taken self.new.taken (Some self.old.left) (Some self.new.left) out.new result }
    {
        self.cursor.open_line();
        let rest = &self.cursor.line.as_str().as_bytes()[self.cursor.at..];
        let count = rest.len().min(out.len());
        out[..count].copy_from_slice(&rest[..count]);
        self.cursor.at += count;
        Ok(count)
    }
}
