// A place in the script.
ghost use Rattle.std.specs.Prelude.{◌≤◌, length};
ghost use Rattle.node_gen.specs.Places.{OpensLine};

use crate::line::Line;
use crate::step::{Step, next_of};

/// The line in hand, with the bytes of it that are taken, and where the line after it is.
#[derive(Drop)]
pub struct Cursor {
    pub count: u32,
    pub step: Step,
    pub next: u32,
    pub line: Line,
    pub at: usize,
}

impl Cursor {
    /// The next line is in the hand then, where all of the last one was taken.
    pub fn open_line(&mut self)
        requires { self.old.at ≤ length self.old.line.bytes }
        ensures { OpensLine self.old self.new }
    {
        if self.at < self.line.len() {
            return;
        }
        let Some((step, number)) = next_of(self.step, self.next, self.count) else {
            return;
        };
        self.step = step;
        self.next = number + 1;
        self.line = step.line(number);
        self.at = 0;
    }
}
