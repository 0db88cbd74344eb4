// A terminal in memory, on which the progress of long work is told.
use scenario_text::Trouble;
use std::alloc::Global;
use std::cell::RefCell;
use std::fmt::Display;
use std::io;
use std::io::{ErrorKind, IsTerminal};

/// What was shown, one text a call.
#[derive(Drop)]
pub struct Screen {
    alloc: Global,
    shown: RefCell<Vec<String>>,
}

/// The stream that writes to it.
#[derive(Drop)]
pub struct ScreenStream<'s> {
    screen: &'s Screen,
}

impl Screen {
    pub fn new(alloc: Global) -> Screen {
        Screen {
            alloc,
            shown: RefCell::new(Vec::new(alloc)),
        }
    }

    pub fn stream(&self) -> ScreenStream<'_> {
        ScreenStream { screen: self }
    }

    /// Puts what was shown behind a text: a line for each call, without the return to the start of the line. A line that was cleared is told as
    /// `cleared`.
    pub fn tell(self, text: &mut Vec<u8>) -> Result<(), Trouble> {
        let Screen { shown, .. } = self;
        for call in shown.into_inner() {
            let told = call.as_str().trim_matches('\r').trim_end();
            text.extend_from_slice(b"~ ")?;
            if told.is_empty() {
                text.extend_from_slice(b"cleared")?;
            }
            text.extend_from_slice(told.as_bytes())?;
            text.push(b'\n')?;
        }
        Ok(())
    }
}

impl<'s> IsTerminal for ScreenStream<'s> {
    fn is_terminal(&self) -> bool {
        true
    }
}

impl<'s> Eprint for ScreenStream<'s> {
    fn eprint<D: Display + Drop>(&self, value: D) -> io::Result<()> {
        let Ok(text) = value.to_string(self.screen.alloc) else {
            return Err(ErrorKind::OutOfMemory.into());
        };
        let Ok(mut shown) = self.screen.shown.try_borrow_mut() else {
            return Err(ErrorKind::WouldBlock.into());
        };
        if shown.push(text).is_err() {
            return Err(ErrorKind::OutOfMemory.into());
        }
        Ok(())
    }

    fn eprintln<D: Display + Drop>(&self, value: D) -> io::Result<()> {
        self.eprint(value)
    }
}
