// A link in memory whose peer sends so many bytes at a time, and which may show its calls among what is written.
ghost use Rattle.std.specs.Prelude.{◌≡◌};

use io_traits::{Ends, Sink, SinkFault, Source, SourceFault, TextSink, TextSource};
use scenario_play::Around;
use scenario_text::Trouble;
use std::alloc::Global;

#[derive(Drop)]
pub struct Link {
    source: TextSource,
    sink: TextSink,
    piece: usize,
    // What was written, with a line for each call where these are shown. Where there is no memory for it, it stays behind.
    shown: Vec<u8>,
    shows_calls: bool,
}

impl Link {
    pub fn new(alloc: Global, around: &Around) -> Result<Link, Trouble> {
        Ok(Link {
            source: TextSource::new(
                around.input.to_vec(alloc)?,
                around.source_fails.to_vec(alloc)?,
            ),
            sink: TextSink::new(alloc, around.sink_fails.to_vec(alloc)?),
            piece: around.piece,
            shown: Vec::new(alloc),
            shows_calls: around.shows_link,
        })
    }

    // Shows a call.
    fn show(&mut self, call: &[u8])
        ensures { self.new ≡ record self.old { shown = self.new.shown } }
    {
        if self.shows_calls {
            let _ = self.shown.extend_from_slice(call);
        }
    }

    /// What was written.
    pub fn into_shown(self) -> Vec<u8> {
        let Link { shown, .. } = self;
        shown
    }
}

impl Ends for Link {
    ghost left = { λ l. ⟦<TextSource as Ends>⟧.left l.source };

    ghost taken = { λ l. ⟦<TextSource as Ends>⟧.taken l.source };

    ghost source_faults = { λ l. ⟦<TextSource as Ends>⟧.source_faults l.source };

    ghost written = { λ l. ⟦<TextSink as Ends>⟧.written l.sink };

    ghost handed = { λ l. ⟦<TextSink as Ends>⟧.handed l.sink };

    ghost sink_faults = { λ l. ⟦<TextSink as Ends>⟧.sink_faults l.sink };
}

impl Source for Link {
    fn read_some(&mut self, out: &mut [u8]) -> Result<usize, SourceFault> {
        self.show(b"~ read\n");
        let most = self.piece.clamp(1, out.len());
        self.source.read_some(&mut out[..most])
    }
}

impl Sink for Link {
    fn write_some(&mut self, bytes: &[u8]) -> Result<usize, SinkFault> {
        let answer = self.sink.write_some(bytes);
        if let Ok(count) = answer
            && count <= bytes.len()
        {
            let _ = self.shown.extend_from_slice(&bytes[..count]);
            self.show(b"~ written\n");
        }
        answer
    }

    fn flush(&mut self) -> Result<(), SinkFault> {
        self.show(b"~ flushed\n");
        self.sink.flush()
    }
}
