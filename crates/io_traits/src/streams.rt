// Streams of bytes, as a source and a sink over them call them.
ghost use Rattle.std.specs.Prelude.{◌≡◌, ◌≤◌, ◌<◌, List, [], ◌∷◌, ◌++◌, length, IfOk};
ghost use Rattle.io_traits.specs.Streams.{Reading, Writing, reading_of, writing_of};

use std::io;

/// A stream that bytes are read from.
pub trait InputStream: Drop {
    /// The reads that were made, in order, with what came of each.
    ghost reads: { Self → List Reading };

    /// At `Ok` how many bytes one read gave into the front of `out`; it gives none at the end of the input.
    fn read_once(&mut self, out: &mut [u8]) -> io::Result<usize>
        requires { 0 < length out.old }
        ensures bound { IfOk result (λ n. n ≤ length out.old) }
        ensures reads { reads self.new ≡ reads self.old ++ reading_of (length out.old) result out.new ∷ [] };
}

/// A stream that bytes are written to.
pub trait OutputStream: Drop {
    /// The writes that were made, in order, with what came of each.
    ghost writes: { Self → List Writing };

    /// At `Ok` how many of the bytes one write took, from the front on.
    fn write_once(&mut self, bytes: &[u8]) -> io::Result<usize>
        ensures bound { IfOk result (λ n. n ≤ length bytes.now) }
        ensures writes { writes self.new ≡ writes self.old ++ writing_of bytes.now result ∷ [] };
}
