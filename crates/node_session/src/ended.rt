/// How a session ended. The counts of lines include `quit` and a rest without LF; the count of bytes is of all taken.
#[derive(Clone, Copy, Debug, PartialEq, Eq)]
pub enum Ended {
    /// The input ended, and each line was answered.
    Finish { lines: u64 },
    /// `quit` was answered.
    Quit { lines: u64 },
    /// The source failed, and each whole line before was answered.
    SourceFault,
    /// The sink failed while replies were handed on, and no further line was served.
    SinkFault,
    /// There was no memory for a piece of the input, or to print a reply. The replies before were written.
    Memory,
    /// The store halted, and its last line got no reply. Those before did.
    Halted,
    /// As many bytes as the limit were taken, and each whole line among them was answered.
    Long { taken: u64 },
}
