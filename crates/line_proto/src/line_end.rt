// A line as it is handed on.
use rec_format::Bytes;

/// A line without its LF, or only that one came that was too long.
#[derive(Drop)]
pub enum LineEnd {
    Whole(Bytes),
    TooLong,
}
