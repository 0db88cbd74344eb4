/// Why a door gives no further link.
#[derive(Clone, Copy, Debug, PartialEq, Eq)]
pub enum Closed {
    /// It gave none.
    Ended,
    /// It failed.
    Failed,
}
