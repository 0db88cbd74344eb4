/// What a write buffer takes: the puts and tombstones of clients, or the records that defragmentation moves.
#[derive(Clone, Copy, Debug, PartialEq, Eq)]
pub enum Stream {
    Client,
    Defrag,
}
