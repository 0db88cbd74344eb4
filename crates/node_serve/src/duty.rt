// What each thread of a server does.
/// What a thread of a server does. Its clock is its own.
#[derive(Drop)]
pub enum Duty<S, K, C> {
    /// A seat takes links from the door and serves their lines over a store.
    Seat { store: S, clock: C },
    /// The worker of this number takes turns of a chore.
    Worker { chore: K, clock: C, who: u8 },
}
