// Calls that wait for a slot of a table to come home.
ghost use Rattle.std.specs.Prelude.{◌<◌};

use atomic_table::{Shared, TableRule};
use std::sync::Wait;
use std::sync::atomic::AtomicU64;
use std::sync::atomic::Ordering::SeqCst;

/// How many calls are about to park, park, or were just woken. Who gives a slot back sets its word and then looks here, while who waits is
/// counted before the word is looked at, so one of the two sees the other: the system is asked to wake a thread only where one may park.
#[derive(Drop)]
pub(crate) struct Waiters {
    count: AtomicU64,
}

impl Waiters {
    pub(crate) fn new() -> Waiters {
        Waiters {
            count: AtomicU64::new(0),
        }
    }

    /// Parks on the word of the slot as long as that is 0. It may also return for no reason.
    pub(crate) fn park<R: Wait, S, V, K, P: TableRule<S, V, K>>(
        &self,
        rt: &R,
        slots: &Shared<S, V, K, P>,
        slot: usize,
    )
        requires { slot < slots.now.table_id.words }
    {
        self.count.fetch_add(1, SeqCst);
        slots.park(rt, slot, 0);
        self.count.fetch_sub(1, SeqCst);
    }

    /// Wakes a thread that parks on the word of the slot, if one does.
    pub(crate) fn wake_one<S, V, K, P: TableRule<S, V, K>>(
        &self,
        slots: &Shared<S, V, K, P>,
        slot: usize,
    )
        requires { slot < slots.now.table_id.words }
    {
        if self.count.load(SeqCst) != 0 {
            slots.wake_one(slot);
        }
    }
}
