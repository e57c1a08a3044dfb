//! How the callers of a desk wait for each other.

ghost use Rattle.std.specs.Prelude.{◌≡◌};

use crate::machine::Machine;
use crate::queue::Queue;
use crate::turns::SharedTable;
use std::sync::Wait;
use std::sync::atomic::{AtomicU64, Ordering};
use std::thread;

/// How often a caller with a ticket yields before it sleeps, where calls may take long.
const YIELDS: u32 = 100;

/// Who waits at a desk. Where calls may take as long as a disk does callers sleep, and one such call at a time is on its
/// way to a turn, so that another has at most one of them before it in the order of the tickets.
#[derive(Drop)]
pub(crate) struct Waits {
    are_long: bool,
    /// How many callers sleep until a call is finished, or are about to.
    sleepers: AtomicU64,
    slow: Queue,
}

impl Waits {
    /// Nobody waits. Takes no memory.
    pub(crate) fn new(are_long: bool) -> Waits {
        Waits {
            are_long,
            sleepers: AtomicU64::new(0),
            slow: Queue::new(),
        }
    }

    /// Whether a call may take as long as a disk does.
    pub(crate) fn are_long(&self) -> bool {
        self.are_long
    }

    /// Sleeps until the number of finished calls isn't this one, or for no reason not at all.
    pub(crate) fn sleep<M: Machine, R: Wait>(&self, rt: &R, shared: &SharedTable<M>, finished: u64)
        requires { shared.now.table_id.words ≡ 2 }
    {
        self.sleepers.fetch_add(1, Ordering::SeqCst);
        shared.park(rt, 1, (finished % (1 << 32)) as u32);
        self.sleepers.fetch_sub(1, Ordering::SeqCst);
    }

    /// Wakes those who sleep, after a call is finished.
    pub(crate) fn wake<M: Machine>(&self, shared: &SharedTable<M>)
        requires { shared.now.table_id.words ≡ 2 }
    {
        if self.sleepers.load(Ordering::SeqCst) > 0 {
            shared.wake_all(1);
        }
    }

    /// Lets others run between two looks at the number of finished calls, which was this one; after many looks, where
    /// calls may take long, it sleeps. Returns how many looks there were, at most as many as count.
    pub(crate) fn pause<M: Machine, R: Wait>(
        &self,
        rt: &R,
        shared: &SharedTable<M>,
        finished: u64,
        looks: u32,
    ) -> u32
        requires { shared.now.table_id.words ≡ 2 }
    {
        if self.are_long && looks >= YIELDS {
            self.sleep(rt, shared, finished);
            return looks;
        }
        thread::yield_now();
        looks.saturating_add(1)
    }

    /// Waits behind the slow calls that have come before, where this is one, and says whether the caller has to leave the
    /// queue afterwards.
    pub(crate) fn enter<R: Wait>(&self, rt: &R, is_slow: bool) -> bool {
        let is_long = self.are_long && is_slow;
        if is_long {
            self.slow.enter(rt);
        }
        is_long
    }

    /// Leaves the queue, where the caller is in it.
    pub(crate) fn leave(&self, is_queued: bool) {
        if is_queued {
            self.slow.leave();
        }
    }
}
