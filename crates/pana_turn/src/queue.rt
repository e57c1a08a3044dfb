//! Callers in a queue.

use std::sync::Wait;
use std::sync::atomic::{AtomicU64, Ordering};

/// Callers one behind the other, of which one is in front at a time. They come to the front in the order in which they
/// came, and sleep until then.
#[derive(Drop)]
pub(crate) struct Queue {
    came: AtomicU64,
    gone: AtomicU64,
}

impl Queue {
    /// Nobody.
    pub(crate) fn new() -> Queue {
        Queue {
            came: AtomicU64::new(0),
            gone: AtomicU64::new(0),
        }
    }

    /// Waits until the caller is in front.
    pub(crate) fn enter<R: Wait>(&self, rt: &R) {
        let number = self.came.fetch_add(1, Ordering::SeqCst);
        for _ in rt.forever() {
            let gone = self.gone.load(Ordering::SeqCst);
            if gone == number {
                return;
            }
            self.gone.park(rt, (gone % (1 << 32)) as u32);
        }
    }

    /// The caller in front goes.
    pub(crate) fn leave(&self) {
        self.gone.fetch_add(1, Ordering::SeqCst);
        self.gone.wake_all();
    }
}
