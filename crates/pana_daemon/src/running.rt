//! Whether threads can be made.

use std::marker::Sync;
use std::sync::Wait;
use std::sync::atomic::{AtomicU64, Ordering};
use std::thread;
use std::thread::Threads;

/// Waits until the word isn't 0.
fn await_word<T: Wait>(threads: &T, word: &AtomicU64) {
    for _ in threads.forever() {
        if word.load(Ordering::SeqCst) != 0 {
            return;
        }
        word.park(threads, 0);
    }
}

/// Whether so many threads can run at a time: they are made, and end at once. Where one can't, none is made after it.
pub fn can_run<T: Threads + Wait + Sync>(threads: &T, count: u32) -> bool {
    let word = AtomicU64::new(0);
    let shared = &word;
    thread::scope(thread::scope_env(), threads, |scope| {
        let mut can = true;
        for _ in 0..count {
            can = can && scope.spawn(move || await_word(threads, shared)).is_ok();
        }
        shared.store(1, Ordering::SeqCst);
        shared.wake_all();
        can
    })
}
