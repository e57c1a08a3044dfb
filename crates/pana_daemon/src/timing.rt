//! Waits for ticks that end after a time.

ghost use Rattle.std.specs.Prelude.{◌≡◌};
ghost use Rattle.pana_daemon.specs.inner.Folders.{HasNapped, IsTimed};

use crate::supervisor::Supervisor;
use pana_ticks::{Ticks, Watcher};
use std::sync::Wait;
use std::thread;
use std::time::{Clock, Duration};

/// What a nap has shown.
#[derive(Clone, Copy)]
pub(crate) enum Nap {
    /// There are more ticks.
    More,
    /// There are none, but more may come.
    Same,
    /// No more come.
    Over,
}

/// Waits for more ticks for a second at most.
fn take_nap<T: Wait>(threads: &T, ticks: &Ticks, watcher: &mut Watcher) -> Nap
    requires of { watcher.old.id ≡ ticks.now }
    ensures id { watcher.new.id ≡ watcher.old.id }
    ensures seen { HasNapped result watcher.old.count watcher.new.count }
{
    let before = watcher.seen();
    match ticks.wait_past_or(threads, watcher, Duration::from_secs(1)) {
        Some(now) if now > before => Nap::More,
        Some(_) => Nap::Same,
        None => Nap::Over,
    }
}

/// Waits until there are more ticks or so many seconds have passed, and returns true. Where no more come it waits on for the
/// time alone if it is to go on, and else returns false.
pub(crate) fn wait_for<T: Wait + Clock, G: Supervisor>(
    threads: &T,
    ticks: &Ticks,
    watcher: &mut Watcher,
    seconds: u32,
    goes_on: bool,
    supervisor: &G,
) -> bool
    requires of { watcher.old.id ≡ ticks.now }
    ensures id { watcher.new.id ≡ watcher.old.id }
    ensures seen { IsTimed result watcher.old.count watcher.new.count }
{
    for _ in 0..seconds.max(1) {
        match take_nap(threads, ticks, watcher) {
            Nap::More => return true,
            Nap::Same => {}
            Nap::Over => {
                if !goes_on || supervisor.is_closing() {
                    return false;
                }
                thread::sleep(threads, Duration::from_secs(1));
            }
        }
    }
    true
}
