//! The numbers of entries.
ghost use Rattle.std.specs.Prelude.{◌≡◌, ◌+◌, ◌^◌, ◌<◌, length};
ghost use Rattle.pana_watch.specs.Watch.{are_numbered};

use pana_journal::Entry;

/// Whether the entries have this number, the next one, and so on.
pub(crate) fn are_numbered(number: u64, entries: &[Entry]) -> bool
    requires { number + length entries.now < 2 ^ 64 }
    ensures { result ≡ are_numbered number entries.now }
{
    let mut next = number;
    for entry in entries {
        if entry.number != next {
            return false;
        }
        next += 1;
    }
    true
}
