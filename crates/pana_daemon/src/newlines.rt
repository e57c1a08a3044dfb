//! Newlines of an input, each of which is a tick.

ghost use Rattle.std.specs.Prelude.{◌≡◌, false};
ghost use Rattle.pana_ticks.specs.Hands.{none_yet};
ghost use Rattle.pana_wire.specs.Tap.{IsUnused};
ghost use Rattle.pana_daemon.specs.Newlines.{CountsNewlines, newlines_in};
ghost use Rattle.pana_daemon.specs.inner.Newlines.{CountsPiece};

use pana_ticks::{Counter, Ticks};
use pana_wire::Tap;
use std::io::Read;
use std::sync::Wait;

/// How many newlines are among these bytes.
fn newlines_in(bytes: &[u8]) -> usize
    ensures { result ≡ newlines_in bytes.now }
{
    bytes.iter().filter(|byte| **byte == b'\n').count()
}

/// Reads once, counts the newlines of what was read, and wakes who waits for them. Returns whether there may be more.
fn count_piece<R: Read>(input: &mut Tap<R>, ticks: &Ticks, counter: &mut Counter) -> bool
    requires of { counter.old.id ≡ ticks.now }
    requires going { counter.old.count.is_over ≡ false }
    ensures { CountsPiece R.remaining result input.old input.new counter.old counter.new }
{
    let mut piece = [0; 4096];
    match input.read(&mut piece) {
        Ok(0) => false,
        Ok(given) => {
            ticks.add(counter, newlines_in(&piece[..given]) as u64);
            true
        }
        Err(_) => false,
    }
}

/// Counts the newlines of an input until it ends or a read fails, and wakes who waits for them.
pub(crate) fn count_newlines<R: Read, T: Wait>(
    threads: &T,
    input: &mut Tap<R>,
    ticks: &Ticks,
    counter: &mut Counter,
)
    requires unused { IsUnused input.old }
    requires new { counter.old ≡ record { id = ticks.now; count = none_yet } }
    ensures id { counter.new.id ≡ ticks.now }
    ensures counts { CountsNewlines R.remaining input.old input.new counter.new.count }
{
    for _ in threads.forever() {
        if !count_piece(input, ticks, counter) {
            ticks.end(counter);
            return;
        }
    }
    unreachable!()
}
