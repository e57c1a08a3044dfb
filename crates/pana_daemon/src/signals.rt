//! What threads of the daemon wait for.

ghost use Rattle.std.specs.Prelude.{◌≡◌, IfOk};
ghost use Rattle.pana_ticks.specs.Hands.{none_yet};

use crate::start::Start;
use pana_ticks::{Counter, Ticks};
use std::alloc::{AllocError, Global};

/// The newlines of standard input, and the start of sessions, scanners and the count of newlines.
pub struct Signals {
    pub ticks: Ticks,
    pub start: Start,
    /// Whether folders that are looked at each so many seconds go on once no more newlines come.
    pub lasts: bool,
}

impl Drop for Signals {
    fn drop(self) {
        let Signals {
            ticks: _,
            start: _,
            lasts: _,
        } = self;
    }
}

impl Signals {
    /// No newline so far, with what counts them, and nothing that has begun: sessions, and with so many roots, where there
    /// is one, a scanner for each and the count of newlines. Fails only where memory runs out.
    pub fn new(alloc: Global, roots: usize, lasts: bool) -> Result<(Signals, Counter), AllocError>
        ensures { IfOk result (λ made. made.1 ≡ record { id = made.0.ticks; count = none_yet }) }
    {
        let wanted = match roots {
            0 => 1,
            _ => (roots as u64).saturating_add(2),
        };
        let (ticks, counter) = Ticks::new(alloc)?;
        let start = Start::new(wanted);
        Ok((
            Signals {
                ticks,
                start,
                lasts,
            },
            counter,
        ))
    }
}
