/// What became of the calls about a folder. Each count stays at the greatest `u64`.
use pana_calls::{Answer, Cause, Reply};

#[derive(Clone, Copy, PartialEq, Eq)]
pub struct TrackTally {
    /// How many of them something was done by.
    pub done: u64,
    /// How many were refused.
    pub refused: u64,
    /// Why the first of these was refused.
    pub cause: Option<Cause>,
}

impl TrackTally {
    ghost use Rattle.std.specs.Prelude.{◌≡◌};
    ghost use Rattle.pana_track.specs.Tally.{noted, nothing};

    /// No call yet. Takes no memory.
    pub fn new() -> TrackTally
        ensures { result ≡ nothing }
    {
        TrackTally {
            done: 0,
            refused: 0,
            cause: None,
        }
    }

    /// Counts one more call, by its answer. Takes no memory.
    pub fn note(&mut self, answer: &Answer)
        ensures { self.new ≡ noted self.old answer.now }
    {
        match answer {
            Answer::Given(Reply::Done { .. } | Reply::Did { .. }) => {
                self.done = self.done.saturating_add(1);
            }
            Answer::Given(Reply::Refused(cause)) => {
                self.refused = self.refused.saturating_add(1);
                if self.cause.is_none() {
                    self.cause = Some(*cause);
                }
            }
            _ => {}
        }
    }
}
