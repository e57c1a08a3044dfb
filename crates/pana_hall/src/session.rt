use crate::hall::Hall;
use pana_calls::{Answer, Call, NoAnswer, Session};
use pana_copies::DeviceName;

/// A hall by itself.
impl Session for Hall {
    ghost use Rattle.pana_hall.specs.Step.{Replies};

    ghost step = { Replies };

    ghost fails = { λ old calls new. ⊥ };

    /// Makes the call on the hall: it always has an answer.
    fn call(&mut self, by: &DeviceName, call: Call) -> Result<Answer, NoAnswer> {
        Ok(Answer::Given(self.apply(by, call)))
    }

    /// How many entries the journal has.
    fn entries(&self) -> u64 {
        self.length()
    }

    /// Does nothing.
    fn settle(&mut self) -> Result<(), NoAnswer> {
        Ok(())
    }
}
