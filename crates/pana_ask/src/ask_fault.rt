use pana_calls::NoAnswer;
use pana_copies::Place;
use std::alloc::AllocError;

/// Why what is asked or reported of copies at places comes to nothing.
#[derive(Drop)]
pub enum AskFault {
    /// No copy is at this place.
    NoCopy(Place),
    /// A call has no answer.
    NoAnswer,
    /// An allocation failed, here or where a question was asked.
    OutOfMemory,
}

impl From<NoAnswer> for AskFault {
    ghost use Rattle.std.specs.Prelude.{◌≡◌};
    ghost use Rattle.pana_ask.specs.declared.ask_fault.AskFault.TheVariants as faults;

    ghost from_gives = { λ error fault. fault ≡ faults.NoAnswer };

    fn from(_: NoAnswer) -> AskFault {
        AskFault::NoAnswer
    }
}

impl From<AllocError> for AskFault {
    ghost use Rattle.std.specs.Prelude.{◌≡◌};
    ghost use Rattle.pana_ask.specs.declared.ask_fault.AskFault.TheVariants as faults;

    ghost from_gives = { λ error fault. fault ≡ faults.OutOfMemory };

    fn from(_: AllocError) -> AskFault {
        AskFault::OutOfMemory
    }
}
