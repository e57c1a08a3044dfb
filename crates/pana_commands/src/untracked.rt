use pana_calls::NoAnswer;
use std::alloc::AllocError;
use std::error::Error;
use std::fmt;

/// Why nothing is answered to folders that are tracked. What was reported before stays.
#[derive(Clone, Copy, Debug)]
pub enum Untracked {
    /// A call has no answer.
    NoAnswer,
    /// An allocation failed.
    OutOfMemory,
}

impl fmt::Display for Untracked {
    ghost use Rattle.std.specs.Prelude.{Some};
    ghost use Rattle.pana_commands.specs.Track.{shown_untracked};

    ghost output = { λ fault. Some (shown_untracked fault) };

    fn fmt<W: fmt::Write>(&self, f: &mut fmt::Formatter<W>) -> fmt::Result {
        f.write_str(match self {
            Untracked::NoAnswer => "journal failed",
            Untracked::OutOfMemory => "out of memory",
        })
    }
}

impl Error for Untracked {}

impl From<NoAnswer> for Untracked {
    ghost use Rattle.std.specs.Prelude.{◌≡◌};
    ghost use Rattle.pana_commands.specs.declared.untracked.Untracked.TheVariants as untracked;

    ghost from_gives = { λ error fault. fault ≡ untracked.NoAnswer };

    fn from(_: NoAnswer) -> Untracked {
        Untracked::NoAnswer
    }
}

impl From<AllocError> for Untracked {
    ghost use Rattle.std.specs.Prelude.{◌≡◌};
    ghost use Rattle.pana_commands.specs.declared.untracked.Untracked.TheVariants as untracked;

    ghost from_gives = { λ error fault. fault ≡ untracked.OutOfMemory };

    fn from(_: AllocError) -> Untracked {
        Untracked::OutOfMemory
    }
}
