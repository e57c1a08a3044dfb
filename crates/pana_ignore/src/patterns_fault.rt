use std::alloc::AllocError;
use thiserror::Error;

/// Why patterns were not taken.
#[derive(Clone, Copy, Debug, PartialEq, Eq, Error)]
pub enum PatternsFault {
    /// More than 10,000 newlines.
    #[error("more than 10,000 lines")]
    TooManyLines,
    /// The line with this number, from 1, has more than 4,096 bytes.
    #[error("line {0}: longer than 4,096 bytes")]
    LongLine(u64),
    #[error("out of memory")]
    OutOfMemory,
}

impl From<AllocError> for PatternsFault {
    ghost use Rattle.std.specs.Prelude.{◌≡◌};
    ghost use Rattle.pana_ignore.specs.declared.patterns_fault.PatternsFault.TheVariants.{OutOfMemory};

    ghost from_gives = { λ _ fault. fault ≡ OutOfMemory };

    fn from(_: AllocError) -> PatternsFault {
        PatternsFault::OutOfMemory
    }
}
