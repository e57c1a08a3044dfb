//! Why nothing more is said.

use pana_calls::NoAnswer;
use std::alloc::AllocError;

/// Why nothing more is said.
#[derive(Clone, Copy)]
pub enum WatchFault {
    /// A question has no answer, or one that is none to it.
    NoAnswer,
    /// An allocation failed.
    OutOfMemory,
}

impl From<NoAnswer> for WatchFault {
    ghost use Rattle.std.specs.Prelude.{◌≡◌};
    ghost use Rattle.pana_watch.specs.declared.watch_fault.WatchFault.TheVariants as faults;

    ghost from_gives = { λ error fault. fault ≡ faults.NoAnswer };

    fn from(_: NoAnswer) -> WatchFault {
        WatchFault::NoAnswer
    }
}

impl From<AllocError> for WatchFault {
    ghost use Rattle.std.specs.Prelude.{◌≡◌};
    ghost use Rattle.pana_watch.specs.declared.watch_fault.WatchFault.TheVariants as faults;

    ghost from_gives = { λ error fault. fault ≡ faults.OutOfMemory };

    fn from(_: AllocError) -> WatchFault {
        WatchFault::OutOfMemory
    }
}
