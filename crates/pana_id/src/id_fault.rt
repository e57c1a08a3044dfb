ghost use Rattle.std.specs.Prelude.{◌≡◌};
ghost use Rattle.pana_id.specs.declared.id_fault.IdFault.TheVariants.{OutOfMemory};

use std::alloc::AllocError;
use std::error::Error;
use std::fmt;

/// Why an id was not divided or joined.
#[derive(Clone, Copy, Debug, PartialEq, Eq)]
pub enum IdFault {
    /// A part would be deeper than 256.
    TooDeep,
    /// An allocation failed.
    OutOfMemory,
}

impl fmt::Display for IdFault {
    ghost use Rattle.std.specs.Prelude.{Some};
    ghost use Rattle.pana_id.specs.IdFault.{fault_text};

    ghost output = { λ fault. Some (fault_text fault) };

    fn fmt<W: fmt::Write>(&self, f: &mut fmt::Formatter<W>) -> fmt::Result {
        match self {
            IdFault::TooDeep => f.write_str("the id is too deep to be divided"),
            IdFault::OutOfMemory => f.write_str("out of memory"),
        }
    }
}

impl Error for IdFault {}

impl From<AllocError> for IdFault {
    ghost from_gives = { λ _ e. e ≡ OutOfMemory };

    fn from(_error: AllocError) -> IdFault {
        Self::OutOfMemory
    }
}
