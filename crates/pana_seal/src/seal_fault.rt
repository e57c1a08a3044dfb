use std::alloc::AllocError;
use std::error::Error;
use std::fmt;

/// Why the seals of a file's lines aren't read.
#[derive(Clone, Copy, Debug)]
pub enum SealFault {
    /// This line, from 1, isn't as it was sealed, or something before it isn't.
    Damaged { line: u64 },
    /// An allocation failed.
    OutOfMemory,
}

impl From<AllocError> for SealFault {
    ghost use Rattle.std.specs.Prelude.{◌≡◌};
    ghost use Rattle.pana_seal.specs.declared.seal_fault.SealFault.TheVariants.{OutOfMemory};

    ghost from_gives = { λ _ fault. fault ≡ OutOfMemory };

    fn from(_: AllocError) -> SealFault {
        SealFault::OutOfMemory
    }
}

impl fmt::Display for SealFault {
    ghost use Rattle.std.specs.Prelude.{Some};
    ghost use Rattle.pana_seal.specs.Shown.{shown_seal_fault};

    ghost output = { λ fault. Some (shown_seal_fault fault) };

    fn fmt<W: fmt::Write>(&self, f: &mut fmt::Formatter<W>) -> fmt::Result {
        match self {
            SealFault::Damaged { line } => write!(f, "line {line}: Damaged"),
            SealFault::OutOfMemory => f.write_str("out of memory"),
        }
    }
}

impl Error for SealFault {}
