ghost use Rattle.std.specs.Prelude.{◌≡◌};
ghost use Rattle.pana_text.specs.declared.fault.TextFault.TheVariants.{OutOfMemory};

use std::alloc::{AllocError, AllocFailed};
use std::error::Error;
use std::fmt;

/// Why a text was not read as a stamp.
#[derive(Clone, Copy, Debug, PartialEq, Eq)]
pub enum TextFault {
    /// The byte at this position, counted from 0, can't stand there, or the text ends there too early.
    Syntax(u64),
    /// A parenthesis opens a tree deeper than 256.
    TooDeep,
    /// The text is that of a tree which isn't in normal form.
    NotNormal,
    /// A level is above the greatest `u64`.
    TooLarge,
    /// An allocation failed.
    OutOfMemory,
}

impl fmt::Display for TextFault {
    ghost use Rattle.std.specs.Prelude.{Some};
    ghost use Rattle.pana_text.specs.Fault.{fault_text};

    ghost output = { λ fault. Some (fault_text fault) };

    fn fmt<W: fmt::Write>(&self, f: &mut fmt::Formatter<W>) -> fmt::Result {
        match self {
            TextFault::Syntax(position) => write!(f, "Syntax at {position}"),
            TextFault::TooDeep => f.write_str("TooDeep"),
            TextFault::NotNormal => f.write_str("NotNormal"),
            TextFault::TooLarge => f.write_str("TooLarge"),
            TextFault::OutOfMemory => f.write_str("OutOfMemory"),
        }
    }
}

impl Error for TextFault {}

impl From<AllocError> for TextFault {
    ghost from_gives = { λ _ e. e ≡ OutOfMemory };

    fn from(_error: AllocError) -> TextFault {
        Self::OutOfMemory
    }
}

impl<T: Drop> From<AllocFailed<T>> for TextFault {
    ghost from_gives = { λ _ e. e ≡ OutOfMemory };

    fn from(_error: AllocFailed<T>) -> TextFault {
        Self::OutOfMemory
    }
}
