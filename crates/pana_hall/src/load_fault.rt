//! Why entries are not loaded as a journal.
use pana_calls::Cause;
use std::error::Error;
use std::fmt;

/// Why an entry was not taken.
#[derive(Clone, Copy, Debug, PartialEq, Eq)]
pub enum LoadCause {
    /// Its number isn't its position.
    OutOfOrder,
    /// Its report was refused.
    Refused(Cause),
}

/// Where loading stopped, and why: the position of the entry, from 1, or 0 where memory ran out for the new hall.
#[derive(Clone, Copy, Debug, PartialEq, Eq)]
pub struct LoadFault {
    pub at: u64,
    pub cause: LoadCause,
}

impl fmt::Display for LoadCause {
    ghost use Rattle.std.specs.Prelude.{Some};
    ghost use Rattle.pana_hall.specs.Load.{shown_load_cause};

    ghost output = { λ cause. Some (shown_load_cause cause) };

    fn fmt<W: fmt::Write>(&self, f: &mut fmt::Formatter<W>) -> fmt::Result {
        match self {
            LoadCause::OutOfOrder => f.write_str("OutOfOrder"),
            LoadCause::Refused(cause) => write!(f, "{cause}"),
        }
    }
}

impl fmt::Display for LoadFault {
    ghost use Rattle.std.specs.Prelude.{Some};
    ghost use Rattle.pana_hall.specs.Load.{shown_load_fault};

    ghost output = { λ fault. Some (shown_load_fault fault) };

    fn fmt<W: fmt::Write>(&self, f: &mut fmt::Formatter<W>) -> fmt::Result {
        let LoadFault { at, cause } = self;
        write!(f, "entry {at}: {cause}")
    }
}

impl Error for LoadFault {}
