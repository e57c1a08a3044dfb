ghost use Rattle.std.specs.Prelude.{◌≡◌, ◌≢◌};
ghost use Rattle.pana_wire.specs.Shown.{shown_stop};
ghost use Rattle.pana_streams.specs.Fault.{shown};

use pana_wire::ServeFault;
use std::alloc::AllocError;
use std::error::Error;
use std::fmt;

/// Why the program ends with status 1.
#[derive(Clone, Copy, Debug, PartialEq, Eq)]
pub enum ProgramFault {
    /// A read of standard input failed.
    Read,
    /// A write to standard output failed.
    Write,
    /// An allocation failed.
    OutOfMemory,
    /// Standard input didn't end within all the reads of a session.
    TooManyReads,
}

impl ProgramFault {
    /// The fault of serving, which on a hall of one's own is never spent. It is printed as the same text.
    pub fn of_serving(fault: ServeFault) -> ProgramFault
        requires { fault ≢ ServeFault.NoAnswer }
        ensures { shown result ≡ shown_stop fault }
    {
        match fault {
            ServeFault::Read => ProgramFault::Read,
            ServeFault::Write => ProgramFault::Write,
            ServeFault::OutOfMemory => ProgramFault::OutOfMemory,
            ServeFault::Turns => ProgramFault::TooManyReads,
            ServeFault::NoAnswer => unreachable!(),
        }
    }
}

impl From<AllocError> for ProgramFault {
    ghost use Rattle.pana_streams.specs.declared.fault.ProgramFault.TheVariants.{OutOfMemory};

    ghost from_gives = { λ _ fault. fault ≡ OutOfMemory };

    fn from(_error: AllocError) -> ProgramFault {
        ProgramFault::OutOfMemory
    }
}

impl fmt::Display for ProgramFault {
    ghost use Rattle.std.specs.Prelude.{Some};

    ghost output = { λ fault. Some (shown fault) };

    fn fmt<W: fmt::Write>(&self, f: &mut fmt::Formatter<W>) -> fmt::Result {
        f.write_str(match self {
            ProgramFault::Read => "read failed",
            ProgramFault::Write => "write failed",
            ProgramFault::OutOfMemory => "out of memory",
            ProgramFault::TooManyReads => "too many reads",
        })
    }
}

impl Error for ProgramFault {}
