use pana_hall::LoadFault;
use pana_log::DeviceFault;
use pana_seal::SealFault;
use pana_wire::WireFault;
use std::alloc::AllocError;
use std::error::Error;
use std::fmt;

/// Why a file isn't opened as a journal.
#[derive(Clone, Copy, Debug)]
pub enum OpenFault {
    /// It is none of a journal.
    NoJournal,
    /// Its last line begins as one of a journal does and has no newline.
    Unended,
    /// This line, from 1, isn't as it was written, or something before it isn't.
    Damaged { line: u64 },
    /// This line, from 1, isn't a line of entries.
    Line { line: u64, fault: WireFault },
    /// An entry isn't the next one of a journal.
    Entry(LoadFault),
    /// It could not be read or repaired.
    Device(DeviceFault),
    /// Memory ran out.
    OutOfMemory,
}

impl From<AllocError> for OpenFault {
    ghost use Rattle.std.specs.Prelude.{◌≡◌};
    ghost use Rattle.pana_store.specs.declared.open_fault.OpenFault.TheVariants.{OutOfMemory};

    ghost from_gives = { λ _ fault. fault ≡ OutOfMemory };

    fn from(_: AllocError) -> OpenFault {
        OpenFault::OutOfMemory
    }
}

impl From<DeviceFault> for OpenFault {
    ghost use Rattle.std.specs.Prelude.{◌≡◌};
    ghost use Rattle.pana_store.specs.declared.open_fault.OpenFault.TheVariants.{Device};

    ghost from_gives = { λ cause fault. fault ≡ Device cause };

    fn from(fault: DeviceFault) -> OpenFault {
        OpenFault::Device(fault)
    }
}

impl From<SealFault> for OpenFault {
    ghost use Rattle.std.specs.Prelude.{◌≡◌};
    ghost use Rattle.pana_store.specs.inner.{open_fault_of};

    ghost from_gives = { λ cause fault. fault ≡ open_fault_of cause };

    fn from(fault: SealFault) -> OpenFault {
        match fault {
            SealFault::Damaged { line } => OpenFault::Damaged { line },
            SealFault::OutOfMemory => OpenFault::OutOfMemory,
        }
    }
}

impl From<LoadFault> for OpenFault {
    ghost use Rattle.std.specs.Prelude.{◌≡◌};
    ghost use Rattle.pana_store.specs.declared.open_fault.OpenFault.TheVariants.{Entry};

    ghost from_gives = { λ cause fault. fault ≡ Entry cause };

    fn from(fault: LoadFault) -> OpenFault {
        OpenFault::Entry(fault)
    }
}

impl fmt::Display for OpenFault {
    fn fmt<W: fmt::Write>(&self, f: &mut fmt::Formatter<W>) -> fmt::Result {
        match self {
            OpenFault::NoJournal => f.write_str("not a journal"),
            OpenFault::Unended => f.write_str("the last line has no newline"),
            OpenFault::Damaged { line } => write!(f, "line {line}: Damaged"),
            OpenFault::Line { line, fault } => write!(f, "line {line}: {fault}"),
            OpenFault::Entry(fault) => write!(f, "{fault}"),
            OpenFault::Device(fault) => write!(f, "{fault}"),
            OpenFault::OutOfMemory => f.write_str("out of memory"),
        }
    }
}

impl Error for OpenFault {}
