ghost use Rattle.std.specs.Prelude.{◌≡◌};
ghost use Rattle.pana_family.specs.declared.fault.FamilyFault.TheVariants.{OutOfMemory};

use std::alloc::AllocError;
use std::error::Error;
use std::fmt;

/// Why a family did not record a report.
#[derive(Clone, Copy, Debug, PartialEq, Eq)]
pub enum FamilyFault {
    /// The two copies that are named are one.
    SameCopy,
    /// 256 copies live.
    FamilyFull,
    /// The source's id has one owned point, at depth 256, and can't be divided.
    TooDeep,
    /// An allocation failed.
    OutOfMemory,
}

impl fmt::Display for FamilyFault {
    ghost use Rattle.std.specs.Prelude.{Some};
    ghost use Rattle.pana_family.specs.Fault.{fault_text};

    ghost output = { λ fault. Some (fault_text fault) };

    fn fmt<W: fmt::Write>(&self, f: &mut fmt::Formatter<W>) -> fmt::Result {
        f.write_str(match self {
            FamilyFault::SameCopy => "the two copies are one",
            FamilyFault::FamilyFull => "the family has 256 copies",
            FamilyFault::TooDeep => "the source's id is too deep to be divided",
            FamilyFault::OutOfMemory => "out of memory",
        })
    }
}

impl Error for FamilyFault {}

impl From<AllocError> for FamilyFault {
    ghost from_gives = { λ _ e. e ≡ OutOfMemory };

    fn from(_error: AllocError) -> FamilyFault {
        Self::OutOfMemory
    }
}
