use crate::disk_fault::DiskFault;
use std::alloc::{AllocError, AllocFailed};
use std::error::Error;
use std::fmt;

/// Why a folder can't be scanned.
#[derive(Clone, Copy, Debug, PartialEq, Eq)]
pub enum ScanFault {
    /// A folder couldn't be listed.
    Folder,
    /// More entries were met than may be: 100,000, where no other number was given.
    TooMany,
    /// A folder is more than 64 folders below the root.
    TooNested,
    /// An allocation failed.
    OutOfMemory,
}

impl fmt::Display for ScanFault {
    ghost use Rattle.std.specs.Prelude.{Some};
    ghost use Rattle.pana_scan.specs.Fault.{shown_scan_fault};

    ghost output = { λ fault. Some (shown_scan_fault fault) };

    fn fmt<W: fmt::Write>(&self, f: &mut fmt::Formatter<W>) -> fmt::Result {
        f.write_str(match self {
            ScanFault::Folder => "cannot list folder",
            ScanFault::TooMany => "too many entries",
            ScanFault::TooNested => "folders too deep",
            ScanFault::OutOfMemory => "out of memory",
        })
    }
}

impl Error for ScanFault {}

impl<T: Drop> From<AllocFailed<T>> for ScanFault {
    ghost use Rattle.std.specs.Prelude.{◌≡◌};
    ghost use Rattle.pana_scan.specs.declared.scan_fault.ScanFault.TheVariants.{OutOfMemory};

    ghost from_gives = { λ error fault. fault ≡ OutOfMemory };

    fn from(_: AllocFailed<T>) -> ScanFault {
        ScanFault::OutOfMemory
    }
}

impl From<AllocError> for ScanFault {
    ghost use Rattle.std.specs.Prelude.{◌≡◌};
    ghost use Rattle.pana_scan.specs.declared.scan_fault.ScanFault.TheVariants.{OutOfMemory};

    ghost from_gives = { λ error fault. fault ≡ OutOfMemory };

    fn from(_: AllocError) -> ScanFault {
        ScanFault::OutOfMemory
    }
}

impl From<DiskFault> for ScanFault {
    ghost use Rattle.std.specs.Prelude.{◌≡◌};
    ghost use Rattle.pana_scan.specs.Fault.{listing_fault};

    ghost from_gives = { λ error fault. fault ≡ listing_fault error };

    fn from(error: DiskFault) -> ScanFault {
        match error {
            DiskFault::Failed => ScanFault::Folder,
            DiskFault::OutOfMemory => ScanFault::OutOfMemory,
        }
    }
}
