use pana_ignore::PatternsFault;
use pana_scan::{DiskFault, ScanFault};
use std::alloc::AllocError;
use std::error::Error;
use std::fmt;

/// Why a root that is to be tracked can't be read.
#[derive(Clone, Copy, Debug, PartialEq, Eq)]
pub enum ReadFault {
    /// It can't be scanned.
    Scan(ScanFault),
    /// Its file of patterns can't be read, or has more than 1,048,576 bytes.
    IgnoreFile,
    /// The file has more than 10,000 newlines.
    TooManyLines,
    /// The line of the file with this number, from 1, has more than 4,096 bytes.
    LongLine(u64),
}

impl fmt::Display for ReadFault {
    ghost use Rattle.std.specs.Prelude.{Some};
    ghost use Rattle.pana_track.specs.Fault.{shown_read_fault};

    ghost output = { λ fault. Some (shown_read_fault fault) };

    fn fmt<W: fmt::Write>(&self, f: &mut fmt::Formatter<W>) -> fmt::Result {
        match self {
            ReadFault::Scan(fault) => write!(f, "{fault}"),
            ReadFault::IgnoreFile => f.write_str("cannot read .panadignore"),
            ReadFault::TooManyLines => f.write_str(".panadignore has more than 10,000 lines"),
            ReadFault::LongLine(line) => {
                write!(f, ".panadignore, line {line} is longer than 4,096 bytes")
            }
        }
    }
}

impl Error for ReadFault {}

impl From<AllocError> for ReadFault {
    ghost use Rattle.std.specs.Prelude.{◌≡◌};
    ghost use Rattle.pana_scan.specs.declared.scan_fault.ScanFault.TheVariants.{OutOfMemory};
    ghost use Rattle.pana_track.specs.declared.read_fault.ReadFault.TheVariants.{Scan};

    ghost from_gives = { λ error fault. fault ≡ Scan OutOfMemory };

    fn from(_: AllocError) -> ReadFault {
        ReadFault::Scan(ScanFault::OutOfMemory)
    }
}

impl From<ScanFault> for ReadFault {
    ghost use Rattle.std.specs.Prelude.{◌≡◌};
    ghost use Rattle.pana_track.specs.declared.read_fault.ReadFault.TheVariants.{Scan};

    ghost from_gives = { λ error fault. fault ≡ Scan error };

    fn from(fault: ScanFault) -> ReadFault {
        ReadFault::Scan(fault)
    }
}

impl From<DiskFault> for ReadFault {
    ghost use Rattle.std.specs.Prelude.{◌≡◌};
    ghost use Rattle.pana_scan.specs.Fault.{listing_fault};
    ghost use Rattle.pana_track.specs.declared.read_fault.ReadFault.TheVariants.{Scan};

    ghost from_gives = { λ error fault. fault ≡ Scan (listing_fault error) };

    fn from(fault: DiskFault) -> ReadFault {
        ReadFault::Scan(ScanFault::from(fault))
    }
}

impl From<PatternsFault> for ReadFault {
    ghost use Rattle.std.specs.Prelude.{◌≡◌};
    ghost use Rattle.pana_track.specs.Fault.{patterns_read_fault};

    ghost from_gives = { λ error fault. fault ≡ patterns_read_fault error };

    fn from(fault: PatternsFault) -> ReadFault {
        match fault {
            PatternsFault::TooManyLines => ReadFault::TooManyLines,
            PatternsFault::LongLine(line) => ReadFault::LongLine(line),
            PatternsFault::OutOfMemory => ReadFault::Scan(ScanFault::OutOfMemory),
        }
    }
}
