use std::alloc::AllocError;
use std::error::Error;
use std::fmt;

/// Why no more is reported of a folder.
#[derive(Clone, Copy, Debug, PartialEq, Eq)]
pub enum TrackFault {
    /// The folder has no file, and its device has copies.
    Empty,
    /// A report can't be kept.
    NotKept,
    /// Memory ran out.
    OutOfMemory,
}

impl fmt::Display for TrackFault {
    ghost use Rattle.std.specs.Prelude.{Some};
    ghost use Rattle.pana_track.specs.Fault.{shown_track_fault};

    ghost output = { λ fault. Some (shown_track_fault fault) };

    fn fmt<W: fmt::Write>(&self, f: &mut fmt::Formatter<W>) -> fmt::Result {
        f.write_str(match self {
            TrackFault::Empty => "folder is empty",
            TrackFault::NotKept => "report not kept",
            TrackFault::OutOfMemory => "out of memory",
        })
    }
}

impl Error for TrackFault {}

impl From<AllocError> for TrackFault {
    ghost use Rattle.std.specs.Prelude.{◌≡◌};
    ghost use Rattle.pana_track.specs.declared.fault.TrackFault.TheVariants.{OutOfMemory};

    ghost from_gives = { λ error fault. fault ≡ OutOfMemory };

    fn from(_: AllocError) -> TrackFault {
        TrackFault::OutOfMemory
    }
}
