use std::alloc::AllocError;

/// Why a call of a disk fails.
#[derive(Clone, Copy, Debug, PartialEq, Eq, Drop)]
pub enum DiskFault {
    /// The disk couldn't do it.
    Failed,
    /// An allocation failed.
    OutOfMemory,
}

impl From<AllocError> for DiskFault {
    ghost use Rattle.std.specs.Prelude.{◌≡◌};
    ghost use Rattle.pana_scan.specs.declared.disk_fault.DiskFault.TheVariants.{OutOfMemory};

    ghost from_gives = { λ error fault. fault ≡ OutOfMemory };

    fn from(_: AllocError) -> DiskFault {
        DiskFault::OutOfMemory
    }
}
