ghost use Rattle.pana_log.specs.declared.device_fault.DeviceFault.TheVariants.{OutOfMemory};
ghost use Rattle.std.specs.Prelude.{◌≡◌};

use std::alloc::{AllocError, AllocFailed};
use thiserror::Error;

/// Why a device did not do what it was asked.
#[derive(Clone, Copy, Debug, PartialEq, Eq, Error)]
pub enum DeviceFault {
    #[error("out of memory")]
    OutOfMemory,
    #[error("no space left on the device")]
    StorageFull,
    #[error("the device failed")]
    Failed,
}

impl From<AllocError> for DeviceFault {
    ghost from_gives = { λ _ fault. fault ≡ OutOfMemory };

    fn from(_: AllocError) -> Self {
        DeviceFault::OutOfMemory
    }
}

impl<T: Drop> From<AllocFailed<T>> for DeviceFault {
    ghost from_gives = { λ _ fault. fault ≡ OutOfMemory };

    fn from(_: AllocFailed<T>) -> Self {
        DeviceFault::OutOfMemory
    }
}
