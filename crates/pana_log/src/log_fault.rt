use crate::device_fault::DeviceFault;
use thiserror::Error;

/// Why a text was not kept.
#[derive(Clone, Copy, Debug, PartialEq, Eq, Error)]
pub enum LogFault {
    /// Nothing has changed, and later texts are taken.
    #[error("not kept: {0}")]
    Refused(DeviceFault),
    /// A sync failed, or the write of a gate. No later text is taken: open the file again.
    #[error("the log is broken")]
    Broken,
}

impl From<LogFault> for DeviceFault {
    ghost use Rattle.std.specs.Prelude.{◌≡◌, ◌⊎◌};
    ghost use Rattle.pana_log.specs.declared.device_fault.DeviceFault.TheVariants.{Failed};
    ghost use Rattle.pana_log.specs.declared.log_fault.LogFault.TheVariants.{Refused, Broken};

    ghost from_gives = { λ cause fault. (cause ≡ Refused fault) ⊎ ((cause ≡ Broken) × (fault ≡ Failed)) };

    fn from(fault: LogFault) -> DeviceFault {
        match fault {
            LogFault::Refused(fault) => fault,
            LogFault::Broken => DeviceFault::Failed,
        }
    }
}
