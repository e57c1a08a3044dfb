//! The first line of a new journal.
ghost use Rattle.std.specs.Prelude.{◌≡◌, ◌⊎◌, ◌∷◌, [], is_ok, if◌then◌else◌, IsTrue, OnOk, OnErr, bytes_eq};
ghost use Rattle.pana_log.specs.Device.{LeavesOnly};
ghost use Rattle.pana_log.specs.Lines.{recovered, header, IsBeforeOrAfter};
ghost use Rattle.pana_log.specs.Log.{IsSettled};

use crate::device::Device;
use crate::device_fault::DeviceFault;
use crate::log::Log;
use crate::log_state::LogState;

/// The first line of a new journal's file, with its newline. It says no entry.
pub const HEADER: &[u8] = b"{\"entries\":[],\"journal\":1}\n";

/// The same without its newline.
const HEADER_LINE: &[u8] = b"{\"entries\":[],\"journal\":1}";

/// Whether a line is the first one of a new journal's file.
pub fn is_header(line: &[u8]) -> bool
    ensures { result ≡ bytes_eq line.now header }
{
    line == HEADER_LINE
}

impl<D: Device> Log<D> {
    /// Writes the first line of a new journal.
    pub fn begin(&mut self) -> Result<(), DeviceFault>
        requires open { self.old.state ≡ LogState.Open }
        requires settled { IsTrue D.is_known → IsSettled D.seen D.may_leave D.is_usable self.old }
        requires short { self.old.end ≡ 0 }

        ensures state { OnOk result (self.new.state ≡ LogState.Open) }
        ensures refused { OnErr result ((self.new.state ≡ LogState.Broken) ⊎ ((self.new.state ≡ LogState.Open) × (IsTrue D.is_known → IsSettled D.seen D.may_leave D.is_usable self.new))) }
        ensures settled { OnOk result (IsTrue D.is_known → IsSettled D.seen D.may_leave D.is_usable self.new) }
        ensures begun { OnOk result (IsTrue D.is_known → recovered (D.seen self.new.device) ≡ header ∷ []) }
        ensures cause { OnErr result (IsTrue D.is_known → IsTrue (D.has_failed self.new.device)) }
        ensures any_moment { IsTrue D.is_known → LeavesOnly D.moment D.left_since self.old.device self.new.device
            (IsBeforeOrAfter [] (header ∷ [])) }
    {
        self.stage(HEADER)?;
        self.commit(HEADER)
    }
}
