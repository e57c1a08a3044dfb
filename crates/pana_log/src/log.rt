ghost use Rattle.std.specs.Prelude.{◌≡◌, ◌≤◌, ◌+◌, ◌⊎◌, ◌++◌, false, is_ok, if◌then◌else◌, List, ℕ, length, IsTrue, IfErr, OnOk, OnErr, IsErrOf};
ghost use Rattle.pana_log.specs.Device.{LeavesOnly};
ghost use Rattle.pana_log.specs.Lines.{recovered, IsWhole, IsBeforeOrAfter, HasRoom, HasRoomBehind};
ghost use Rattle.pana_log.specs.Log.{IsSettled, IsStaged, IsWritten};

use crate::device::Device;
use crate::device_fault::DeviceFault;
use crate::lines::LONGEST;
use crate::log_fault::LogFault;
use crate::log_state::LogState;

/// How long the lines of a file are at most, for more to come behind them.
const MOST_BYTES: usize = 1 << 60;

/// Lines of text in a file. Each begins with `{`, its gate: that byte is written last, once all behind it is on the
/// disk. Until then a NUL stands there, the closed gate, and what is behind it doesn't count.
#[derive(Drop)]
pub struct Log<D: Device> {
    pub device: D,
    /// How long the text of the lines is. The closed gate stands behind it.
    pub end: usize,
    pub state: LogState,
}

impl<D: Device> Log<D> {
    /// A log over a device. Read it, and repair it, before its first line.
    pub fn new(device: D) -> Log<D>
        ensures device { result.device ≡ device }
        ensures state { result.state ≡ LogState.Unread }
    {
        Log {
            device,
            end: 0,
            state: LogState::Unread,
        }
    }

    /// Writes lines behind the closed gate, and syncs. They don't count yet.
    pub fn stage(&mut self, text: &[u8]) -> Result<(), LogFault>
        requires whole { IsWhole text.now }
        requires open { self.old.state ≡ LogState.Open }
        requires settled { IsTrue D.is_known → IsSettled D.seen D.may_leave D.is_usable self.old }

        ensures staged { OnOk result (IsTrue D.is_known → IsStaged D.seen D.may_leave D.is_usable text.now self.new) }
        ensures open { OnOk result (self.new.state ≡ LogState.Open) }
        ensures room { OnOk result (HasRoom self.new.end text.now) }
        ensures same { IsTrue D.is_known → recovered (D.seen self.new.device) ≡ recovered (D.seen self.old.device) }
        ensures end { self.new.end ≡ self.old.end }

        // Refused, it takes other lines. It breaks only where a sync failed.
        ensures refused { IfErr result (λ fault. (fault ≡ LogFault.Broken) ⊎ ((self.new.state ≡ LogState.Open) × (IsTrue D.is_known → IsSettled D.seen D.may_leave D.is_usable self.new))) }
        ensures broken { IsErrOf result LogFault.Broken → (self.new.state ≡ LogState.Broken) × (IsTrue D.is_known → D.is_usable self.new.device ≡ false) }
        ensures cause { OnErr result (IsTrue D.is_known → HasRoom self.old.end text.now → IsTrue (D.has_failed self.new.device)) }
        ensures failed { IsErrOf result LogFault.Broken → IsTrue D.is_known → IsTrue (D.has_failed self.new.device) }

        // A crash at any moment of the call leaves the lines from before it.
        ensures any_moment { IsTrue D.is_known → LeavesOnly D.moment D.left_since self.old.device self.new.device
            (λ c. recovered c ≡ recovered (D.seen self.old.device)) }
    {
        if let Err(fault) = self.write(text) {
            return Err(LogFault::Refused(fault));
        }
        if self.device.sync().is_err() {
            self.state = LogState::Broken;
            return Err(LogFault::Broken);
        }
        Ok(())
    }

    /// Writes bytes this far behind the closed gate, so that there is room for lines. They don't count, and a crash may lose
    /// them. `stage` writes over them.
    pub fn reserve(&mut self, at: usize, bytes: &[u8]) -> Result<(), DeviceFault>
        requires open { self.old.state ≡ LogState.Open }
        requires settled { IsTrue D.is_known → IsSettled D.seen D.may_leave D.is_usable self.old }
        requires within { IsTrue D.is_known → self.old.end + 1 + at ≤ length (D.seen self.old.device) }

        ensures settled { IsTrue D.is_known → IsSettled D.seen D.may_leave D.is_usable self.new }
        ensures same { IsTrue D.is_known → recovered (D.seen self.new.device) ≡ recovered (D.seen self.old.device) }
        ensures end { self.new.end ≡ self.old.end }
        ensures state { self.new.state ≡ self.old.state }
        ensures room { OnOk result (HasRoomBehind self.old.end (at + length bytes.now)) }
        ensures behind { OnOk result (IsTrue D.is_known → self.old.end + 1 + at + length bytes.now ≤ length (D.seen self.new.device)) }
        ensures no_shorter { IsTrue D.is_known → length (D.seen self.old.device) ≤ length (D.seen self.new.device) }
        ensures cause { OnErr result (IsTrue D.is_known → HasRoomBehind self.old.end (at + length bytes.now) → IsTrue (D.has_failed self.new.device)) }

        // A crash at any moment of the call leaves the lines from before it.
        ensures any_moment { IsTrue D.is_known → LeavesOnly D.moment D.left_since self.old.device self.new.device
            (λ c. recovered c ≡ recovered (D.seen self.old.device)) }
    {
        if bytes.len() > LONGEST || at > LONGEST - bytes.len() || self.end > MOST_BYTES {
            return Err(DeviceFault::StorageFull);
        }
        self.device.write_at(self.end + 1 + at, bytes)
    }

    /// Writes lines behind the closed gate. They don't count yet, and a crash may lose them.
    fn write(&mut self, text: &[u8]) -> Result<(), DeviceFault>
        requires whole { IsWhole text.now }
        requires settled { IsTrue D.is_known → IsSettled D.seen D.may_leave D.is_usable self.old }
        ensures written { OnOk result (IsTrue D.is_known → IsWritten D.seen D.may_leave D.is_usable text.now self.new) }
        ensures room { OnOk result (HasRoom self.new.end text.now) }
        ensures same { IsTrue D.is_known → recovered (D.seen self.new.device) ≡ recovered (D.seen self.old.device) }
        ensures end { self.new.end ≡ self.old.end }
        ensures state { self.new.state ≡ self.old.state }
        ensures refused { OnErr result (IsTrue D.is_known → IsSettled D.seen D.may_leave D.is_usable self.new) }
        ensures cause { OnErr result (IsTrue D.is_known → HasRoom self.old.end text.now → IsTrue (D.has_failed self.new.device)) }
        ensures any_moment { IsTrue D.is_known → LeavesOnly D.moment D.left_since self.old.device self.new.device
            (λ c. recovered c ≡ recovered (D.seen self.old.device)) }
    {
        if text.len() > LONGEST || self.end > MOST_BYTES {
            return Err(DeviceFault::StorageFull);
        }
        self.device.write_at(self.end + 1, &text[1..])?;
        self.device.write_at(self.end + text.len(), &[0])?;
        Ok(())
    }

    /// Opens the gate of the lines that are staged, and syncs. At `Ok` they are acknowledged: from then on each crash
    /// leaves a file that has them. At `Err`, open the file again.
    pub fn commit(&mut self, text: &[u8]) -> Result<(), DeviceFault>
        requires whole { IsWhole text.now }
        requires open { self.old.state ≡ LogState.Open }
        requires staged { IsTrue D.is_known → IsStaged D.seen D.may_leave D.is_usable text.now self.old }
        requires room { HasRoom self.old.end text.now }

        ensures state { self.new.state ≡ (if is_ok result then LogState.Open else LogState.Broken) }
        ensures acknowledged { OnOk result (IsTrue D.is_known → IsSettled D.seen D.may_leave D.is_usable self.new) }
        ensures added { OnOk result (IsTrue D.is_known → recovered (D.seen self.new.device) ≡ recovered (D.seen self.old.device) ++ recovered text.now) }
        ensures cause { OnErr result (IsTrue D.is_known → IsTrue (D.has_failed self.new.device)) }

        // A crash at any moment of the call leaves the lines from before it, with all the new ones or with none.
        ensures any_moment { IsTrue D.is_known → LeavesOnly D.moment D.left_since self.old.device self.new.device
            (IsBeforeOrAfter (recovered (D.seen self.old.device)) (recovered text.now)) }
    {
        self.state = LogState::Broken;
        self.device.write_at(self.end, b"{")?;
        self.device.sync()?;
        self.end += text.len();
        self.state = LogState::Open;
        Ok(())
    }
}
