ghost use Rattle.std.specs.Prelude.{◌≡◌, true, false, is_ok, if◌then◌else◌, IsTrue, length, IfOk, OnOk, OnErr};
ghost use Rattle.pana_log.specs.Device.{LeavesOnly, HasCause};
ghost use Rattle.pana_log.specs.Lines.{recovered, text_of, torn_length, kind_of};
ghost use Rattle.pana_log.specs.Log.{IsDurable, IsSettled};

use crate::device::Device;
use crate::device_fault::DeviceFault;
use crate::file_kind::FileKind;
use crate::lines::{kind_of, ungated_length, whole_length};
use crate::log::Log;
use crate::log_state::LogState;
use std::alloc::Global;

/// What a file stood for when it was opened.
#[derive(Drop)]
pub struct Recovery {
    /// Its lines, each with its newline.
    pub text: Vec<u8>,
    /// How many bytes stood behind them, a closed gate not counted: what a crash left of other lines.
    pub torn: usize,
    /// What the file is.
    pub kind: FileKind,
}

impl<D: Device> Log<D> {
    /// Reads the lines of a file that a crash may have left, and changes nothing. Repair it before its first new line,
    /// if it is a journal. Sync a file of the system before: what another process has written reads back, and a power
    /// cut may still lose it.
    pub fn read(&mut self, alloc: Global) -> Result<Recovery, DeviceFault>
        requires { IsTrue D.is_known → IsDurable D.seen D.may_leave D.is_usable self.old.device }

        ensures text { IfOk result (λ found. IsTrue D.is_known → found.text.items ≡ text_of (recovered (D.seen self.old.device))) }
        ensures torn { IfOk result (λ found. IsTrue D.is_known → found.torn ≡ torn_length (D.seen self.old.device)) }
        ensures kind { IfOk result (λ found. IsTrue D.is_known → found.kind ≡ kind_of (D.seen self.old.device)) }
        ensures state { self.new.state ≡ (if is_ok result then LogState.Read else LogState.Unread) }
        ensures end { IfOk result (λ found. self.new.end ≡ length found.text.items) }
        ensures same { IsTrue D.is_known → D.seen self.new.device ≡ D.seen self.old.device }
        ensures durable { IsTrue D.is_known → IsDurable D.seen D.may_leave D.is_usable self.new.device }
        ensures cause { IsTrue D.is_known → HasCause (D.has_failed self.new.device) result }
        ensures any_moment { IsTrue D.is_known → LeavesOnly D.moment D.left_since self.old.device self.new.device
            (λ c. recovered c ≡ recovered (D.seen self.old.device)) }
    {
        self.state = LogState::Unread;
        let mut text = self.device.read(alloc)?;
        let end = whole_length(&text);
        let torn = ungated_length(&text[end..]);
        let kind = kind_of(&text, end);
        text.truncate(end);
        self.end = end;
        self.state = LogState::Read;
        Ok(Recovery { text, torn, kind })
    }

    /// Cuts off what stands behind the lines that were read, and closes the gate.
    pub fn repair(&mut self) -> Result<(), DeviceFault>
        requires read { self.old.state ≡ LogState.Read }
        requires durable { IsTrue D.is_known → IsDurable D.seen D.may_leave D.is_usable self.old.device }
        requires end { IsTrue D.is_known → self.old.end ≡ length (text_of (recovered (D.seen self.old.device))) }

        ensures state { self.new.state ≡ (if is_ok result then LogState.Open else LogState.Broken) }
        ensures settled { OnOk result (IsTrue D.is_known → IsSettled D.seen D.may_leave D.is_usable self.new) }
        ensures same { OnOk result (IsTrue D.is_known → recovered (D.seen self.new.device) ≡ recovered (D.seen self.old.device)) }
        ensures cause { OnErr result (IsTrue D.is_known → IsTrue (D.has_failed self.new.device)) }
        ensures any_moment { IsTrue D.is_known → LeavesOnly D.moment D.left_since self.old.device self.new.device
            (λ c. recovered c ≡ recovered (D.seen self.old.device)) }
    {
        self.state = LogState::Broken;
        self.cut()?;
        self.close()?;
        self.state = LogState::Open;
        Ok(())
    }

    /// Cuts the file to its lines, and syncs.
    fn cut(&mut self) -> Result<(), DeviceFault>
        requires durable { IsTrue D.is_known → IsDurable D.seen D.may_leave D.is_usable self.old.device }
        requires end { IsTrue D.is_known → self.old.end ≡ length (text_of (recovered (D.seen self.old.device))) }
        ensures durable { OnOk result (IsTrue D.is_known → IsDurable D.seen D.may_leave D.is_usable self.new.device) }
        ensures cut { OnOk result (IsTrue D.is_known → D.seen self.new.device ≡ text_of (recovered (D.seen self.old.device))) }
        ensures end { self.new.end ≡ self.old.end }
        ensures state { self.new.state ≡ self.old.state }
        ensures cause { OnErr result (IsTrue D.is_known → IsTrue (D.has_failed self.new.device)) }
        ensures any_moment { IsTrue D.is_known → LeavesOnly D.moment D.left_since self.old.device self.new.device
            (λ c. recovered c ≡ recovered (D.seen self.old.device)) }
    {
        self.device.cut(self.end)?;
        self.device.sync()?; // before the gate: behind one that is torn open, what was there would count
        Ok(())
    }

    /// Writes a closed gate behind the lines, with nothing there, and syncs.
    fn close(&mut self) -> Result<(), DeviceFault>
        requires durable { IsTrue D.is_known → IsDurable D.seen D.may_leave D.is_usable self.old.device }
        requires bare { IsTrue D.is_known → D.seen self.old.device ≡ text_of (recovered (D.seen self.old.device)) }
        requires end { IsTrue D.is_known → self.old.end ≡ length (D.seen self.old.device) }
        ensures state { self.new.state ≡ self.old.state }
        ensures settled { OnOk result (IsTrue D.is_known → IsSettled D.seen D.may_leave D.is_usable self.new) }
        ensures same { OnOk result (IsTrue D.is_known → recovered (D.seen self.new.device) ≡ recovered (D.seen self.old.device)) }
        ensures cause { OnErr result (IsTrue D.is_known → IsTrue (D.has_failed self.new.device)) }
        ensures any_moment { IsTrue D.is_known → LeavesOnly D.moment D.left_since self.old.device self.new.device
            (λ c. recovered c ≡ recovered (D.seen self.old.device)) }
    {
        self.device.write_at(self.end, &[0])?;
        self.device.sync()?;
        Ok(())
    }
}
