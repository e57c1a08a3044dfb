ghost use Rattle.std.specs.Prelude.{◌≡◌, ◌≤◌, List, ℕ, Bool, IsTrue, is_ok, length, take, IfOk, OnOk, OnErr};
ghost use Rattle.pana_log.specs.Device.{Only, Follows, Torn, IsCut, Holds, Elapses, HasCause};

use crate::device_fault::DeviceFault;
use std::alloc::Global;

/// A file as a log sees it: what a read returns, and what a crash may leave.
///
/// Each clause speaks of devices that are known. Of a file of the system nothing is known.
pub trait Device {
    ghost is_known: { Bool };

    /// The bytes that a read returns.
    ghost seen: { Self → List ℕ };

    /// What a crash at this moment may leave.
    ghost may_leave: { Self → List ℕ → Type 0 };

    /// The moment, as a number that doesn't fall.
    ghost moment: { Self → ℕ };

    /// What a crash at some moment from that one on might have left, during a call or between two.
    ghost left_since: { Self → ℕ → List ℕ → Type 0 };

    /// No sync has failed. After one has, nothing more may be asked.
    ghost is_usable: { Self → Bool };

    /// Some call has failed: a read with memory to spare, or any other.
    ghost has_failed: { Self → Bool };

    /// All the bytes, from the first.
    fn read(&mut self, alloc: Global) -> Result<Vec<u8>, DeviceFault>
        ensures bytes { IfOk result (λ bytes. IsTrue is_known → bytes.items ≡ seen self.old) }
        ensures seen { IsTrue is_known → seen self.new ≡ seen self.old }
        ensures crash { IsTrue is_known → (c : List ℕ) → may_leave self.new c → may_leave self.old c }
        ensures usable { IsTrue is_known → is_usable self.new ≡ is_usable self.old }
        ensures time { IsTrue is_known → Elapses (moment self.old) (moment self.new) (left_since self.old) (left_since self.new) (may_leave self.new) }
        ensures cause { IsTrue is_known → HasCause (has_failed self.new) result };

    /// Writes over what is there, and past the end. Until a sync, a crash may leave any bytes in the range. A write
    /// that fails may have changed its range.
    fn write_at(&mut self, at: usize, bytes: &[u8]) -> Result<(), DeviceFault>
        requires within { IsTrue is_known → at ≤ length (seen self.old) }
        requires usable { IsTrue is_known → IsTrue (is_usable self.old) }
        ensures written { OnOk result (IsTrue is_known → Holds (seen self.old) at bytes.now (seen self.new)) }
        ensures others { IsTrue is_known → Torn at (length bytes.now) (seen self.old) (seen self.new) }
        ensures crash { IsTrue is_known → Follows (Torn at (length bytes.now)) (may_leave self.old) (may_leave self.new) }
        ensures usable { IsTrue is_known → is_usable self.new ≡ is_usable self.old }
        ensures time { IsTrue is_known → Elapses (moment self.old) (moment self.new) (left_since self.old) (left_since self.new) (may_leave self.new) }
        ensures cause { OnErr result (IsTrue is_known → IsTrue (has_failed self.new)) };

    /// Cuts the file to a length.
    fn cut(&mut self, len: usize) -> Result<(), DeviceFault>
        requires within { IsTrue is_known → len ≤ length (seen self.old) }
        requires usable { IsTrue is_known → IsTrue (is_usable self.old) }
        ensures cut { OnOk result (IsTrue is_known → seen self.new ≡ take len (seen self.old)) }
        ensures crash { IsTrue is_known → Follows (IsCut len) (may_leave self.old) (may_leave self.new) }
        ensures usable { IsTrue is_known → is_usable self.new ≡ is_usable self.old }
        ensures time { IsTrue is_known → Elapses (moment self.old) (moment self.new) (left_since self.old) (left_since self.new) (may_leave self.new) }
        ensures cause { OnErr result (IsTrue is_known → IsTrue (has_failed self.new)) };

    /// After it, a crash leaves what a read returns.
    fn sync(&mut self) -> Result<(), DeviceFault>
        requires { IsTrue is_known → IsTrue (is_usable self.old) }
        ensures durable { OnOk result (IsTrue is_known → Only (seen self.old) (may_leave self.new)) }
        ensures seen { IsTrue is_known → seen self.new ≡ seen self.old }
        ensures crash { IsTrue is_known → (c : List ℕ) → may_leave self.new c → may_leave self.old c }
        ensures usable { IsTrue is_known → is_usable self.new ≡ is_ok result }
        ensures time { IsTrue is_known → Elapses (moment self.old) (moment self.new) (left_since self.old) (left_since self.new) (may_leave self.new) }
        ensures cause { OnErr result (IsTrue is_known → IsTrue (has_failed self.new)) };

    /// This moment is one of those since an earlier one.
    ghost counts_now: { (file : Self) (t : ℕ) (c : List ℕ) → t ≤ moment file → may_leave file c → left_since file t c };

    /// Since this moment there is no other.
    ghost only_now: { (file : Self) (c : List ℕ) → left_since file (moment file) c → may_leave file c };
}
