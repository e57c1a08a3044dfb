use crate::call::Call;
use pana_copies::DeviceName;

/// A call, and the device that makes it.
#[derive(PartialEq, Eq, Drop)]
pub struct Message {
    pub by: DeviceName,
    pub call: Call,
}
