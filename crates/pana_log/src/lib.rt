//! A log: lines of text on a device, which a crash at any moment leaves whole.
#![tactic(auto)]

mod device;
mod device_fault;
mod file;
mod file_kind;
mod header;
mod lines;
mod log;
mod log_fault;
mod log_state;
mod memory;
mod operation;
mod recovery;

pub use crate::device::Device;
pub use crate::device_fault::DeviceFault;
pub use crate::file::FileDevice;
pub use crate::file_kind::FileKind;
pub use crate::header::{HEADER, is_header};
pub use crate::lines::{ends_journal, is_whole};
pub use crate::log::Log;
pub use crate::log_fault::LogFault;
pub use crate::log_state::LogState;
pub use crate::memory::{Crash, MemoryDevice};
pub use crate::recovery::Recovery;
