//! A journal that several stores append to: a log of entries that others keep, and that grows while one looks away.
#![tactic(auto)]

mod read_fault;
mod record;
mod shared_log;

pub use crate::read_fault::ReadFault;
pub use crate::record::Record;
pub use crate::shared_log::{Appended, SharedLog};
