//! Which SHA-256 a file had when it was last read, by its size, times, inode and device.
#![tactic(auto)]

mod file_time;
mod reading;
mod signature;
mod sum_table;
mod writing;

pub use crate::file_time::FileTime;
pub use crate::signature::Signature;
pub use crate::sum_table::SumTable;
