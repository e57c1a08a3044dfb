//! Names of devices, paths of copies, and the places that the two make.
#![tactic(auto)]

mod copy_path;
mod copy_table;
mod device_counts;
mod device_name;
mod name_fault;
mod place;
mod sum;
mod sum_text;

pub use crate::copy_path::CopyPath;
pub use crate::copy_table::{CopyTable, KeptCopy};
pub use crate::device_name::DeviceName;
pub use crate::name_fault::NameFault;
pub use crate::place::Place;
pub use crate::sum::Sum;
pub use crate::sum_text::SumText;
