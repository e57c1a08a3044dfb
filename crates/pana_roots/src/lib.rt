//! Folders that are tracked, each by its device and path, and the disks that they are read from.
#![tactic(auto)]

mod disks;
mod root;

pub use crate::disks::Disks;
pub use crate::root::{Root, RootFault, roots_of};
