//! A hall whose journal is kept in a file: what has been answered is on the device.
#![tactic(auto)]

mod committing;
mod ending;
mod open_fault;
mod opening;
mod pending;
mod serving;
mod store;

pub use crate::ending::before_end;
pub use crate::open_fault::OpenFault;
pub use crate::opening::{Opened, open, read};
pub use crate::serving::serve_kept;
pub use crate::store::Store;
