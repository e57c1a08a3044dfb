//! The one text of each stamp, as `((1,0),(0,1,0))`: written, and read with its first fault reported.
#![tactic(auto)]

mod bytes;
mod event;
mod fault;
mod id;
pub mod laws;
mod reading;
mod writing;

pub use crate::fault::TextFault;
pub use crate::reading::read;
pub use crate::writing::write;
