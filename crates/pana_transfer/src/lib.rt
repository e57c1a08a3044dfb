//! Journals, made once more at a session that has none.
#![tactic(auto)]

mod fault;
mod transferring;

pub use crate::fault::TransferFault;
pub use crate::transferring::transfer;
