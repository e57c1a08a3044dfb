//! Digests at the ends of a file's lines, each over all that stands before it.
#![tactic(auto)]

pub mod laws;
mod reading;
mod seal_fault;
mod sealer;

pub use crate::reading::{check_seals, read_seals};
pub use crate::seal_fault::SealFault;
pub use crate::sealer::Sealer;
