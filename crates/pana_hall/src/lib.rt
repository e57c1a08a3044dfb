//! The hall: every copy of every file, and the one call that reports a change to it or asks it a question.
#![tactic(auto)]

mod answering;
mod changing;
mod contents;
mod deciding;
mod decision;
mod families;
mod hall;
mod kept_family;
pub mod laws;
mod listed_family;
mod load_fault;
mod next;
mod planning;
mod prepared;
mod recording;
mod recording_two;
mod refusal;
mod relating;
mod saying;
mod session;
pub mod sighting_laws;
mod state;
mod status;
mod taking;
mod undo;

pub use crate::hall::Hall;
pub use crate::load_fault::{LoadCause, LoadFault};
pub use crate::prepared::{Prepared, Unprepared};
