//! The table of a board, and that of what is obsolete or in conflict, as text for people.
#![tactic(auto)]

mod cell;
mod fitting;
pub mod laws;
mod limits;
mod line;
mod place;
mod printing;
mod state;
mod status;
mod width;
mod widths;

pub use crate::printing::print;
pub use crate::state::state_of;
pub use crate::status::print_status;
