//! What the program's commands answer to texts, lines and folders: `compare`, `load`, `run`, `scan`, `show`, `status` and `track`, apart
//! from the words and files that they are given by.
#![tactic(auto)]

mod boards;
mod comparing;
mod counting;
mod loading;
mod newest;
mod printout;
mod running;
mod scanning;
mod showing;
mod status;
mod tables;
mod tracking;
mod untracked;

pub use crate::boards::{table_on, tables_on};
pub use crate::comparing::compare_on;
pub use crate::loading::load_on;
pub use crate::printout::Printout;
pub use crate::running::run_on;
pub use crate::scanning::scan_on;
pub use crate::showing::show_on;
pub use crate::status::status_on;
pub use crate::tables::tables_of;
pub use crate::tracking::{StatusForm, track_on};
pub use crate::untracked::Untracked;
