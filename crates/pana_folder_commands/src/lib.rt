//! The commands that read folders: `scan` and `track`.
#![tactic(auto)]

pub mod scan_command;
mod track;
pub mod track_command;
