//! The command `serve`: what its words ask for, with the system's ports and files.
#![tactic(auto)]

mod daemon;
mod serve_command;

pub use crate::serve_command::run;
