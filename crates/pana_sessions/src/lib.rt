//! Sessions at who keeps the reports, for the commands that make inquiries; and the commands that need more of a session: `run`,
//! `watch` and `log copy`.
#![tactic(auto)]

mod keeping;
pub mod log_copy;
mod redialing;
pub mod run_command;
mod sessions;
pub mod watch_command;

pub use crate::sessions::KeptSessions;
