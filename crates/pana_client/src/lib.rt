//! A session at a daemon that runs: each call is written to it as a line, and its answer is read as a line.
#![tactic(auto)]

mod answer_reading;
mod call_writing;
mod client;
mod lines;
mod own_paths;
mod row_reading;

pub use crate::answer_reading::{AnswerFault, read_answer};
pub use crate::call_writing::{CallFault, call_line};
pub use crate::client::Client;
