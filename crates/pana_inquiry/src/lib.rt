//! The commands that make inquiries of whoever keeps the reports, and those that print tables of lines.
#![tactic(auto)]

mod asking;
pub mod history_command;
mod input;
pub mod overwrite_command;
mod picture_file;
pub mod report_command;
mod show_command;
pub mod status_command;
pub mod tables_command;
pub mod why_command;
