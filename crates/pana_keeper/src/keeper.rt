//! Who keeps the reports.

use pana_store_file::LogPlace;

/// Who keeps the reports.
#[derive(Clone, Copy)]
pub enum Keeper<'a> {
    /// The journal in the file with this name.
    Journal(&'a str),
    /// The log at this place.
    Log(LogPlace<'a>),
    /// The daemon on this port of 127.0.0.1.
    Daemon(u16),
}

impl<'a> Keeper<'a> {
    /// The journal's file, where one keeps the reports.
    pub fn journal(self) -> Option<&'a str> {
        match self {
            Keeper::Journal(name) => Some(name),
            Keeper::Log(_) | Keeper::Daemon(_) => None,
        }
    }

    /// What is printed where a call has no answer.
    pub fn no_answer(self) -> &'static str {
        match self {
            Keeper::Journal(_) => "journal failed",
            Keeper::Log(_) => "the log gives no answer",
            Keeper::Daemon(_) => "the daemon gives no answer",
        }
    }
}
