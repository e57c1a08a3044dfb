//! The journal: every report that was accepted, in order, each entry with its number.
#![tactic(auto)]

mod entry;
mod journal;
mod kept_entry;
mod line;
mod report;
mod report_kind;

pub use crate::entry::Entry;
pub use crate::journal::{EntryList, Journal, JournalFault};
pub use crate::kept_entry::KeptEntry;
pub use crate::report::Report;
pub use crate::report_kind::ReportKind;
