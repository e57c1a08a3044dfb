//! Questions and reports of copies that are named by their places, over any session: their numbers are asked for.
#![tactic(auto)]

mod ask_fault;
mod looking;
mod naming;
mod overwriting;
mod placed_report;
mod reading;
mod report_end;
mod report_word;
mod reporting;
mod verdict;
mod words;

pub use crate::ask_fault::AskFault;
pub use crate::naming::{place_name, read_place, unknown_line};
pub use crate::overwriting::may_overwrite;
pub use crate::placed_report::{OneCopyReport, PlacedReport, TwoCopyReport};
pub use crate::reading::read_report;
pub use crate::report_end::ReportEnd;
pub use crate::report_word::ReportWord;
pub use crate::reporting::report_on;
pub use crate::verdict::Verdict;
pub use crate::words::{Words, WordsFault};
