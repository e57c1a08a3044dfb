//! Families: the living copies of one file, each with a stamp of Interval Tree Clocks.
//!
//! A `Family` is the rows of one file's copies and parcels, and keeps no set of updates: how two copies relate comes from
//! comparing their stamps, and is kept beside them. `prepare` makes the change of a report, `apply` makes the change in the rows
//! and returns the one that takes it back, and who calls keeps that as long as it likes.
//!
//! Proved: the rows after a report are a function of those before, stamps and all (`report`, clause `rows`), and stand for what
//! the report makes of each table of sets that those before stood for (`laws::report_is_of_sets`); relations, boards and stamps
//! are those of the table; `take_back` gives back the rows from before, tree for tree; a call that fails leaves them as they
//! were. Only tested: that a call which takes memory succeeds where there is enough.
#![tactic(auto)]

mod asking;
mod board;
mod change;
mod comparing;
mod family;
mod fault;
pub mod laws;
mod making;
mod ordering;
mod report;
mod reporting;
mod row;
mod searching;
mod settling;
mod sharing;
mod stamps;
mod uniting;

pub use crate::board::{CopyCounts, FamilyBoard};
pub use crate::change::Change;
pub use crate::family::Family;
pub use crate::fault::FamilyFault;
pub use crate::report::FamilyReport;
pub use crate::row::StampRow;
