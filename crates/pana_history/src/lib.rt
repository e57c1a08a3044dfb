//! A file from the journal: which updates one of two copies has and the other lacks, and its history, a lane for each of its copies.
#![tactic(auto)]

mod difference;
mod families;
mod history;
mod lane;
pub mod laws;
mod mark;
mod naming;
mod pages;
mod row;
mod rows;
mod sources;
mod svg;
mod text;
mod why;
mod withdrawal;

pub use crate::difference::{Difference, difference_between};
pub use crate::families::family_entries;
pub use crate::history::{Form, History, draw, history_on};
pub use crate::pages::journal_of;
pub use crate::why::{Explanation, Unexplained, explain, why_on};
