//! What a sighting comes to.
use pana_journal::Report;

/// What is done of a sighting.
#[derive(Drop)]
pub enum Decision {
    /// Nothing: this copy holds the sum that was found, or no copy is at the place where none was.
    Known(Option<u64>),
    /// This report is made.
    One(Report),
    /// Both of these are made, or neither.
    Both(Report, Report),
}
