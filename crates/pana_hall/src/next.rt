//! The next entry of a journal, before it is made.
use crate::contents::Sayings;
use crate::undo::Before;
use pana_copies::Place;
use pana_family::Change;
use pana_journal::Entry;

/// What the next entry changes, beside the journal. It has all memory that this takes.
#[derive(Drop)]
pub enum Step {
    /// A family begins, with a copy at this place.
    Begin(Place),
    /// A family's rows are changed so. The report keeps a copy at this place, and this was before it.
    Change(Change, Option<Place>, Before),
    /// Pending entries of a family are settled or taken back.
    Settle,
}

/// An entry that is to be the next, the position of its family, what it says of the contents of copies, and what it changes.
#[derive(Drop)]
pub struct Next {
    pub entry: Entry,
    pub position: usize,
    pub sayings: Sayings,
    pub step: Step,
}

/// What an entry that is to be the next changes: all of it but the entry.
#[derive(Drop)]
pub struct Effects {
    pub position: usize,
    pub sayings: Sayings,
    pub step: Step,
}
