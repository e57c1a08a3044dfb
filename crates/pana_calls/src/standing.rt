//! How a copy relates to the others of its family, in an answer.
ghost use Rattle.std.specs.Prelude.{◌≡◌};
ghost use Rattle.pana_calls.specs.Standing.{state_name};

use pana_copies::{Place, Sum};

/// Whether a copy is to be replaced, or merged.
#[derive(Clone, Copy, PartialEq, Eq)]
pub enum CopyState {
    /// No other copy of the file knows what it doesn't.
    Newest,
    /// Another copy knows all that it knows, and more.
    Obsolete,
    /// No other copy is newer, and one knows what it doesn't, and the other way round.
    Conflict,
}

impl CopyState {
    /// The state's name, as in a line. Takes no memory.
    pub fn name(self) -> &'static str
        ensures { result.now ≡ state_name self }
    {
        match self {
            CopyState::Newest => "newest",
            CopyState::Obsolete => "obsolete",
            CopyState::Conflict => "conflict",
        }
    }
}

/// A living copy: its family, how many of the family's other copies are newer, older, equal and in conflict, its state, and the
/// sum of what it holds, where that is known.
#[derive(PartialEq, Eq)]
pub struct CopyStanding {
    pub copy: u64,
    pub family: u64,
    pub newer: u64,
    pub older: u64,
    pub equal: u64,
    pub conflict: u64,
    pub state: CopyState,
    pub sum: Option<Sum>,
}

impl Drop for CopyStanding {
    fn drop(self) {
        let CopyStanding {
            copy: _,
            family: _,
            newer: _,
            older: _,
            equal: _,
            conflict: _,
            state: _,
            sum: _,
        } = self;
    }
}

/// A living copy and its place.
#[derive(PartialEq, Eq, Drop)]
pub struct PlacedCopy {
    pub copy: u64,
    pub place: Place,
}

/// A copy that is obsolete or in conflict, and the copy to replace it with, or to merge it with.
#[derive(PartialEq, Eq)]
pub struct StatusRow {
    pub copy: u64,
    pub place: Place,
    pub state: CopyState,
    pub with: PlacedCopy,
}

impl Drop for StatusRow {
    fn drop(self) {
        let StatusRow {
            copy: _,
            place: _,
            state: _,
            with: _,
        } = self;
    }
}
