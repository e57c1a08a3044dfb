//! Boards, as they are answered.
ghost use Rattle.std.specs.Prelude.{◌≡◌};

use pana_copies::Place;
use pana_list::PlainList;

/// A copy on a board: its number and place, and how many other living copies of its family are newer and older
/// than it, equal to it, and in conflict with it.
#[derive(PartialEq, Eq)]
pub struct BoardRow {
    pub copy: u64,
    pub place: Place,
    pub newer: u64,
    pub older: u64,
    pub equal: u64,
    pub conflict: u64,
}

impl Drop for BoardRow {
    fn drop(self) {
        let BoardRow {
            copy: _,
            place: _,
            newer: _,
            older: _,
            equal: _,
            conflict: _,
        } = self;
    }
}

/// How the living copies of a family relate to each other.
pub struct BoardView {
    pub family: u64,
    /// A row for each living copy, by rising number.
    pub rows: PlainList<BoardRow>,
    /// The copies to which none is newer, by rising number.
    pub newest: PlainList<u64>,
    /// Whether two of the newest copies are in conflict.
    pub split: bool,
}

impl Drop for BoardView {
    fn drop(self) {
        let BoardView {
            family: _,
            rows: _,
            newest: _,
            split: _,
        } = self;
    }
}

impl BoardRow {
    /// The place, where the rest is wanted no more. Takes no memory.
    pub fn into_place(self) -> Place
        ensures { result ≡ self.place }
    {
        let BoardRow {
            copy: _,
            place,
            newer: _,
            older: _,
            equal: _,
            conflict: _,
        } = self;
        place
    }
}

impl BoardView {
    /// The rows, where the rest is wanted no more. Takes no memory.
    pub fn into_rows(self) -> PlainList<BoardRow>
        ensures { result ≡ self.rows }
    {
        let BoardView {
            family: _,
            rows,
            newest: _,
            split: _,
        } = self;
        rows
    }
}
