//! The state of a copy on a board: what a person has to do about it.
ghost use Rattle.std.specs.Prelude.{◌≡◌};
ghost use Rattle.pana_report.specs.Table.{state_of};

use pana_calls::{BoardRow, CopyState};

/// The state of the copy of this row: obsolete where another is newer, else in conflict where one is, else newest. Takes no memory.
pub fn state_of(row: &BoardRow) -> CopyState
    ensures { result ≡ state_of row.now }
{
    if row.newer != 0 {
        CopyState::Obsolete
    } else if row.conflict != 0 {
        CopyState::Conflict
    } else {
        CopyState::Newest
    }
}
