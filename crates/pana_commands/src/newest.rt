//! The newest copies of all files, by their boards.
ghost use Rattle.std.specs.Prelude.{◌≡◌, IfOk, IsErrOf};
ghost use Rattle.pana_calls.specs.Session.{one};
ghost use Rattle.pana_commands.specs.Newest.{AsksNewest, HasNewest, HasNewestOf, is_newest, newest_in, placed};
ghost use Rattle.pana_commands.specs.Track.{IsCut};

use crate::boards::{families_of, shown_families, view_of};
use crate::untracked::Untracked;
use pana_calls::{BoardRow, BoardView, CopyState, PlacedCopy, Session};
use pana_copies::DeviceName;
use pana_list::PlainList;
use pana_report::state_of;
use std::alloc::{AllocError, Global};

fn is_newest(state: CopyState) -> bool
    ensures { result ≡ is_newest state }
{
    match state {
        CopyState::Newest => true,
        CopyState::Obsolete => false,
        CopyState::Conflict => false,
    }
}

/// The copy of a row, and its place.
fn placed(row: BoardRow) -> PlacedCopy
    ensures { result ≡ placed row }
{
    PlacedCopy {
        copy: row.copy,
        place: row.into_place(),
    }
}

/// The newest copies of a board.
fn newest_in(alloc: Global, view: BoardView) -> Result<PlainList<PlacedCopy>, AllocError>
    ensures { IfOk result (λ newest. newest ≡ newest_in view) }
{
    let newest = view
        .into_rows()
        .into_vec()
        .into_iter()
        .filter(|row| is_newest(state_of(row)))
        .map(placed)
        .collect(alloc)?;
    Ok(PlainList::from_vec(newest))
}

/// Asks for the boards of these families, one after another, and returns their newest copies.
fn newest_of_each<S: Session>(
    alloc: Global,
    session: &mut S,
    by: &DeviceName,
    families: &[u64],
) -> Result<PlainList<PlacedCopy>, Untracked>
    ensures ok { IfOk result (HasNewestOf S.step by.now families.now session.old session.new) }
    ensures fails { IsErrOf result Untracked.NoAnswer → IsCut S.step (one S.fails) session.old session.new }
{
    let mut newest = PlainList::new(alloc);
    for family in families {
        let view = view_of(session, by, *family)?;
        let own = newest_in(alloc, view)?;
        if newest.append(own).is_err() {
            return Err(Untracked::OutOfMemory);
        }
    }
    Ok(newest)
}

/// Asks for the families and the board of each, and returns all newest copies.
fn newest_of_all<S: Session>(
    alloc: Global,
    session: &mut S,
    by: &DeviceName,
) -> Result<PlainList<PlacedCopy>, Untracked>
    ensures ok { IfOk result (AsksNewest S.step by.now session.old session.new) }
    ensures fails { IsErrOf result Untracked.NoAnswer → IsCut S.step (one S.fails) session.old session.new }
{
    let rows = families_of(session, by)?;
    let families = shown_families(alloc, false, rows.as_slice())?;
    newest_of_each(alloc, session, by, families.as_slice())
}

/// Asks a session, as the device `by`, for all newest copies, by rising number of their families, where they are to be listed.
///
/// # Errors
///
/// `NoAnswer` where a question has none; `OutOfMemory` where an allocation failed, here or where a question was asked.
pub(crate) fn newest_of<S: Session>(
    alloc: Global,
    session: &mut S,
    by: &DeviceName,
    is_listed: bool,
) -> Result<PlainList<PlacedCopy>, Untracked>
    ensures ok { IfOk result (HasNewest S.step by.now is_listed session.old session.new) }
    ensures fails { IsErrOf result Untracked.NoAnswer → IsCut S.step (one S.fails) session.old session.new }
{
    if is_listed {
        newest_of_all(alloc, session, by)
    } else {
        Ok(PlainList::new(alloc))
    }
}
