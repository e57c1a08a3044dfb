//! The tables of families, asked of a session.
ghost use Rattle.std.specs.Prelude.{◌≡◌, IfOk, IsErrOf, MatchResult, map, string_bytes};
ghost use Rattle.pana_calls.specs.Session.{one};
ghost use Rattle.pana_calls.specs.declared.answer.Answer.TheVariants.{Given};
ghost use Rattle.pana_calls.specs.declared.reply.Reply.TheVariants as replies;
ghost use Rattle.pana_report.specs.Table.{table_text};
ghost use Rattle.pana_commands.specs.Boards.{HasTables, PrintsFamilies, PrintsFamily, board, families, shown_families};
ghost use Rattle.pana_commands.specs.Track.{IsCut};

use crate::printout::Printout;
use crate::untracked::Untracked;
use pana_calls::{Answer, BoardView, Call, Cause, FamilyRow, Query, Reply, Session};
use pana_copies::DeviceName;
use pana_list::PlainList;
use pana_report::print;
use std::alloc::{AllocError, Global};

/// Asks for the families.
pub(crate) fn families_of<S: Session>(
    session: &mut S,
    by: &DeviceName,
) -> Result<PlainList<FamilyRow>, Untracked>
    ensures ok { IfOk result (λ rows. S.step session.old by.now families (Given (replies.Families rows)) session.new) }
    ensures fails { IsErrOf result Untracked.NoAnswer → one S.fails session.old by.now families session.new }
{
    let answer = session.call(by, Call::Query(Query::Families))?;
    match answer.into_families() {
        Some(rows) => Ok(rows),
        None => Err(Untracked::OutOfMemory),
    }
}

/// Asks for the board of a family, and returns it or why there is none.
pub(crate) fn board_of<S: Session>(
    session: &mut S,
    by: &DeviceName,
    family: u64,
) -> Result<Result<BoardView, Cause>, Untracked>
    ensures ok { IfOk result (λ said. MatchResult said
        (λ view. S.step session.old by.now (board family) (Given (replies.Board view)) session.new)
        (λ cause. S.step session.old by.now (board family) (Given (replies.Refused cause)) session.new)) }
    ensures fails { IsErrOf result Untracked.NoAnswer → one S.fails session.old by.now (board family) session.new }
{
    let answer = session.call(by, Call::Query(Query::Board { family }))?;
    if let Answer::Given(Reply::Refused(cause)) = &answer {
        return Ok(Err(*cause));
    }
    match answer.into_board() {
        Some(view) => Ok(Ok(view)),
        None => Err(Untracked::OutOfMemory),
    }
}

/// Asks for the board of a family that has one.
pub(crate) fn view_of<S: Session>(
    session: &mut S,
    by: &DeviceName,
    family: u64,
) -> Result<BoardView, Untracked>
    ensures ok { IfOk result (λ view. S.step session.old by.now (board family) (Given (replies.Board view)) session.new) }
    ensures fails { IsErrOf result Untracked.NoAnswer → one S.fails session.old by.now (board family) session.new }
{
    match board_of(session, by, family)? {
        Ok(view) => Ok(view),
        Err(_) => Err(Untracked::OutOfMemory),
    }
}

/// The numbers of these families: of all, or of those of which two newest copies are in conflict.
pub(crate) fn shown_families(
    alloc: Global,
    only_split: bool,
    rows: &[FamilyRow],
) -> Result<Vec<u64>, AllocError>
    ensures { IfOk result (λ numbers. numbers.items ≡ shown_families only_split rows.now) }
{
    rows.iter()
        .filter(|row| !only_split || row.split)
        .map(|row| row.family)
        .collect(alloc)
}

/// The table of a board, which is let go.
pub(crate) fn print_board(
    alloc: Global,
    terminal: Option<usize>,
    view: BoardView,
) -> Result<String, AllocError>
    ensures { IfOk result (λ text. string_bytes text ≡ table_text terminal view) }
{
    print(alloc, terminal, &view)
}

/// Asks for the boards of these families, one after another, and returns their tables.
fn tables_of_each<S: Session>(
    alloc: Global,
    terminal: Option<usize>,
    session: &mut S,
    by: &DeviceName,
    families: &[u64],
) -> Result<Vec<String>, Untracked>
    ensures ok { IfOk result (λ tables. HasTables S.step by.now terminal families.now session.old session.new (map string_bytes tables.items)) }
    ensures fails { IsErrOf result Untracked.NoAnswer → IsCut S.step (one S.fails) session.old session.new }
{
    let mut tables = Vec::new(alloc);
    for family in families {
        let view = view_of(session, by, *family)?;
        if tables.push(print_board(alloc, terminal, view)?).is_err() {
            return Err(Untracked::OutOfMemory);
        }
    }
    Ok(tables)
}

/// Asks a session, as the device `by`, for the families that have a living copy, and prints the table of each, by rising number,
/// with an empty line between two, for a terminal of this width where one is given; where only split ones are shown, of those of
/// which two newest copies are in conflict. The status is 0.
///
/// # Errors
///
/// `NoAnswer` where a question has none; `OutOfMemory` where an allocation failed, here or where a question was asked.
pub fn tables_on<S: Session>(
    alloc: Global,
    terminal: Option<usize>,
    session: &mut S,
    by: &DeviceName,
    only_split: bool,
) -> Result<Printout, Untracked>
    ensures ok { IfOk result (PrintsFamilies S.step by.now terminal only_split session.old session.new) }
    ensures fails { IsErrOf result Untracked.NoAnswer → IsCut S.step (one S.fails) session.old session.new }
{
    let rows = families_of(session, by)?;
    let shown = shown_families(alloc, only_split, rows.as_slice())?;
    let tables = tables_of_each(alloc, terminal, session, by, shown.as_slice())?;
    let text = tables.as_slice().join(alloc, "\n")?;
    Ok(Printout::printed(alloc, text))
}

/// Asks a session, as the device `by`, for the board of the family with this number, and prints its table, with status 0; or
/// reports why there is none, with status 1. The table is for a terminal of this width, where one is given.
///
/// # Errors
///
/// `NoAnswer` where the question has none; `OutOfMemory` where an allocation failed.
pub fn table_on<S: Session>(
    alloc: Global,
    terminal: Option<usize>,
    session: &mut S,
    by: &DeviceName,
    family: u64,
) -> Result<Printout, Untracked>
    ensures ok { IfOk result (PrintsFamily S.step by.now terminal family session.old session.new) }
    ensures fails { IsErrOf result Untracked.NoAnswer → one S.fails session.old by.now (board family) session.new }
{
    match board_of(session, by, family)? {
        Ok(view) => {
            let table = print_board(alloc, terminal, view)?;
            Ok(Printout::printed(alloc, table))
        }
        Err(cause) => Ok(Printout::reported(alloc, &cause)?),
    }
}
