//! Folders that are tracked: what was noticed in each is reported to a session, and then the copies that are obsolete or in conflict
//! are shown.
ghost use Rattle.std.specs.Prelude.{◌≡◌, IfOk, IsErrOf, string_bytes};
ghost use Rattle.std.specs.List.{list_all};
ghost use Rattle.pana_track.specs.Calls.{Makes};
ghost use Rattle.pana_track.specs.Status.{HasAll};
ghost use Rattle.pana_commands.specs.Track.{AnswersTrack, HasNoAnswer, IsCutBy, TracksAll, row_line, row_lines, shown_of, shown_rows, shows, status_by};

use crate::printout::Printout;
use crate::untracked::Untracked;
use pana_calls::{NoAnswer, PlacedCopy, Reply, Session, StatusRow};
use pana_copies::DeviceName;
use pana_list::PlainList;
use pana_report::print_status;
use pana_track::{ReadFolder, status_of, track_folder};
use pana_wire::encode;
use std::alloc::{AllocError, Global};

/// How copies are shown.
#[derive(Clone, Copy)]
pub enum StatusForm {
    /// As a table for people, in a terminal of this width, or where none is given in any.
    Table(Option<usize>),
    /// As lines, each of which answers a question for one of them.
    Json,
    Nothing,
}

/// The lines about folders, and whether something wasn't reported of one.
#[derive(Drop)]
struct Notes {
    lines: String,
    has_fault: bool,
}

/// Tracks the folders, one after another.
fn track_all<S: Session>(
    alloc: Global,
    session: &mut S,
    folders: &[ReadFolder],
    may_be_empty: bool,
) -> Result<Notes, Untracked>
    ensures ok { IfOk result (λ notes. TracksAll S.step S.keeps_together may_be_empty folders.now session.old session.new (string_bytes notes.lines) notes.has_fault) }
    ensures fails { IsErrOf result Untracked.NoAnswer → IsCutBy S.step S.keeps_together S.fails session.old session.new }
{
    let Some((folder, others)) = folders.split_first() else {
        return Ok(Notes {
            lines: String::new(alloc),
            has_fault: false,
        });
    };
    let end = track_folder(alloc, session, &folder.given, may_be_empty)?;
    let mut lines = end.lines(alloc, &folder.device)?;
    let more = track_all(alloc, session, others, may_be_empty)?;
    lines.push_str(more.lines.as_str())?;
    Ok(Notes {
        lines,
        has_fault: end.is_fault() || more.has_fault,
    })
}

/// Whether the row is shown, by what was read of a folder: not where its copy is on the folder's device and its path is
/// ignored.
fn shows(folder: &ReadFolder, row: &StatusRow) -> bool
    ensures { result ≡ shows row.now folder.now }
{
    match &folder.given {
        Ok(found) => {
            folder.device != row.place.device
                || !found.patterns.is_ignored(row.place.path.as_str(), false)
        }
        Err(_) => true,
    }
}

/// Whether all folders show the row.
fn is_shown(folders: &[ReadFolder], row: &StatusRow) -> bool
    ensures { result ≡ list_all (shows row.now) folders.now }
{
    folders.iter().all(|folder| shows(folder, row))
}

/// The rows that all folders show.
fn shown_of(
    alloc: Global,
    folders: &[ReadFolder],
    rows: PlainList<StatusRow>,
) -> Result<PlainList<StatusRow>, AllocError>
    ensures { IfOk result (λ shown. shown ≡ shown_of folders.now rows) }
{
    let shown = rows
        .into_vec()
        .into_iter()
        .filter(|row| is_shown(folders, row))
        .collect(alloc)?;
    Ok(PlainList::from_vec(shown))
}

/// The table of copies that are obsolete or in conflict and of newest ones, or that there are none.
fn table(
    alloc: Global,
    terminal: Option<usize>,
    rows: &[StatusRow],
    newest: &[PlacedCopy],
) -> Result<String, AllocError>
    ensures { IfOk result (λ text. string_bytes text ≡ shown_rows (StatusForm.Table terminal) rows.now newest.now) }
{
    if rows.is_empty() && newest.is_empty() {
        return String::from_str(alloc, "nothing is obsolete or in conflict\n");
    }
    print_status(alloc, terminal, rows, newest)
}

/// The line that answers a question for a copy that is obsolete or in conflict, where there is no other.
fn row_line(alloc: Global, row: StatusRow) -> Result<String, AllocError>
    ensures { IfOk result (λ text. string_bytes text ≡ row_line row) }
{
    let mut rows = Vec::new(alloc);
    rows.push(row)?;
    let mut text = encode(alloc, &Reply::Status(PlainList::from_vec(rows)))?;
    text.push_str("\n")?;
    Ok(text)
}

/// Such a line for each of these copies.
fn row_lines(alloc: Global, rows: PlainList<StatusRow>) -> Result<String, AllocError>
    ensures { IfOk result (λ text. string_bytes text ≡ row_lines rows) }
{
    let mut text = String::new(alloc);
    for row in rows.into_vec() {
        text.push_str(row_line(alloc, row)?.as_str())?;
    }
    Ok(text)
}

/// The copies that are obsolete or in conflict, as they are to be shown, and newest ones with them.
pub(crate) fn shown_rows(
    alloc: Global,
    form: StatusForm,
    rows: PlainList<StatusRow>,
    newest: &[PlacedCopy],
) -> Result<String, AllocError>
    ensures { IfOk result (λ text. string_bytes text ≡ shown_rows form rows newest.now) }
{
    match form {
        StatusForm::Table(terminal) => table(alloc, terminal, rows.as_slice(), newest),
        StatusForm::Json => row_lines(alloc, rows),
        StatusForm::Nothing => Ok(String::new(alloc)),
    }
}

/// The exit status.
pub(crate) fn status_by(has_fault: bool, rows: &[StatusRow]) -> u8
    ensures { result ≡ status_by has_fault rows.now }
{
    match rows {
        _ if has_fault => 3,
        [] => 0,
        _ => 1,
    }
}

/// Tracks folders that were read, one after another, by a session: of each it reports what was noticed, and the session keeps
/// that; then it asks, as the
/// device `by`, for all copies that are obsolete or in conflict, and shows them. For standard error there is a line about each
/// folder that couldn't be read or whose reports were refused or broken off, and about what was passed over. The status is 3
/// where something wasn't reported, else 1 where a copy is obsolete or in conflict, else 0.
///
/// # Errors
///
/// `NoAnswer` where a call has none, or what was reported can't be kept; `OutOfMemory` where an allocation failed for what is
/// printed. What was kept before stays.
pub fn track_on<S: Session>(
    alloc: Global,
    session: &mut S,
    by: &DeviceName,
    folders: &[ReadFolder],
    may_be_empty: bool,
    form: StatusForm,
) -> Result<Printout, Untracked>
    ensures ok { IfOk result (AnswersTrack S.step S.settles S.keeps_together may_be_empty form by.now folders.now session.old session.new) }
    ensures fails { IsErrOf result Untracked.NoAnswer → HasNoAnswer S.step S.keeps_together S.fails S.settles S.breaks_off session.old session.new }
{
    let Notes { lines, has_fault } = track_all(alloc, session, folders, may_be_empty)?;
    session.settle()?;
    let Some(rows) = status_of(alloc, session, by)? else {
        return Err(Untracked::OutOfMemory);
    };
    let shown = shown_of(alloc, folders, rows)?;
    let status = status_by(has_fault, shown.as_slice());
    let out = shown_rows(alloc, form, shown, &[])?;
    Ok(Printout {
        out,
        err: lines,
        status,
    })
}
