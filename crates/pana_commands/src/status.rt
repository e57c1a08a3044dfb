//! The copies that are obsolete or in conflict, all or those at places that are named.
ghost use Rattle.std.specs.Prelude.{◌≡◌, IfOk, IsErrOf, string_bytes};
ghost use Rattle.pana_calls.specs.Session.{one};
ghost use Rattle.std.specs.List.{list_any};
ghost use Rattle.pana_commands.specs.Status.{AnswersStatus, HasTotal, asks_newest, asks_total, copies_at, is_meant, is_of_many, is_table, names, place_name, rows_at, shown_status};
ghost use Rattle.pana_commands.specs.Track.{IsCut};

use crate::counting::counts_line;
use crate::newest::newest_of;
use crate::printout::Printout;
use crate::tracking::{StatusForm, shown_rows, status_by};
use crate::untracked::Untracked;
use pana_calls::{Call, HallCounts, PlacedCopy, Query, Session, StatusRow};
use pana_copies::{DeviceName, Place};
use pana_list::PlainList;
use pana_track::status_of;
use std::alloc::{AllocError, Global};

/// Whether a name is of all places that begin with it: those of a device, or of a folder.
fn is_of_many(name: &str) -> bool
    ensures { result ≡ is_of_many name.now }
{
    name.as_bytes().ends_with(b":") || name.as_bytes().ends_with(b"/")
}

/// Whether a name is that of a place, or of many that it is one of.
fn names(name: &str, place: &str) -> bool
    ensures { result ≡ names name.now place.now }
{
    if is_of_many(name) {
        place.as_bytes().starts_with(name.as_bytes())
    } else {
        name == place
    }
}

/// A place as it is named: its device, a colon, its path.
fn place_name(alloc: Global, place: &Place) -> Result<String, AllocError>
    ensures { IfOk result (λ name. string_bytes name ≡ place_name place.now) }
{
    format!(in alloc; "{}:{}", place.device.as_str(), place.path.as_str())
}

/// Whether one of the names is of the place with this name.
fn is_named(places: &[&str], name: &str) -> bool
    ensures { result ≡ list_any (λ one. names one.now name.now) places.now }
{
    places.iter().any(|one| names(one, name))
}

/// Whether one of the names is of the place; without names each place is meant.
fn is_meant(alloc: Global, places: &[&str], place: &Place) -> Result<bool, AllocError>
    ensures { IfOk result (λ is. is ≡ is_meant places.now place.now) }
{
    let name = place_name(alloc, place)?;
    Ok(places.is_empty() || is_named(places, name.as_str()))
}

/// The rows of copies at these places.
fn rows_at(
    alloc: Global,
    places: &[&str],
    rows: PlainList<StatusRow>,
) -> Result<PlainList<StatusRow>, AllocError>
    ensures { IfOk result (λ meant. meant ≡ rows_at places.now rows) }
{
    let mut meant = Vec::new(alloc);
    for row in rows.into_vec() {
        if is_meant(alloc, places, &row.place)? {
            meant.push(row)?;
        }
    }
    Ok(PlainList::from_vec(meant))
}

/// The copies at these places.
fn copies_at(
    alloc: Global,
    places: &[&str],
    copies: PlainList<PlacedCopy>,
) -> Result<PlainList<PlacedCopy>, AllocError>
    ensures { IfOk result (λ meant. meant ≡ copies_at places.now copies) }
{
    let mut meant = Vec::new(alloc);
    for copy in copies.into_vec() {
        if is_meant(alloc, places, &copy.place)? {
            meant.push(copy)?;
        }
    }
    Ok(PlainList::from_vec(meant))
}

/// Whether a table is shown.
fn is_table(form: StatusForm) -> bool
    ensures { result ≡ is_table form }
{
    match form {
        StatusForm::Table(_) => true,
        StatusForm::Json => false,
        StatusForm::Nothing => false,
    }
}

/// Whether the newest copies are asked for.
fn asks_newest(lists_newest: bool, form: StatusForm) -> bool
    ensures { result ≡ asks_newest lists_newest form }
{
    lists_newest && is_table(form)
}

/// Whether all copies are counted.
fn asks_total(places: &[&str], form: StatusForm) -> bool
    ensures { result ≡ asks_total places.now form }
{
    is_table(form) && places.is_empty()
}

/// Asks how many copies there are, where that is wanted.
fn total_of<S: Session>(
    session: &mut S,
    by: &DeviceName,
    is_wanted: bool,
) -> Result<Option<HallCounts>, Untracked>
    ensures ok { IfOk result (HasTotal S.step by.now is_wanted session.old session.new) }
    ensures fails { IsErrOf result Untracked.NoAnswer → IsCut S.step (one S.fails) session.old session.new }
{
    if !is_wanted {
        return Ok(None);
    }
    let answer = session.call(by, Call::Query(Query::Counts))?;
    match answer.into_counts() {
        Some(counts) => Ok(Some(counts)),
        None => Err(Untracked::OutOfMemory),
    }
}

/// The rows as they are to be shown, and below a table the line of counts.
fn shown_status(
    alloc: Global,
    form: StatusForm,
    total: Option<HallCounts>,
    rows: PlainList<StatusRow>,
    newest: &[PlacedCopy],
) -> Result<String, AllocError>
    ensures { IfOk result (λ text. string_bytes text ≡ shown_status form total rows newest.now) }
{
    let counts = if is_table(form) {
        counts_line(alloc, total, rows.as_slice())?
    } else {
        String::new(alloc)
    };
    let mut text = shown_rows(alloc, form, rows, newest)?;
    text.push_str(counts.as_str())?;
    Ok(text)
}

/// Asks a session, as the device `by`, for all copies that are obsolete or in conflict, and shows those at the places that are
/// named: `usb:plan.txt` is one place, `usb:photos/` all below a folder, `usb:` all of a device. Without names all are shown.
/// A table has the newest copies there too, where they are to be listed, by rising number of their families; and below it a
/// line says how many are obsolete and how many in conflict, and without names how many copies there are on how many devices.
/// The status is 1 where one is obsolete or in conflict, else 0.
///
/// # Errors
///
/// `NoAnswer` where a question has none; `OutOfMemory` where an allocation failed.
pub fn status_on<S: Session>(
    alloc: Global,
    session: &mut S,
    by: &DeviceName,
    places: &[&str],
    lists_newest: bool,
    form: StatusForm,
) -> Result<Printout, Untracked>
    ensures ok { IfOk result (AnswersStatus S.step places.now lists_newest form by.now session.old session.new) }
    ensures fails { IsErrOf result Untracked.NoAnswer → IsCut S.step (one S.fails) session.old session.new }
{
    let Some(rows) = status_of(alloc, session, by)? else {
        return Err(Untracked::OutOfMemory);
    };
    let newest = newest_of(alloc, session, by, asks_newest(lists_newest, form))?;
    let total = total_of(session, by, asks_total(places, form))?;
    let meant = rows_at(alloc, places, rows)?;
    let also = copies_at(alloc, places, newest)?;
    let status = status_by(false, meant.as_slice());
    let out = shown_status(alloc, form, total, meant, also.as_slice())?;
    Ok(Printout {
        out,
        err: String::new(alloc),
        status,
    })
}
