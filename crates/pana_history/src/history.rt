//! The history of a file, for people.
ghost use Rattle.std.specs.Prelude.{◌≡◌, Some, IfOk, IfErr, string_bytes};
ghost use Rattle.pana_calls.specs.Session.{one};
ghost use Rattle.pana_hall.specs.Accepted.{IsAccepted};
ghost use Rattle.pana_hall.specs.Living.{living};
ghost use Rattle.pana_hall.specs.Status.{standing_at};
ghost use Rattle.pana_history.specs.History.{Draws, IsDrawn, drawn_in};
ghost use Rattle.pana_history.specs.Rows.{rows_of};
ghost use Rattle.pana_history.specs.Why.{IsDamage, SaysNothing};

use crate::pages::journal_of;
use crate::row::Row;
use crate::rows::rows_of;
use crate::svg::svg_text;
use crate::text::graph_text;
use crate::why::{Unexplained, hall_of, standing_at};
use pana_ask::unknown_line;
use pana_calls::{CopyStanding, Session};
use pana_copies::{DeviceName, Place};
use pana_journal::{Entry, EntryList};
use std::alloc::{AllocError, Global};

/// How a history is drawn.
#[derive(Clone, Copy)]
pub enum Form {
    /// As lines of text.
    Text,
    /// As a picture in SVG.
    Svg,
}

/// What is said of a place.
#[derive(Drop)]
pub struct History {
    /// The history of the file whose copy is there, or that no copy is there.
    pub text: String,
    /// Whether a copy is there.
    pub is_known: bool,
}

/// The rows in one of the two forms.
fn drawn_in(alloc: Global, form: Form, rows: &[Row]) -> Result<String, AllocError>
    ensures { IfOk result (λ text. string_bytes text ≡ drawn_in form rows.now) }
{
    match form {
        Form::Text => graph_text(alloc, rows),
        Form::Svg => svg_text(alloc, rows),
    }
}

/// The history of a file, in one of the two forms.
fn drawn(alloc: Global, journal: EntryList, family: u64, form: Form) -> Result<String, AllocError>
    requires { IsAccepted 8 journal }
    ensures { IfOk result (λ text. string_bytes text ≡ drawn_in form (rows_of journal family)) }
{
    let rows = rows_of(alloc, journal, family)?;
    drawn_in(alloc, form, rows.as_slice())
}

/// What is said of a place, by how the copy there stands.
fn history_at(
    alloc: Global,
    journal: EntryList,
    standing: Option<CopyStanding>,
    place: &Place,
    form: Form,
) -> Result<History, AllocError>
    requires accepted { IsAccepted 8 journal }
    requires standing { standing ≡ standing_at (living journal) place.now }
    ensures { IfOk result (IsDrawn journal place.now form) }
{
    match standing {
        Some(standing) => Ok(History {
            text: drawn(alloc, journal, standing.family, form)?,
            is_known: true,
        }),
        None => Ok(History {
            text: unknown_line(alloc, place)?,
            is_known: false,
        }),
    }
}

/// How the copy at a place stands by a journal, if one is there.
fn standing_by(
    alloc: Global,
    journal: &[Entry],
    place: &Place,
) -> Result<Option<CopyStanding>, Unexplained>
    ensures standing { IfOk result (λ standing. standing ≡ standing_at (living journal.now) place.now) }
    ensures accepted { IfOk result (λ standing. IsAccepted 8 journal.now) }
    ensures damaged { IfErr result (IsDamage journal.now) }
{
    let mut hall = hall_of(alloc, journal)?;
    let standing = standing_at(&mut hall, place);
    drop(hall);
    standing
}

/// What is said of a place by a journal.
///
/// It takes memory for the journal twice, for its hall, and for a mark in each lane of each row.
///
/// # Errors
///
/// `Damaged` where an entry doesn't follow from those before it; `OutOfMemory`.
pub fn draw(
    alloc: Global,
    journal: EntryList,
    place: &Place,
    form: Form,
) -> Result<History, Unexplained>
    ensures ok { IfOk result (IsDrawn journal place.now form) }
    ensures damaged { IfErr result (IsDamage journal) }
{
    let standing = standing_by(alloc, journal.as_slice(), place)?;
    Ok(history_at(alloc, journal, standing, place, form)?)
}

/// Asks a session for its journal, as the device `by`, and draws the history of the file whose copy is at the place: first a row
/// for each copy that it has had, which names the copy's lane and says where the copy is now, and then a row for each of its
/// entries, withdrawn ones too, the oldest first; or says that no copy is there. All is said of one moment: that of the last
/// question.
///
/// # Errors
///
/// `NoAnswer` where a question has none; `Damaged` where what came is no journal; `OutOfMemory`.
pub fn history_on<S: Session>(
    alloc: Global,
    session: &mut S,
    by: &DeviceName,
    place: &Place,
    form: Form,
) -> Result<History, Unexplained>
    ensures ok { IfOk result (Draws S.step by.now place.now form session.old session.new) }
    ensures err { IfErr result (SaysNothing S.step (one S.fails) by.now session.old session.new) }
{
    let Some(journal) = journal_of(alloc, session, by)? else {
        return Err(Unexplained::OutOfMemory);
    };
    draw(alloc, journal, place, form)
}
