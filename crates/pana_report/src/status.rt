//! The table of copies that are obsolete or in conflict, with what to do about each, and of newest copies.
ghost use Rattle.std.specs.Prelude.{◌≡◌, ◌++◌, ◌∷◌, [], IfOk, OnOk, string_bytes};
ghost use Rattle.std.specs.List.{flat_map};
ghost use Rattle.pana_report.specs.Columns.{cell, head_line, newline, row_line, side_by_side};
ghost use Rattle.pana_report.specs.Status.{advice, columns, lines_by, newest_line, status_text};

use crate::cell::{Alignment, write_cell, write_next};
use crate::limits::{Limits, places_width};
use crate::place::fitted_place;
use crate::widths::STATE;
use pana_calls::{CopyState, PlacedCopy, StatusRow};
use pana_copies::Place;
use std::alloc::{AllocError, Global};

/// The width of the last column: its texts have no blanks behind them.
const LAST: usize = 0;

/// What to do about a copy in this state, by the copy at the other place, which takes at most so many columns.
fn advice(
    alloc: Global,
    most: Option<usize>,
    state: CopyState,
    other: &Place,
) -> Result<String, AllocError>
    ensures { IfOk result (λ text. string_bytes text ≡ advice most state other.now) }
{
    let place = fitted_place(alloc, most, other)?;
    match state {
        CopyState::Newest => String::from_str(alloc, "keep"),
        CopyState::Obsolete => format!(in alloc; "take {}", place.as_str()),
        CopyState::Conflict => format!(in alloc; "merge with {}", place.as_str()),
    }
}

/// Appends a line with these texts in its columns, that of places so wide.
#[tactic(auto, using(crate::proofs::Pieces::status_pieces))]
fn write_line(
    text: &mut String,
    places: usize,
    state: &str,
    copy: &str,
    advice: &str,
) -> Result<(), AllocError>
    ensures { OnOk result (string_bytes text.new ≡ string_bytes text.old
        ++ (side_by_side (cell Alignment.Left 8 state.now ∷ cell Alignment.Left places copy.now ∷ cell Alignment.Left 0 advice.now ∷ []) ++ newline)) }
{
    write_cell(text, Alignment::Left, STATE, state)?;
    write_next(text, Alignment::Left, places, copy)?;
    write_next(text, Alignment::Left, LAST, advice)?;
    text.push_str("\n")
}

/// Appends the line of heads.
#[tactic(auto, unfolding(crate::specs::Columns::head_line, crate::specs::Status::columns))]
fn write_heads(text: &mut String, limits: &Limits, places: usize) -> Result<(), AllocError>
    ensures { OnOk result (string_bytes text.new ≡ string_bytes text.old ++ head_line (columns limits.now places)) }
{
    write_line(text, places, "STATE", "COPY", "WHAT TO DO")
}

/// Appends the line of a copy.
#[tactic(auto, unfolding(crate::specs::Columns::row_line, crate::specs::Status::columns))]
fn write_row(
    alloc: Global,
    text: &mut String,
    limits: &Limits,
    places: usize,
    row: &StatusRow,
) -> Result<(), AllocError>
    ensures { OnOk result (string_bytes text.new ≡ string_bytes text.old ++ row_line (columns limits.now places) row.now) }
{
    let copy = fitted_place(alloc, limits.copy, &row.place)?;
    let advice = advice(alloc, limits.other, row.state, &row.with.place)?;
    write_line(
        text,
        places,
        row.state.name(),
        copy.as_str(),
        advice.as_str(),
    )
}

fn write_rows(
    alloc: Global,
    text: &mut String,
    limits: &Limits,
    places: usize,
    rows: &[StatusRow],
) -> Result<(), AllocError>
    ensures { OnOk result (string_bytes text.new ≡ string_bytes text.old ++ flat_map (row_line (columns limits.now places)) rows.now) }
{
    for row in rows {
        write_row(alloc, text, limits, places, row)?;
    }
    Ok(())
}

/// Appends the line of a newest copy.
#[tactic(auto, using(crate::proofs::Pieces::newest_pieces), unfolding(crate::specs::Status::newest_line))]
fn write_newest(
    alloc: Global,
    text: &mut String,
    limits: &Limits,
    newest: &PlacedCopy,
) -> Result<(), AllocError>
    ensures { OnOk result (string_bytes text.new ≡ string_bytes text.old ++ newest_line limits.now newest.now) }
{
    let copy = fitted_place(alloc, limits.copy, &newest.place)?;
    write_cell(text, Alignment::Left, STATE, CopyState::Newest.name())?;
    write_next(text, Alignment::Left, LAST, copy.as_str())?;
    text.push_str("\n")
}

fn write_all_newest(
    alloc: Global,
    text: &mut String,
    limits: &Limits,
    newest: &[PlacedCopy],
) -> Result<(), AllocError>
    ensures { OnOk result (string_bytes text.new ≡ string_bytes text.old ++ flat_map (newest_line limits.now) newest.now) }
{
    for copy in newest {
        write_newest(alloc, text, limits, copy)?;
    }
    Ok(())
}

/// The lines of a table.
#[tactic(auto, using(crate::proofs::Pieces::all_lines))]
fn lines_by(
    alloc: Global,
    limits: &Limits,
    rows: &[StatusRow],
    newest: &[PlacedCopy],
) -> Result<String, AllocError>
    ensures { IfOk result (λ text. string_bytes text ≡ lines_by limits.now rows.now newest.now) }
{
    let mut text = String::new(alloc);
    let places = places_width(alloc, limits.copy, rows, newest)?;
    write_heads(&mut text, limits, places)?;
    write_rows(alloc, &mut text, limits, places, rows)?;
    write_all_newest(alloc, &mut text, limits, newest)?;
    Ok(text)
}

/// The table of copies that are obsolete or in conflict, as text for people: a line of heads, and a line for each copy, in
/// the order given, with what to do about it; and behind them a line for each of the newest copies that are given. Each line
/// ends with a newline, and the columns line up in a terminal. Where the width of one is given, in its columns, places are cut
/// in the middle so that the lines fit, but to no less than 12. Without copies the text is empty.
///
/// # Errors
///
/// `AllocError` where an allocation failed. Takes O(length of the table) time and memory.
#[tactic(auto, unfolding(crate::specs::Status::status_text))]
pub fn print_status(
    alloc: Global,
    terminal: Option<usize>,
    rows: &[StatusRow],
    newest: &[PlacedCopy],
) -> Result<String, AllocError>
    ensures { IfOk result (λ text. string_bytes text ≡ status_text terminal rows.now newest.now) }
{
    if rows.is_empty() && newest.is_empty() {
        return Ok(String::new(alloc));
    }
    let limits = Limits::of(alloc, terminal, rows, newest)?;
    lines_by(alloc, &limits, rows, newest)
}
