//! The lines of a board's table, one after another.
ghost use Rattle.std.specs.Prelude.{◌≡◌, ◌++◌, IfOk, OnOk, string_bytes};
ghost use Rattle.std.specs.List.{flat_map};
ghost use Rattle.pana_report.specs.Table.{family_line, table_text, yes_or_no};
ghost use Rattle.pana_report.specs.inner.Lines.{heads_of, row_line_of};

use crate::line::{Texts, write_line};
use crate::place::fitted_place;
use crate::state::state_of;
use crate::widths::Widths;
use itoa::Buffer;
use pana_calls::{BoardRow, BoardView};
use std::alloc::{AllocError, Global};

/// Appends the line of heads.
#[tactic(auto, unfolding(crate::specs::inner::Lines::heads_of))]
fn write_heads(text: &mut String, widths: &Widths) -> Result<(), AllocError>
    ensures { OnOk result (string_bytes text.new ≡ string_bytes text.old ++ heads_of widths.now) }
{
    let heads = Texts {
        copy: "COPY",
        place: "PLACE",
        state: "STATE",
        newer: "NEWER",
        older: "OLDER",
        equal: "EQUAL",
        conflict: "CONFLICT",
    };
    write_line(text, widths, &heads)
}

/// Appends the line of a copy.
#[tactic(auto, unfolding(crate::specs::inner::Lines::row_line_of))]
fn write_row(
    alloc: Global,
    text: &mut String,
    widths: &Widths,
    row: &BoardRow,
) -> Result<(), AllocError>
    ensures { OnOk result (string_bytes text.new ≡ string_bytes text.old ++ row_line_of widths.now row.now) }
{
    let place = fitted_place(alloc, widths.most, &row.place)?;
    let mut copy = Buffer::new();
    let mut newer = Buffer::new();
    let mut older = Buffer::new();
    let mut equal = Buffer::new();
    let mut conflict = Buffer::new();
    let texts = Texts {
        copy: copy.format(row.copy),
        place: place.as_str(),
        state: state_of(row).name(),
        newer: newer.format(row.newer),
        older: older.format(row.older),
        equal: equal.format(row.equal),
        conflict: conflict.format(row.conflict),
    };
    write_line(text, widths, &texts)
}

fn write_rows(
    alloc: Global,
    text: &mut String,
    widths: &Widths,
    rows: &[BoardRow],
) -> Result<(), AllocError>
    ensures { OnOk result (string_bytes text.new ≡ string_bytes text.old ++ flat_map (row_line_of widths.now) rows.now) }
{
    for row in rows {
        write_row(alloc, text, widths, row)?;
    }
    Ok(())
}

fn yes_or_no(answer: bool) -> &'static str
    ensures { result.now ≡ yes_or_no answer }
{
    if answer { "yes" } else { "no" }
}

/// The line about the family.
#[tactic(auto, using(crate::proofs::Pieces::family_pieces))]
fn family_line(alloc: Global, board: &BoardView) -> Result<String, AllocError>
    ensures { IfOk result (λ text. string_bytes text ≡ family_line board.now) }
{
    let copies = board.rows.as_slice().len();
    let newest = board.newest.as_slice().len();
    let split = yes_or_no(board.split);
    format!(in alloc;
        "family {}: copies {copies}, newest {newest}, split {split}\n",
        board.family
    )
}

/// The table of a board, as text for people: a line about the family, a line of heads, and a line for each copy, in the
/// board's order. Each line ends with a newline, and the columns line up in a terminal. Where the width of one is given, in its
/// columns, places are cut in the middle so that the lines fit, but to no less than 12.
///
/// # Errors
///
/// `AllocError` where an allocation failed. Takes O(length of the table) time and memory.
#[tactic(auto, using(crate::proofs::Same::same_lines), unfolding(crate::specs::Table::table_text))]
pub fn print(
    alloc: Global,
    terminal: Option<usize>,
    board: &BoardView,
) -> Result<String, AllocError>
    ensures { IfOk result (λ text. string_bytes text ≡ table_text terminal board.now) }
{
    let rows = board.rows.as_slice();
    let widths = Widths::of(alloc, terminal, rows)?;
    let mut text = family_line(alloc, board)?;
    write_heads(&mut text, &widths)?;
    write_rows(alloc, &mut text, &widths, rows)?;
    Ok(text)
}
