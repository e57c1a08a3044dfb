//! Rows as lines of text.
ghost use Rattle.std.specs.Prelude.{◌≡◌, ◌++◌, IfOk, OnOk, string_bytes};
ghost use Rattle.pana_history.specs.Text.{graph_text, mark_text, row_line};

use crate::mark::{Mark, Sign};
use crate::row::Row;
use std::alloc::{AllocError, Global};

/// A mark as a character, and a blank.
fn mark_text(mark: Mark) -> &'static str
    ensures { result.now ≡ mark_text mark }
{
    match mark.sign {
        Sign::Named => "o ",
        Sign::Touched => "* ",
        Sign::Struck => "x ",
        Sign::Plain if mark.lives_before => "| ",
        Sign::Plain => "  ",
    }
}

/// Appends the line of a row.
fn push_line(text: &mut String, row: &Row) -> Result<(), AllocError>
    ensures { OnOk result (string_bytes text.new ≡ string_bytes text.old ++ row_line row.now) }
{
    for mark in row.marks() {
        text.push_str(mark_text(*mark))?;
    }
    text.push_str(" ")?;
    text.push_str(row.text())?;
    text.push_str("\n")
}

/// The rows as lines of text.
pub(crate) fn graph_text(alloc: Global, rows: &[Row]) -> Result<String, AllocError>
    ensures { IfOk result (λ text. string_bytes text ≡ graph_text rows.now) }
{
    let mut text = String::new(alloc);
    for row in rows {
        push_line(&mut text, row)?;
    }
    Ok(text)
}
