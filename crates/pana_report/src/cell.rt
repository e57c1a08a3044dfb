//! Cells: texts with blanks up to the width of their column.
ghost use Rattle.std.specs.Prelude.{◌≡◌, ◌++◌, OnOk, string_bytes};
ghost use Rattle.pana_report.specs.Columns.{blanks, cell};

use crate::width::text_width;
use std::alloc::AllocError;

/// Blanks that are appended at once.
const BLANKS: &str = "                                ";

/// The side of a column to which its texts go.
#[derive(Clone, Copy, PartialEq, Eq)]
pub(crate) enum Alignment {
    Left,
    Right,
}

/// Appends so many blanks.
fn write_blanks(text: &mut String, count: usize) -> Result<(), AllocError>
    ensures { OnOk result (string_bytes text.new ≡ string_bytes text.old ++ blanks count) }
{
    let mut left = count;
    while left > BLANKS.len() {
        text.push_str(BLANKS)?;
        left -= BLANKS.len();
    }
    text.push_str(&BLANKS[..left])
}

/// Appends the content on its side of a column, with blanks up to the column's width.
#[tactic(auto, unfolding(crate::specs::Columns::cell))]
pub(crate) fn write_cell(
    text: &mut String,
    side: Alignment,
    column: usize,
    content: &str,
) -> Result<(), AllocError>
    ensures { OnOk result (string_bytes text.new ≡ string_bytes text.old ++ cell side column content.now) }
{
    let missing = column.saturating_sub(text_width(content));
    match side {
        Alignment::Left => {
            text.push_str(content)?;
            write_blanks(text, missing)
        }
        Alignment::Right => {
            write_blanks(text, missing)?;
            text.push_str(content)
        }
    }
}

/// Appends two blanks, and the cell behind them.
pub(crate) fn write_next(
    text: &mut String,
    side: Alignment,
    column: usize,
    content: &str,
) -> Result<(), AllocError>
    ensures { OnOk result (string_bytes text.new ≡ string_bytes text.old ++ (blanks 2 ++ cell side column content.now)) }
{
    text.push_str("  ")?;
    write_cell(text, side, column, content)
}
