//! The widths of the columns of a board's table.
ghost use Rattle.std.specs.Prelude.{◌≡◌, IfOk, decimal};
ghost use Rattle.pana_report.specs.Columns.{widest, width as text_width};
ghost use Rattle.pana_report.specs.Table.{copy_text, place_limit, row_place};

use crate::fitting::LEAST;
use crate::place::place_width;
use itoa::Buffer;
use pana_calls::BoardRow;
use std::alloc::{AllocError, Global};

/// The width of a column of counts.
pub(crate) const COUNT: usize = 5;

/// The width of the column of conflicts.
pub(crate) const CONFLICT: usize = 8;

/// The width of the column of states.
pub(crate) const STATE: usize = 8;

/// The least width of the column of numbers, that of its head.
const LEAST_COPY: usize = 4;

/// The least width of the column of places, that of its head.
const LEAST_PLACE: usize = 5;

/// What the columns of states, counts and conflicts take, and the blanks between all.
const OTHERS: usize = 43;

/// The widths of the columns that are as wide as their widest text, and how many columns of a terminal a place may take.
#[derive(Drop)]
pub(crate) struct Widths {
    pub copy: usize,
    pub place: usize,
    pub most: Option<usize>,
}

/// The columns that a number takes: one for each digit.
#[tactic(auto, using(crate::proofs::Numbers::numbers_are_as_wide_as_long))]
fn number_width(number: u64) -> usize
    ensures { result ≡ text_width (decimal number) }
{
    let mut digits = Buffer::new();
    digits.format(number).len()
}

/// The width of the column of numbers: that of the longest, and at least that of its head. Takes no memory.
fn copy_width(rows: &[BoardRow]) -> usize
    ensures { result ≡ widest 4 copy_text rows.now }
{
    let mut width = LEAST_COPY;
    for row in rows {
        width = width.max(number_width(row.copy));
    }
    width
}

/// How many columns a place may take in a terminal of this width, where numbers take so many.
fn place_limit(terminal: Option<usize>, copy: usize) -> Option<usize>
    ensures { result ≡ place_limit terminal copy }
{
    match terminal {
        Some(columns) => {
            let left = columns.saturating_sub(OTHERS).saturating_sub(copy);
            Some(LEAST.max(left))
        }
        None => None,
    }
}

/// The width of the column of places: that of the widest, and at least that of its head.
fn places_width(alloc: Global, most: Option<usize>, rows: &[BoardRow]) -> Result<usize, AllocError>
    ensures { IfOk result (λ width. width ≡ widest 5 (row_place most) rows.now) }
{
    let mut width = LEAST_PLACE;
    for row in rows {
        width = width.max(place_width(alloc, most, &row.place)?);
    }
    Ok(width)
}

impl Widths {
    ghost use Rattle.pana_report.specs.inner.Lines.{widths_of};

    /// The widths for these copies, in a terminal of this width.
    #[tactic(auto, unfolding(crate::specs::inner::Lines::widths_of))]
    pub(crate) fn of(
        alloc: Global,
        terminal: Option<usize>,
        rows: &[BoardRow],
    ) -> Result<Widths, AllocError>
        ensures { IfOk result (λ widths. widths ≡ widths_of (place_limit terminal (widest 4 copy_text rows.now)) rows.now) }
    {
        let copy = copy_width(rows);
        let most = place_limit(terminal, copy);
        let place = places_width(alloc, most, rows)?;
        Ok(Widths { copy, place, most })
    }
}
