//! How wide the places in the table of what is obsolete or in conflict may be.
ghost use Rattle.std.specs.Prelude.{◌≡◌, ◌-◌, None, IfOk};
ghost use Rattle.pana_report.specs.Columns.{place_text, widest};
ghost use Rattle.pana_report.specs.Status.{copy_place, left_for, limits_of, newest_place, others_width, places_width, words_of, words_width};

use crate::fitting::share;
use crate::place::place_width;
use pana_calls::{CopyState, PlacedCopy, StatusRow};
use std::alloc::{AllocError, Global};

/// The least width of the column of places, that of its head.
const LEAST_COPY: usize = 4;

/// The width of the last head.
const LAST_HEAD: usize = 10;

/// What the column of states takes, and the blanks between the columns.
const OTHERS: usize = 12;

/// How many columns of a terminal the place of a copy may take, and that of the other one; where there is none, any number.
#[derive(Drop)]
pub(crate) struct Limits {
    pub copy: Option<usize>,
    pub other: Option<usize>,
}

/// The width of the words before the other place.
fn words_width(state: CopyState) -> usize
    ensures { result ≡ words_width state }
{
    match state {
        CopyState::Newest => 0,
        CopyState::Obsolete => 5,
        CopyState::Conflict => 11,
    }
}

/// That of the longest of these words.
fn words_of(rows: &[StatusRow]) -> usize
    ensures { result ≡ words_of rows.now }
{
    let mut words = 0;
    for row in rows {
        words = words.max(words_width(row.state));
    }
    words
}

/// The width of the widest place of these rows, and at least that of the head.
fn rows_width(alloc: Global, most: Option<usize>, rows: &[StatusRow]) -> Result<usize, AllocError>
    ensures { IfOk result (λ width. width ≡ widest 4 (copy_place most) rows.now) }
{
    let mut width = LEAST_COPY;
    for row in rows {
        width = width.max(place_width(alloc, most, &row.place)?);
    }
    Ok(width)
}

/// The width of the widest place of these copies, and at least so much.
fn newest_width(
    alloc: Global,
    most: Option<usize>,
    least: usize,
    newest: &[PlacedCopy],
) -> Result<usize, AllocError>
    ensures { IfOk result (λ width. width ≡ widest least (newest_place most) newest.now) }
{
    let mut width = least;
    for copy in newest {
        width = width.max(place_width(alloc, most, &copy.place)?);
    }
    Ok(width)
}

/// The width of the column of places.
pub(crate) fn places_width(
    alloc: Global,
    most: Option<usize>,
    rows: &[StatusRow],
    newest: &[PlacedCopy],
) -> Result<usize, AllocError>
    ensures { IfOk result (λ width. width ≡ places_width most rows.now newest.now) }
{
    let width = rows_width(alloc, most, rows)?;
    newest_width(alloc, most, width, newest)
}

/// The width of the widest other place, and at least so much.
#[tactic(auto, unfolding(crate::specs::Fitted::fitted))]
fn others_width(alloc: Global, least: usize, rows: &[StatusRow]) -> Result<usize, AllocError>
    ensures { IfOk result (λ width. width ≡ widest least (λ row. place_text row.with.place) rows.now) }
{
    let mut width = least;
    for row in rows {
        width = width.max(place_width(alloc, None, &row.with.place)?);
    }
    Ok(width)
}

impl Limits {
    /// Those of a table of these copies in a terminal of this width. Without one nothing is cut.
    pub(crate) fn of(
        alloc: Global,
        terminal: Option<usize>,
        rows: &[StatusRow],
        newest: &[PlacedCopy],
    ) -> Result<Limits, AllocError>
        ensures { IfOk result (λ limits. limits ≡ limits_of terminal rows.now newest.now) }
    {
        let Some(columns) = terminal else {
            return Ok(Limits {
                copy: None,
                other: None,
            });
        };
        let words = words_of(rows);
        let left = columns.saturating_sub(OTHERS).saturating_sub(words);
        let copies = places_width(alloc, None, rows, newest)?;
        let others = others_width(alloc, LAST_HEAD.saturating_sub(words), rows)?;
        Ok(Limits {
            copy: Some(share(left, others)),
            other: Some(share(left, copies)),
        })
    }
}
