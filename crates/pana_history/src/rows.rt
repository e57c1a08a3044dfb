//! The rows of a file's history, by its entries.
ghost use Rattle.std.specs.Prelude.{◌≡◌, ◌<◌, ◌≤◌, ◌&&◌, ℕ, IfOk, is_none, map, if◌then◌else◌};
ghost use Rattle.pana_hall.specs.Accepted.{IsAccepted};
ghost use Rattle.pana_hall.specs.Effective.{is_of_copies};
ghost use Rattle.pana_hall.specs.Living.{changes};
ghost use Rattle.pana_history.specs.Lanes.{withdrawal_of};
ghost use Rattle.pana_history.specs.Rows.{entry_row, head_mark, head_row, head_rows, lives_after, mark_of, rows_of, sign_of, touches};
ghost use Rattle.pana_history.specs.inner.Lanes.{lanes_after};
ghost use Rattle.pana_history.specs.inner.Story.{IsStory, last_lanes, story_rows};
ghost use Rattle.pana_history.specs.inner.Withdrawals.{withdrawal_in};

use crate::families::own_entries;
use crate::lane::{Lane, empty_lanes, lanes_after, makes_copy};
use crate::mark::{Mark, Sign};
use crate::naming::{entry_text, head_text};
use crate::row::Row;
use crate::withdrawal::{withdrawal_in, withdrawals_of};
use pana_journal::{Entry, EntryList, Report};
use std::alloc::{AllocError, Global};

/// The rows of a file's entries, and its lanes behind them.
#[derive(Drop)]
struct Story {
    rows: Vec<Row>,
    lanes: Vec<Lane>,
}

/// Whether a report changes or removes the copy with this number.
fn changes(report: &Report, number: u64) -> bool
    ensures { result ≡ changes report.now number }
{
    match report {
        Report::Edit { copy, .. }
        | Report::Relocate { copy, .. }
        | Report::Remove { copy, .. }
        | Report::Note { copy, .. } => number == *copy,
        Report::Reconcile { a, b, .. } | Report::Merge { a, b, .. } => number == *a || number == *b,
        _ => false,
    }
}

/// Whether an entry makes or changes the copy with this number.
fn touches(entry: &Entry, number: u64) -> bool
    ensures { result ≡ touches entry.now number }
{
    (makes_copy(&entry.report) && number == entry.number) || changes(&entry.report, number)
}

/// Whether it is a report of copies.
fn is_of_copies(report: &Report) -> bool
    ensures { result ≡ is_of_copies report.now }
{
    !matches!(report, Report::Confirm { .. } | Report::Withdraw { .. })
}

/// Whether a copy lives behind the report of entry `n`, where it did before it or not.
fn lives_after(n: u64, report: &Report, copy: u64, lived: bool) -> bool
    ensures { result ≡ lives_after n report.now copy lived }
{
    match report {
        Report::Register { .. } | Report::Duplicate { .. } => copy == n || lived,
        Report::Remove { copy: removed, .. } => copy != *removed && lived,
        _ => lived,
    }
}

/// What an entry draws over a copy's lane.
fn sign_of(is_withdrawn: bool, entry: &Entry, number: u64) -> Sign
    ensures { result ≡ sign_of is_withdrawn entry.now number }
{
    if !touches(entry, number) {
        Sign::Plain
    } else if is_withdrawn {
        Sign::Struck
    } else {
        Sign::Touched
    }
}

/// The mark of an entry in a lane; one that is withdrawn changes nothing.
fn mark_of(is_withdrawn: bool, entry: &Entry, lane: &Lane) -> Mark
    ensures { result ≡ mark_of is_withdrawn entry.now lane.now }
{
    let lives = lane.place.is_some();
    Mark {
        lives_before: lives,
        lives_after: if is_withdrawn {
            lives
        } else {
            lives_after(entry.number, &entry.report, lane.copy, lives)
        },
        sign: sign_of(is_withdrawn, entry, lane.copy),
    }
}

/// The marks of an entry.
fn marks_of(
    alloc: Global,
    is_withdrawn: bool,
    entry: &Entry,
    lanes: &[Lane],
) -> Result<Vec<Mark>, AllocError>
    ensures { IfOk result (λ marks. marks.items ≡ map (mark_of is_withdrawn entry.now) lanes.now) }
{
    lanes
        .iter()
        .map(|lane| mark_of(is_withdrawn, entry, lane))
        .collect(alloc)
}

/// The row of an entry, by the lanes before it and the entry that withdraws it.
fn entry_row(
    alloc: Global,
    lanes: &[Lane],
    withdrawal: Option<u64>,
    entry: &Entry,
) -> Result<Row, AllocError>
    ensures { IfOk result (λ row. row ≡ entry_row lanes.now withdrawal entry.now) }
{
    let is_withdrawn = withdrawal.is_some();
    let marks = marks_of(alloc, is_withdrawn, entry, lanes)?;
    let text = entry_text(alloc, lanes, withdrawal, entry)?;
    Ok(Row::new(marks, text, is_withdrawn))
}

/// The mark in a lane of the row that names the lane of this copy.
fn head_mark(number: u64, lane: &Lane) -> Mark
    ensures { result ≡ head_mark number lane.now }
{
    Mark {
        lives_before: false,
        lives_after: false,
        sign: if lane.copy == number {
            Sign::Named
        } else {
            Sign::Plain
        },
    }
}

/// The marks of the row that names a lane.
fn head_marks(alloc: Global, number: u64, lanes: &[Lane]) -> Result<Vec<Mark>, AllocError>
    ensures { IfOk result (λ marks. marks.items ≡ map (head_mark number) lanes.now) }
{
    lanes
        .iter()
        .map(|lane| head_mark(number, lane))
        .collect(alloc)
}

/// The row that names a lane.
fn head_row(alloc: Global, lanes: &[Lane], lane: &Lane) -> Result<Row, AllocError>
    ensures { IfOk result (λ row. row ≡ head_row lanes.now lane.now) }
{
    let marks = head_marks(alloc, lane.copy, lanes)?;
    let text = head_text(alloc, lane)?;
    Ok(Row::new(marks, text, false))
}

/// A row for each lane.
fn head_rows(alloc: Global, lanes: &[Lane]) -> Result<Vec<Row>, AllocError>
    ensures { IfOk result (λ rows. rows.items ≡ head_rows lanes.now) }
{
    let mut rows = Vec::new(alloc);
    for lane in lanes {
        rows.push(head_row(alloc, lanes, lane)?)?;
    }
    Ok(rows)
}

/// The lanes behind an entry, by those before it and the entry that withdraws it.
fn lanes_behind(
    alloc: Global,
    lanes: Vec<Lane>,
    withdrawal: Option<u64>,
    entry: &Entry,
) -> Result<Vec<Lane>, AllocError>
    ensures { IfOk result (λ after. after.items ≡ (if is_of_copies entry.now.report && is_none withdrawal then lanes_after entry.now.number entry.now.report lanes.items else lanes.items)) }
{
    if is_of_copies(&entry.report) && withdrawal.is_none() {
        lanes_after(alloc, lanes, entry)
    } else {
        Ok(lanes)
    }
}

/// The rows of a file's entries, by the table of their withdrawals.
fn story_of(
    alloc: Global,
    own: &[Entry],
    last: usize,
    withdrawals: &[Option<u64>],
) -> Result<Story, AllocError>
    requires story { IsStory last own.now }
    requires withdrawals { (n : ℕ) → 0 < n → n ≤ last → withdrawal_in withdrawals.now n ≡ withdrawal_of own.now n }
    ensures rows { IfOk result (λ story. story.rows.items ≡ story_rows own.now) }
    ensures lanes { IfOk result (λ story. story.lanes.items ≡ last_lanes own.now) }
{
    let mut lanes = empty_lanes(alloc, own)?;
    let mut rows = Vec::new(alloc);
    for entry in own {
        let withdrawal = withdrawal_in(withdrawals, entry.number);
        rows.push(entry_row(alloc, lanes.as_slice(), withdrawal, entry)?)?;
        lanes = lanes_behind(alloc, lanes, withdrawal, entry)?;
    }
    Ok(Story { rows, lanes })
}

/// The rows of a file's history: one that names each lane, and one for each of its entries. The journal is one that refuses none of
/// its entries, as that of a hall.
///
/// It takes memory for a mark in each lane of each row. Fails only where memory runs out.
pub(crate) fn rows_of(
    alloc: Global,
    journal: EntryList,
    family: u64,
) -> Result<Vec<Row>, AllocError>
    requires { IsAccepted 8 journal }
    ensures { IfOk result (λ rows. rows.items ≡ rows_of journal family) }
{
    let last = journal.as_slice().len();
    let own = own_entries(alloc, journal, family)?;
    let withdrawals = withdrawals_of(alloc, own.as_slice(), last)?;
    let mut story = story_of(alloc, own.as_slice(), last, withdrawals.as_slice())?;
    let mut rows = head_rows(alloc, story.lanes.as_slice())?;
    rows.append(&mut story.rows)?;
    Ok(rows)
}
