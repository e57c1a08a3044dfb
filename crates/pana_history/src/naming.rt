//! The texts of a history's rows.
ghost use Rattle.std.specs.Prelude.{◌≡◌, ◌++◌, IfOk, codes, option_copied, string_bytes};
ghost use Rattle.pana_ask.specs.Place.{place_name};
ghost use Rattle.pana_history.specs.Rows.{copy_name, ending, entry_text, head_text, name_by, now_text, subject_text};

use crate::lane::{Lane, place_at};
use pana_ask::place_name;
use pana_copies::Place;
use pana_journal::{Entry, Report};
use std::alloc::{AllocError, Global};

/// A copy's place, or its number where it doesn't live.
fn name_by(alloc: Global, number: u64, place: Option<&Place>) -> Result<String, AllocError>
    ensures { IfOk result (λ name. string_bytes name ≡ name_by number (option_copied place.entry)) }
{
    match place {
        Some(place) => place_name(alloc, place),
        None => format!(in alloc; "copy {number}"),
    }
}

/// The same by the copy's lane.
fn copy_name(alloc: Global, lanes: &[Lane], number: u64) -> Result<String, AllocError>
    ensures { IfOk result (λ name. string_bytes name ≡ copy_name lanes.now number) }
{
    name_by(alloc, number, place_at(lanes, number))
}

/// Where a copy is now.
fn now_text(alloc: Global, place: Option<&Place>) -> Result<String, AllocError>
    ensures { IfOk result (λ name. string_bytes name ≡ now_text (option_copied place.entry)) }
{
    match place {
        Some(place) => place_name(alloc, place),
        None => String::from_str(alloc, "gone"),
    }
}

/// Two copies.
fn two_copies(alloc: Global, lanes: &[Lane], a: u64, b: u64) -> Result<String, AllocError>
    ensures { IfOk result (λ text. string_bytes text ≡ copy_name lanes.now a ++ (codes " and " ++ copy_name lanes.now b)) }
{
    let first = copy_name(alloc, lanes, a)?;
    let first = first.as_str();
    let second = copy_name(alloc, lanes, b)?;
    let second = second.as_str();
    format!(in alloc; "{first} and {second}")
}

/// A copy that is no more, and its heir.
fn copy_with_heir(
    alloc: Global,
    lanes: &[Lane],
    number: u64,
    heir: u64,
) -> Result<String, AllocError>
    ensures { IfOk result (λ text. string_bytes text ≡ copy_name lanes.now number ++ (codes " with heir " ++ copy_name lanes.now heir)) }
{
    let copy = copy_name(alloc, lanes, number)?;
    let copy = copy.as_str();
    let heir = copy_name(alloc, lanes, heir)?;
    let heir = heir.as_str();
    format!(in alloc; "{copy} with heir {heir}")
}

/// A copy that gets to a place.
fn copy_to(alloc: Global, lanes: &[Lane], number: u64, place: &Place) -> Result<String, AllocError>
    ensures { IfOk result (λ text. string_bytes text ≡ copy_name lanes.now number ++ (codes " to " ++ place_name place.now)) }
{
    let from = copy_name(alloc, lanes, number)?;
    let from = from.as_str();
    let to = place_name(alloc, place)?;
    let to = to.as_str();
    format!(in alloc; "{from} to {to}")
}

/// What a report is about.
fn subject_text(alloc: Global, lanes: &[Lane], report: &Report) -> Result<String, AllocError>
    ensures { IfOk result (λ text. string_bytes text ≡ subject_text lanes.now report.now) }
{
    match report {
        Report::Register { place, .. } => place_name(alloc, place),
        Report::Duplicate { copy, place, .. } => copy_to(alloc, lanes, *copy, place),
        Report::Relocate { copy, place } => copy_to(alloc, lanes, *copy, place),
        Report::Edit { copy, .. } | Report::Note { copy, .. } => copy_name(alloc, lanes, *copy),
        Report::Reconcile { a, b, .. } | Report::Merge { a, b, .. } => {
            two_copies(alloc, lanes, *a, *b)
        }
        Report::Remove { copy, heir: None } => copy_name(alloc, lanes, *copy),
        Report::Remove {
            copy,
            heir: Some(heir),
        } => copy_with_heir(alloc, lanes, *copy, *heir),
        Report::Confirm { entry } | Report::Withdraw { entry } => format!(in alloc; "{entry}"),
    }
}

/// That an entry is withdrawn, and by which.
fn ending(alloc: Global, withdrawal: Option<u64>) -> Result<String, AllocError>
    ensures { IfOk result (λ text. string_bytes text ≡ ending withdrawal) }
{
    match withdrawal {
        Some(number) => format!(in alloc; " (withdrawn by {number})"),
        None => Ok(String::new(alloc)),
    }
}

/// The text of an entry.
pub(crate) fn entry_text(
    alloc: Global,
    lanes: &[Lane],
    withdrawal: Option<u64>,
    entry: &Entry,
) -> Result<String, AllocError>
    ensures { IfOk result (λ text. string_bytes text ≡ entry_text lanes.now withdrawal entry.now) }
{
    let kind = entry.report.kind().name();
    let subject = subject_text(alloc, lanes, &entry.report)?;
    let subject = subject.as_str();
    let ending = ending(alloc, withdrawal)?;
    let ending = ending.as_str();
    format!(in alloc;
        "{} {kind} by {} of {subject}{ending}",
        entry.number,
        entry.by.as_str()
    )
}

/// The text that names a lane.
pub(crate) fn head_text(alloc: Global, lane: &Lane) -> Result<String, AllocError>
    ensures { IfOk result (λ text. string_bytes text ≡ head_text lane.now) }
{
    let now = now_text(alloc, lane.place.as_ref())?;
    let now = now.as_str();
    format!(in alloc; "copy {} {now}", lane.copy)
}
