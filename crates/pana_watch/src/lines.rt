//! The lines of entries.
ghost use Rattle.std.specs.Prelude.{◌≡◌, IfOk, string_bytes};
ghost use Rattle.pana_watch.specs.Line.{copies_text, copy_text, copy_to, entry_line, entry_lines, entry_text, removed_text, subject_text};

use pana_ask::place_name;
use pana_copies::Place;
use pana_journal::{Entry, Report};
use std::alloc::{AllocError, Global};

fn copy_text(alloc: Global, copy: u64) -> Result<String, AllocError>
    ensures { IfOk result (λ text. string_bytes text ≡ copy_text copy) }
{
    format!(in alloc; "copy {copy}")
}

fn copy_to(alloc: Global, copy: u64, place: &Place) -> Result<String, AllocError>
    ensures { IfOk result (λ text. string_bytes text ≡ copy_to copy place.now) }
{
    let place = place_name(alloc, place)?;
    format!(in alloc; "copy {copy} to {place}")
}

fn copies_text(alloc: Global, a: u64, b: u64) -> Result<String, AllocError>
    ensures { IfOk result (λ text. string_bytes text ≡ copies_text a b) }
{
    format!(in alloc; "copies {a} and {b}")
}

fn removed_text(alloc: Global, copy: u64, heir: Option<u64>) -> Result<String, AllocError>
    ensures { IfOk result (λ text. string_bytes text ≡ removed_text copy heir) }
{
    match heir {
        Some(heir) => format!(in alloc; "copy {copy}, heir {heir}"),
        None => copy_text(alloc, copy),
    }
}

fn entry_text(alloc: Global, entry: u64) -> Result<String, AllocError>
    ensures { IfOk result (λ text. string_bytes text ≡ entry_text entry) }
{
    format!(in alloc; "entry {entry}")
}

/// What a report is of.
fn subject_text(alloc: Global, report: &Report) -> Result<String, AllocError>
    ensures { IfOk result (λ text. string_bytes text ≡ subject_text report.now) }
{
    match report {
        Report::Register { place, .. } => place_name(alloc, place),
        Report::Duplicate { copy, place, .. } => copy_to(alloc, *copy, place),
        Report::Relocate { copy, place } => copy_to(alloc, *copy, place),
        Report::Edit { copy, .. } => copy_text(alloc, *copy),
        Report::Note { copy, .. } => copy_text(alloc, *copy),
        Report::Reconcile { a, b, .. } => copies_text(alloc, *a, *b),
        Report::Merge { a, b, .. } => copies_text(alloc, *a, *b),
        Report::Remove { copy, heir } => removed_text(alloc, *copy, *heir),
        Report::Confirm { entry } => entry_text(alloc, *entry),
        Report::Withdraw { entry } => entry_text(alloc, *entry),
    }
}

/// The line of an entry.
fn entry_line(alloc: Global, entry: &Entry) -> Result<String, AllocError>
    ensures { IfOk result (λ line. string_bytes line ≡ entry_line entry.now) }
{
    let kind = entry.report.kind().name();
    let subject = subject_text(alloc, &entry.report)?;
    format!(in alloc;
        "{} {kind} by {}: {subject}\n",
        entry.number,
        entry.by.as_str()
    )
}

/// A line for each entry, in order: its number, its kind, who reported it, and of what. Fails only where memory runs out.
pub fn entry_lines(alloc: Global, entries: &[Entry]) -> Result<String, AllocError>
    ensures { IfOk result (λ text. string_bytes text ≡ entry_lines entries.now) }
{
    let mut text = String::new(alloc);
    for entry in entries {
        text.push_str(entry_line(alloc, entry)?.as_str())?;
    }
    Ok(text)
}
