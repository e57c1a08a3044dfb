//! What reports do to a family and to the table of copies: the memory for it first, and then the change, which can't fail.
ghost use Rattle.std.specs.Prelude.{◌≡◌, ℕ, ◌<◌, Some, IfOk, IfSome, IsSome, option_map, option_and_then};
ghost use Rattle.pana_copies.specs.Spots.{kept, place_of};
ghost use Rattle.pana_family.specs.{Rows.AreBefore, Report.CanReport};
ghost use Rattle.pana_family.specs.declared.report.FamilyReport.{FamilyReport as OfFamily};
ghost use Rattle.pana_hall.specs.{Family.family_report, Refusal.displaced, inner.Undo.earlier_of, inner.Undo.last_place, inner.Undo.reported_kept, inner.Undo.withdrawn};
ghost use Rattle.pana_hall.specs.{inner.Listed.IsGrown, inner.Listed.IsPreparedAfter, inner.Listed.IsPreparedFor, inner.Listed.listed};
ghost use Rattle.pana_hall.specs.inner.Contents.{content_at, first_said, second_said};
ghost use Rattle.pana_hall.specs.inner.Spots.{CanPlace, CanUndo, place_in, spot_after, undone_spot};
ghost use Rattle.pana_hall.specs.inner.Next.{HasRoomFor};

use crate::contents::{Contents, first_said, second_said};
use crate::families::family_report;
use crate::listed_family::ListedFamily;
use crate::refusal::displaced;
use crate::undo::Before;
use pana_copies::{CopyTable, Place};
use pana_family::Change;
use pana_journal::Report;
use std::alloc::{AllocError, Global};

/// The place that a report gives a copy, if it does.
fn place_in(report: &Report) -> Result<Option<Place>, AllocError>
    ensures { IfOk result (λ place. place ≡ place_in report.now) }
{
    match report {
        Report::Register { place, .. }
        | Report::Duplicate { place, .. }
        | Report::Relocate { place, .. } => Ok(Some(place.copy_of()?)),
        _ => Ok(None),
    }
}

/// The entry that says what a copy holds, if there is a copy.
pub fn said_by(contents: &Contents, copy: Option<u64>) -> Option<u32>
    ensures { result ≡ option_and_then (content_at contents.now.entries.items) copy }
{
    contents.of(copy?)
}

/// What is before the report of an entry.
pub fn before(
    alloc: Global,
    copies: &CopyTable,
    contents: &Contents,
    entry: u64,
    report: &Report,
) -> Result<Before, AllocError>
    requires { IfSome (displaced report.now) (λ copy. IsSome (kept copies.now copy)) }
    ensures place { IfOk result (λ before. option_map (λ p. p.value) before.place ≡ option_and_then (place_of copies.now) (displaced report.now)) }
    ensures first { IfOk result (λ before. before.first ≡ option_and_then (content_at contents.now.entries.items) (first_said entry report.now)) }
    ensures second { IfOk result (λ before. before.second ≡ option_and_then (content_at contents.now.entries.items) (second_said report.now)) }
{
    Ok(Before {
        place: place_before(alloc, copies, report)?,
        first: said_by(contents, first_said(entry, report)),
        second: said_by(contents, second_said(report)),
    })
}

/// The place where the copy is kept that a report moves or removes, if it does.
fn place_before(
    alloc: Global,
    copies: &CopyTable,
    report: &Report,
) -> Result<Option<Box<Place>>, AllocError>
    requires { IfSome (displaced report.now) (λ copy. IsSome (kept copies.now copy)) }
    ensures { IfOk result (λ place. option_map (λ p. p.value) place ≡ option_and_then (place_of copies.now) (displaced report.now)) }
{
    match displaced(report) {
        Some(copy) => {
            let place = copies.get(copy).unwrap().place.copy_of()?;
            Ok(Some(Box::new(alloc, place)?))
        }
        None => Ok(None),
    }
}

/// Keeps the copy that a report makes or moves at the place that it gives it, and the one that it removes no longer. Takes no
/// memory.
fn place_copy(
    copies: &mut CopyTable,
    entry: u64,
    family: u64,
    report: &Report,
    place: Option<Place>,
)
    requires room { HasRoomFor report.now copies.old }
    requires can { CanPlace entry report.now family copies.old }
    requires place { place ≡ place_in report.now }
    ensures { (number : ℕ) → kept copies.new number ≡ spot_after entry report.now (kept copies.old) number }
{
    match (report, place) {
        (Report::Register { .. } | Report::Duplicate { .. }, Some(place)) => {
            copies.insert(entry, family, place)
        }
        (Report::Relocate { copy, .. }, Some(place)) => drop(copies.relocate(*copy, place)),
        (Report::Remove { copy, .. }, place) => {
            drop(copies.remove(*copy));
            drop(place);
        }
        (_, place) => drop(place),
    }
}

/// Takes the memory for what the next entry reports of copies of a family that has begun: the change of the family, and the place
/// that the report gives a copy.
pub fn prepare_change(
    alloc: Global,
    it: &mut ListedFamily,
    entry: u64,
    report: &Report,
) -> Result<(Change, Option<Place>), AllocError>
    requires able { (of : OfFamily) × (family_report report.now ≡ Some of) × CanReport of (listed it.old).rows }
    requires new { AreBefore entry (listed it.old).rows }
    ensures same { listed it.new ≡ listed it.old }
    ensures change { IfOk result (λ made. (of : OfFamily) × (family_report report.now ≡ Some of) × IsPreparedFor entry of made.0 it.new) }
    ensures place { IfOk result (λ made. made.1 ≡ place_in report.now) }
{
    let of_family = family_report(report).unwrap();
    let place = place_in(report)?;
    match it.prepare(alloc, entry, of_family) {
        Ok(change) => Ok((change, place)),
        Err(_) => {
            drop(place);
            Err(AllocError)
        }
    }
}

/// Records what the next entry reports of copies of a family that has begun, as `prepare_change` prepared it. Takes no memory.
pub fn apply_change(
    it: &mut ListedFamily,
    copies: &mut CopyTable,
    entry: u64,
    report: &Report,
    change: Change,
    place: Option<Place>,
    before: Before,
)
    requires change { (of : OfFamily) × (family_report report.now ≡ Some of) × IsPreparedFor entry of change it.old }
    requires place { place ≡ place_in report.now }
    requires can { CanPlace entry report.now (listed it.old).number copies.old }
    requires room { HasRoomFor report.now copies.old }
    ensures family { IfSome (family_report report.now)
        (λ of. listed it.new ≡ reported_kept entry of (earlier_of before) (listed it.old)) }
    ensures behind { (of second : OfFamily) (next : ℕ) (other : Change) → family_report report.now ≡ Some of → IsPreparedAfter entry of next second other it.old → IsPreparedFor next second other it.new }
    ensures spots { (number : ℕ) → kept copies.new number ≡ spot_after entry report.now (kept copies.old) number }
{
    let family = it.number();
    it.apply(entry, family_report(report).unwrap(), change, before);
    place_copy(copies, entry, family, report, place);
}

/// Undoes the last pending entry, which is this one, with this report. Takes no memory.
pub fn withdraw(it: &mut ListedFamily, copies: &mut CopyTable, entry: u64, report: &Report)
    requires grown { IsGrown it.old }
    requires undo { CanUndo entry report.now (listed it.old).number (last_place (listed it.old).undo) copies.old }
    requires room { 0 < copies.old.room }
    ensures family { listed it.new ≡ withdrawn (listed it.old) }
    ensures spots { (number : ℕ) → kept copies.new number
        ≡ undone_spot entry report.now (listed it.old).number (last_place (listed it.old).undo) copies.old number }
{
    let family = it.number();
    let place = it.withdraw();
    match report {
        Report::Register { .. } | Report::Duplicate { .. } => {
            drop(copies.remove(entry));
            drop(place);
        }
        Report::Relocate { copy, .. } => drop(copies.relocate(*copy, place.unwrap())),
        Report::Remove { copy, .. } => copies.insert(*copy, family, place.unwrap()),
        _ => drop(place),
    }
}
