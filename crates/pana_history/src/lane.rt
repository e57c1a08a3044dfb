//! The lanes of a file's history, as its entries come.
ghost use Rattle.std.specs.Prelude.{◌≡◌, IfOk, map, option_copied};
ghost use Rattle.pana_history.specs.Lanes.{made_by, makes_copy};
ghost use Rattle.pana_history.specs.Rows.{place_at};
ghost use Rattle.pana_history.specs.inner.Lanes.{empty_lane, lanes_after, put};

use pana_copies::Place;
use pana_journal::{Entry, Report};
use std::alloc::{AllocError, Global};

/// A copy of the file, and where it is, if it lives.
#[derive(Drop)]
pub(crate) struct Lane {
    pub(crate) copy: u64,
    pub(crate) place: Option<Place>,
}

/// Whether a report makes a copy.
pub(crate) fn makes_copy(report: &Report) -> bool
    ensures { result ≡ makes_copy report.now }
{
    matches!(report, Report::Register { .. } | Report::Duplicate { .. })
}

/// A lane for each copy that the entries make; none of the copies lives yet.
pub(crate) fn empty_lanes(alloc: Global, own: &[Entry]) -> Result<Vec<Lane>, AllocError>
    ensures { IfOk result (λ lanes. lanes.items ≡ map empty_lane (made_by own.now)) }
{
    let mut lanes = Vec::new(alloc);
    for entry in own {
        if makes_copy(&entry.report) {
            lanes.push(Lane {
                copy: entry.number,
                place: None,
            })?;
        }
    }
    Ok(lanes)
}

/// Where the copy with this number is, by its lane.
pub(crate) fn place_at(lanes: &[Lane], number: u64) -> Option<&Place>
    ensures { option_copied result ≡ place_at lanes.now number }
{
    for lane in lanes {
        if lane.copy == number {
            return lane.place.as_ref();
        }
    }
    None
}

/// The place once more, if there is one.
fn copy_of(place: Option<&Place>) -> Result<Option<Place>, AllocError>
    ensures { IfOk result (λ copy. copy ≡ option_copied place.entry) }
{
    match place {
        Some(place) => Ok(Some(place.copy_of()?)),
        None => Ok(None),
    }
}

/// The lane, where the copy with this number is put at a place or taken away.
fn put(lane: Lane, number: u64, place: Option<&Place>) -> Result<Lane, AllocError>
    ensures { IfOk result (λ lane'. lane' ≡ put number (option_copied place.entry) lane) }
{
    if lane.copy == number {
        Ok(Lane {
            copy: number,
            place: copy_of(place)?,
        })
    } else {
        Ok(lane)
    }
}

/// The lanes, where the copy with this number is put at a place or taken away.
fn put_in(
    alloc: Global,
    lanes: Vec<Lane>,
    number: u64,
    place: Option<&Place>,
) -> Result<Vec<Lane>, AllocError>
    ensures { IfOk result (λ after. after.items ≡ map (put number (option_copied place.entry)) lanes.items) }
{
    let mut after = Vec::with_capacity(alloc, lanes.len())?;
    for lane in lanes {
        after.push(put(lane, number, place)?)?;
    }
    Ok(after)
}

/// The lanes behind an entry that counts, by those before it.
pub(crate) fn lanes_after(
    alloc: Global,
    lanes: Vec<Lane>,
    entry: &Entry,
) -> Result<Vec<Lane>, AllocError>
    ensures { IfOk result (λ after. after.items ≡ lanes_after entry.now.number entry.now.report lanes.items) }
{
    match &entry.report {
        Report::Register { place, .. } | Report::Duplicate { place, .. } => {
            put_in(alloc, lanes, entry.number, Some(place))
        }
        Report::Relocate { copy, place } => put_in(alloc, lanes, *copy, Some(place)),
        Report::Remove { copy, .. } => put_in(alloc, lanes, *copy, None),
        _ => Ok(lanes),
    }
}
