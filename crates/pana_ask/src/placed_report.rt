//! Reports of copies that are named by their places.
ghost use Rattle.std.specs.Prelude.{◌≡◌};
ghost use Rattle.pana_ask.specs.Report.{first_device, one_report, two_report};

use pana_calls::{Call, Sighting};
use pana_copies::{DeviceName, Place, Sum};
use pana_journal::Report;

/// What is reported of one copy. A sum is that of the bytes which the copies that the report is about hold from then on, where it
/// is known.
#[derive(Drop)]
pub enum OneCopyReport {
    /// It was changed.
    Edit { sum: Option<Sum> },
    /// It was copied to this place.
    Duplicate { place: Place, sum: Option<Sum> },
    /// It was moved to this place.
    Relocate { place: Place },
    /// It is no more, and has no heir.
    Remove,
    /// It holds bytes with this sum.
    Note { sum: Sum },
}

/// What is reported of two copies.
#[derive(Drop)]
pub enum TwoCopyReport {
    /// Each got what the other knows.
    Reconcile { sum: Option<Sum> },
    /// They were merged into one text.
    Merge { sum: Option<Sum> },
    /// The first is no more, and the second is its heir.
    RemoveFor,
}

/// What is reported of copies that are named by their places.
#[derive(Drop)]
pub enum PlacedReport {
    /// A call that needs no number of a copy: `register`, `confirm`, `withdraw`, `found`, `missing`.
    Direct(Call),
    /// Something of the copy at this place.
    One(Place, OneCopyReport),
    /// Something of the copies at these places.
    Two(Place, Place, TwoCopyReport),
}

impl OneCopyReport {
    /// The report of the copy with this number. Takes no memory.
    pub fn report(self, copy: u64) -> Report
        ensures { result ≡ one_report self copy }
    {
        match self {
            OneCopyReport::Edit { sum } => Report::Edit { copy, sum },
            OneCopyReport::Duplicate { place, sum } => Report::Duplicate { copy, place, sum },
            OneCopyReport::Relocate { place } => Report::Relocate { copy, place },
            OneCopyReport::Remove => Report::Remove { copy, heir: None },
            OneCopyReport::Note { sum } => Report::Note { copy, sum },
        }
    }
}

impl TwoCopyReport {
    /// The report of the copies with these numbers. Takes no memory.
    pub fn report(self, a: u64, b: u64) -> Report
        ensures { result ≡ two_report self a b }
    {
        match self {
            TwoCopyReport::Reconcile { sum } => Report::Reconcile { a, b, sum },
            TwoCopyReport::Merge { sum } => Report::Merge { a, b, sum },
            TwoCopyReport::RemoveFor => Report::Remove {
                copy: a,
                heir: Some(b),
            },
        }
    }
}

impl PlacedReport {
    /// The device of the first place that the report names, where it names one. Takes no memory.
    pub fn device(&self) -> Option<DeviceName>
        ensures { result ≡ first_device self.now }
    {
        match self {
            PlacedReport::Direct(Call::Report(Report::Register { place, .. }))
            | PlacedReport::Direct(
                Call::Sighting(Sighting::Found { place, .. } | Sighting::Missing { place }),
            )
            | PlacedReport::One(place, _)
            | PlacedReport::Two(place, _, _) => Some(place.device.copy_of()),
            PlacedReport::Direct(_) => None,
        }
    }
}
