//! The families that have begun.
ghost use Rattle.std.specs.Prelude.{◌≡◌, ◌≤◌, [], option_copied, option_map};
ghost use Rattle.pana_hall.specs.{Family.family_report, inner.Families.family_at, inner.Families.position_at};
ghost use Rattle.pana_hall.specs.{inner.Listed.all_listed, inner.Listed.listed, inner.Kept.position_for};

use crate::listed_family::ListedFamily;
use pana_family::FamilyReport;
use pana_journal::Report;
use std::alloc::Global;

/// The families that have begun, by rising number, and for each entry of the journal the position of its family.
pub struct Families {
    pub list: Vec<ListedFamily>,
    pub positions: Vec<u32>,
}

impl Drop for Families {
    fn drop(self) {
        let Families {
            list: _,
            positions: _,
        } = self;
    }
}

impl Families {
    /// No family, of no entry. Takes no memory.
    pub fn new(alloc: Global) -> Families
        ensures list { result.list.items ≡ [] }
        ensures positions { result.positions.items ≡ [] }
    {
        Families {
            list: Vec::new(alloc),
            positions: Vec::new(alloc),
        }
    }

    /// The families in order. Takes no memory.
    pub fn as_slice(&self) -> &[ListedFamily]
        ensures { result.now ≡ self.now.list.items }
    {
        self.list.as_slice()
    }

    /// The position of the family of an entry, if there is such an entry. Takes no memory.
    pub fn position_of(&self, number: u64) -> Option<usize>
        ensures { result ≡ position_at self.now.positions.items number }
    {
        let position = self.positions.get(number.checked_sub(1)? as usize)?;
        Some(*position as usize)
    }

    /// The position for the family of a report: that of its subject's, or for a Register the next one. Takes no memory.
    pub fn position_for(&self, report: &Report) -> Option<usize>
        ensures { result ≡ position_for (all_listed self.now.list.items) self.now.positions.items report.now }
    {
        match report.subject() {
            Some(number) => self.position_of(number),
            None => Some(self.list.as_slice().len()),
        }
    }

    /// The family of an entry, if there is such an entry. Takes no memory.
    pub fn of_entry(&self, number: u64) -> Option<&ListedFamily>
        ensures { option_map listed (option_copied result) ≡ family_at (all_listed self.now.list.items) self.now.positions.items number }
    {
        self.list.get(self.position_of(number)?)
    }
}

/// The position of a family as it is kept for an entry.
pub fn kept_position(position: usize) -> u32
    requires { position ≤ 1000000 }
    ensures { result ≡ position }
{
    position as u32
}

/// What a report says of copies of a family that has begun, if it does.
pub fn family_report(report: &Report) -> Option<FamilyReport>
    ensures { result ≡ family_report report.now }
{
    match report {
        Report::Duplicate { copy, .. } => Some(FamilyReport::Duplicate(*copy)),
        Report::Edit { copy, .. } => Some(FamilyReport::Edit(*copy)),
        Report::Reconcile { a, b, .. } => Some(FamilyReport::Reconcile(*a, *b)),
        Report::Merge { a, b, .. } => Some(FamilyReport::Merge(*a, *b)),
        Report::Relocate { copy, .. } | Report::Note { copy, .. } => {
            Some(FamilyReport::Touch(*copy))
        }
        Report::Remove { copy, heir } => Some(FamilyReport::Remove(*copy, *heir)),
        Report::Register { .. } | Report::Confirm { .. } | Report::Withdraw { .. } => None,
    }
}
