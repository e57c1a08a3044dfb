//! The entries of one family that count.
ghost use Rattle.std.specs.Prelude.{◌≡◌, ◌++◌, [], ◌∷◌, IfOk, filter, not, ◌==◌, if◌then◌else◌};
ghost use Rattle.pana_hall.specs.Accepted.{IsAccepted};
ghost use Rattle.pana_hall.specs.Family.{begun_or_joined};
ghost use Rattle.pana_journal.specs.Reports.{subject};
ghost use Rattle.pana_history.specs.Lacking.{family_entries};
ghost use Rattle.pana_history.specs.Lanes.{own_entries};
ghost use Rattle.pana_history.specs.inner.Families.{family_in, with_next};

use pana_journal::{Entry, EntryList, Report};
use std::alloc::{AllocError, Global};

/// The family of each entry so far, by the entry's number from 1.
#[derive(Drop)]
struct FamilyTable {
    families: Vec<u64>,
}

impl FamilyTable {
    /// The family of the entry with this number; of one that isn't there, the number itself.
    fn family_of(&self, number: u64) -> u64
        ensures { result ≡ family_in self.now.families.items number }
    {
        match number.checked_sub(1) {
            Some(index) => self.families.get(index as usize).copied().unwrap_or(number),
            None => number,
        }
    }

    /// Takes the next entry, and returns its family.
    fn take(&mut self, entry: &Entry) -> Result<u64, AllocError>
        ensures family { IfOk result (λ family. family ≡ begun_or_joined (family_in self.old.families.items) entry.now.number (subject entry.now.report)) }
        ensures more { IfOk result (λ family. self.new.families.items ≡ self.old.families.items ++ family ∷ []) }
    {
        let family = match entry.report.subject() {
            Some(number) => self.family_of(number),
            None => entry.number,
        };
        self.families.push(family)?;
        Ok(family)
    }
}

/// The entries but the one with this number.
fn without(alloc: Global, entries: Vec<Entry>, number: u64) -> Result<Vec<Entry>, AllocError>
    ensures { IfOk result (λ left. left.items ≡ filter (λ entry. not (number == entry.number)) entries.items) }
{
    entries
        .into_iter()
        .filter(|entry| number != entry.number)
        .collect(alloc)
}

/// The entries, and this one behind them, if it is one of them.
fn with_entry(mut entries: Vec<Entry>, entry: Entry, is_own: bool) -> Result<Vec<Entry>, AllocError>
    ensures { IfOk result (λ more. more.items ≡ (if is_own then entries.items ++ entry ∷ [] else entries.items)) }
{
    if is_own {
        entries.push(entry)?;
    } else {
        drop(entry);
    }
    Ok(entries)
}

/// The family's entries that count, once it has one entry more.
fn with_next(alloc: Global, entries: Vec<Entry>, entry: Entry) -> Result<Vec<Entry>, AllocError>
    ensures { IfOk result (λ more. more.items ≡ with_next entry entries.items) }
{
    match &entry.report {
        Report::Confirm { .. } => {
            drop(entry);
            Ok(entries)
        }
        Report::Withdraw { entry: number } => {
            let number = *number;
            drop(entry);
            without(alloc, entries, number)
        }
        _ => with_entry(entries, entry, true),
    }
}

/// The family's entries that count, once the next entry is its own or not.
fn with_own(
    alloc: Global,
    entries: Vec<Entry>,
    entry: Entry,
    is_own: bool,
) -> Result<Vec<Entry>, AllocError>
    ensures { IfOk result (λ more. more.items ≡ (if is_own then with_next entry entries.items else entries.items)) }
{
    if is_own {
        with_next(alloc, entries, entry)
    } else {
        drop(entry);
        Ok(entries)
    }
}

/// The entries of a family that count, in order: reports of its copies that no later entry withdraws. The journal is one that
/// refuses none of its entries, as that of a hall.
///
/// It takes memory for these entries, and for a number for each entry of the journal. Fails only where memory runs out.
pub fn family_entries(
    alloc: Global,
    journal: EntryList,
    family: u64,
) -> Result<Vec<Entry>, AllocError>
    requires { IsAccepted 8 journal }
    ensures { IfOk result (λ entries. entries.items ≡ family_entries journal family) }
{
    let mut table = FamilyTable {
        families: Vec::new(alloc),
    };
    let mut entries = Vec::new(alloc);
    for entry in journal.into_vec() {
        let is_own = match table.take(&entry) {
            Ok(of) => of == family,
            Err(fault) => {
                drop(entry);
                return Err(fault);
            }
        };
        entries = with_own(alloc, entries, entry, is_own)?;
    }
    Ok(entries)
}

/// The entries of a family, also those that are withdrawn, in order. The journal is one that refuses none of its entries, as that of
/// a hall.
///
/// It takes memory for these entries, and for a number for each entry of the journal. Fails only where memory runs out.
pub(crate) fn own_entries(
    alloc: Global,
    journal: EntryList,
    family: u64,
) -> Result<Vec<Entry>, AllocError>
    requires { IsAccepted 8 journal }
    ensures { IfOk result (λ entries. entries.items ≡ own_entries journal family) }
{
    let mut table = FamilyTable {
        families: Vec::new(alloc),
    };
    let mut entries = Vec::new(alloc);
    for entry in journal.into_vec() {
        let is_own = match table.take(&entry) {
            Ok(of) => of == family,
            Err(fault) => {
                drop(entry);
                return Err(fault);
            }
        };
        entries = with_entry(entries, entry, is_own)?;
    }
    Ok(entries)
}
