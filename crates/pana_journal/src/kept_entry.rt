ghost use Rattle.std.specs.Prelude.{◌≡◌, IfOk};
ghost use Rattle.std.specs.Cow.{cow_value};

use crate::entry::Entry;
use crate::report::Report;
use pana_copies::DeviceName;
use std::alloc::{AllocError, Global};
use std::borrow::Cow;
use std::marker::Model;

/// An entry as a journal keeps it, lent by the journal. To contracts it is the entry.
pub struct KeptEntry<'a> {
    number: u64,
    by: &'a DeviceName,
    report: Cow<'a, Report>,
}

impl<'a> Drop for KeptEntry<'a> {
    fn drop(self) {
        let KeptEntry {
            number: _,
            by: _,
            report: _,
        } = self;
    }
}

impl<'a> Model for KeptEntry<'a> {
    ghost use Rattle.std.specs.Cow.{cow_value};
    ghost use Rattle.pana_journal.specs.declared.entry.Entry.{Entry};

    ghost Value = { Entry };

    ghost view = { λ it. record { number = it.number; by = it.by.now; report = cow_value it.report } };
}

impl<'a> KeptEntry<'a> {
    pub(crate) fn new(number: u64, by: &'a DeviceName, report: Cow<'a, Report>) -> KeptEntry<'a>
        ensures { result ≡ record { number = number; by = by.now; report = cow_value report.entry } }
    {
        KeptEntry { number, by, report }
    }

    /// The device that reported it. Takes no memory.
    pub fn by(&self) -> &DeviceName
        ensures { result.now ≡ self.now.by }
    {
        self.by
    }

    /// What was reported. Takes no memory.
    pub fn report(&self) -> &Report
        ensures { result.now ≡ self.now.report }
    {
        self.report.as_ref()
    }

    /// The entry as one that the journal doesn't lend. Fails only where memory runs out.
    pub fn copy_of(&self, alloc: Global) -> Result<Entry, AllocError>
        ensures { IfOk result (λ entry. entry ≡ self.now) }
    {
        let report = self.report().copy_of(alloc)?;
        Ok(Entry {
            number: self.number,
            by: self.by.copy_of(),
            report,
        })
    }
}
