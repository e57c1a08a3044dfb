ghost use Rattle.std.specs.Prelude.{◌≡◌, IfOk};

use crate::report::Report;
use pana_copies::DeviceName;
use std::alloc::{AllocError, Global};

/// A report that was accepted: its number in the journal, from 1, and the device that reported it.
#[derive(Debug, PartialEq, Eq, Drop)]
pub struct Entry {
    pub number: u64,
    pub by: DeviceName,
    pub report: Report,
}

impl Entry {
    /// The same entry once more. Fails only where memory runs out.
    pub fn copy_of(&self, alloc: Global) -> Result<Entry, AllocError>
        ensures { IfOk result (λ entry. entry ≡ self.now) }
    {
        let by = self.by.copy_of();
        let report = self.report.copy_of(alloc)?;
        Ok(Entry {
            number: self.number,
            by,
            report,
        })
    }
}
