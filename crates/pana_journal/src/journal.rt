ghost use Rattle.std.specs.Prelude.{◌≡◌, ◌+◌, ◌-◌, ◌<◌, ◌≤◌, ◌↔◌, ◌==◌, [], ◌∷◌, ◌++◌, length, nat_le, None, Some, option_copied, option_map, option_and_then, slice_get, if◌then◌else◌, IfOk, OnOk, OnErr, IsErrOf};
ghost use Rattle.pana_journal.specs.Reports.{given_sum};

use crate::entry::Entry;
use crate::kept_entry::KeptEntry;
use crate::line::{HINTS, Line, keep_name, keep_report, report_copy, report_kept, sum_kept};
use crate::report::Report;
use pana_copies::{DeviceName, Sum};
use pana_list::PlainList;
use std::alloc::{AllocError, Global};
use std::marker::Model;
use thiserror::Error;

/// How many entries a journal takes.
const MOST_ENTRIES: u64 = 1_000_000;

/// How many entries a page of the journal has at most.
const PAGE: u64 = 100;

/// Entries of a journal.
pub type EntryList = PlainList<Entry>;

/// Why there is no room for more entries.
#[derive(Clone, Copy, Debug, PartialEq, Eq, Error)]
pub enum JournalFault {
    #[error("the journal has 1,000,000 entries")]
    JournalFull,
    #[error("out of memory")]
    OutOfMemory,
}

/// The entries in order, numbered from 1 without gaps.
///
/// An entry goes in by two calls: `reserve`, which may fail, and then `append`, which can't. It takes 16 bytes. It takes 72
/// more where it is a Register, a Duplicate, a Relocate or a Note, where it gives a sum, and where it names a copy or an entry by
/// a number above 4,294,967,295.
pub struct Journal {
    /// The names of devices that have reported, some more than once.
    names: Vec<DeviceName>,
    /// Where in the list of names one may stand, by a byte of it; empty before the first entry.
    hints: Vec<u32>,
    /// The reports that lines have no room for.
    others: Vec<Report>,
    lines: Vec<Line>,
    /// For how many entries more there is room in each of them.
    room: usize,
}

/// The line of the entry with this number, if there is one.
fn line_at(lines: &[Line], number: u64) -> Option<&Line>
    ensures { option_copied result ≡ (if number == 0 then None else slice_get lines.now (number - 1)) }
{
    lines.get(number.checked_sub(1)? as usize)
}

impl Drop for Journal {
    fn drop(self) {
        let Journal {
            names: _,
            hints: _,
            others: _,
            lines: _,
            room: _,
        } = self;
    }
}

impl Model for Journal {
    ghost use Rattle.std.specs.Prelude.{◌≤◌, ◌+◌, vec_len, vec_capacity};
    ghost use Rattle.pana_journal.specs.Entries.{Contents};
    ghost use Rattle.pana_journal.specs.inner.Lines.{AreThere, HasRoom, entries_kept};

    ghost Value = { Contents };

    ghost view = { λ j. record { entries = entries_kept j.names.items j.others.items 1 j.lines.items; room = j.room } };

    ghost invariant = { λ j. AreThere j.names.items j.others.items j.lines.items
        × HasRoom (vec_len j.lines) j.room (vec_len j.names) (vec_capacity j.names)
        × HasRoom (vec_len j.lines) j.room (vec_len j.others) (vec_capacity j.others)
        × HasRoom (vec_len j.lines) j.room (vec_len j.lines) (vec_capacity j.lines)
        × (vec_len j.lines + j.room ≤ 1000000) };
}

impl Journal {
    ghost use Rattle.pana_journal.specs.Entries.{IsNumbered, entry_at, page};

    /// A journal with no entry. Takes no memory.
    pub fn new(alloc: Global) -> Journal
        ensures { result.entries ≡ [] }
    {
        Journal {
            names: Vec::new(alloc),
            hints: Vec::new(alloc),
            others: Vec::new(alloc),
            lines: Vec::new(alloc),
            room: 0,
        }
    }

    fn reserve_lists(&mut self, count: usize) -> Result<(), AllocError>
        requires { length self.old.entries + count ≤ 1000000 }
        ensures entries { self.new.entries ≡ self.old.entries }
        ensures ok { OnOk result (count ≤ self.new.room) }
        ensures err { OnErr result (self.new ≡ self.old) }
    {
        self.lines.reserve(count)?;
        self.names.reserve(count)?;
        self.others.reserve(count)?;
        self.room = self.room.max(count);
        Ok(())
    }

    /// Makes the hints, where there is none yet.
    fn reserve_hints(&mut self) -> Result<(), AllocError>
        ensures { self.new ≡ self.old }
    {
        if self.hints.is_empty() {
            self.hints.resize(HINTS, 0)?;
        }
        Ok(())
    }

    /// Reserves room for so many entries more, which stays until it is used.
    ///
    /// # Errors
    ///
    /// `JournalFull` where there would be more than 1,000,000 entries; `OutOfMemory`. The room is then as it was.
    pub fn reserve(&mut self, count: usize) -> Result<(), JournalFault>
        ensures entries { self.new.entries ≡ self.old.entries }
        ensures ok { OnOk result (count ≤ self.new.room) }
        ensures full { IsErrOf result JournalFault.JournalFull ↔ (1000000 < length self.old.entries + count) }
        ensures err { OnErr result (self.new ≡ self.old) }
    {
        if MOST_ENTRIES - self.length() < count as u64 {
            return Err(JournalFault::JournalFull);
        }
        let Ok(()) = self.reserve_hints() else {
            return Err(JournalFault::OutOfMemory);
        };
        match self.reserve_lists(count) {
            Ok(()) => Ok(()),
            Err(_) => Err(JournalFault::OutOfMemory),
        }
    }

    /// Puts a report at the end and returns its number. Room for it was reserved, so it takes no memory.
    pub fn append(&mut self, by: DeviceName, report: Report) -> u64
        requires { 0 < self.old.room }
        ensures number { result ≡ length self.old.entries + 1 }
        ensures entries { self.new.entries ≡ self.old.entries ++ record { number = result; by = by; report = report } ∷ [] }
        ensures room { self.old.room ≤ self.new.room + 1 }
    {
        let by = keep_name(&mut self.names, self.hints.as_mut_slice(), by);
        let report = keep_report(&mut self.others, report);
        self.lines.push_reserved(Line { by, report });
        self.room -= 1;
        self.length()
    }

    /// The entry with this number, if there is one. Takes no memory.
    pub fn entry(&self, number: u64) -> Option<KeptEntry<'_>>
        ensures { result ≡ entry_at self.now.entries number }
    {
        let line = line_at(self.lines.as_slice(), number)?;
        let report = report_kept(line.report, self.others.as_slice());
        Some(KeptEntry::new(number, &self.names[line.by as usize], report))
    }

    /// The sum that the entry with this number gives, if there is one and it does. Takes no memory.
    pub fn sum(&self, number: u64) -> Option<&Sum>
        ensures { option_copied result ≡ option_and_then (λ entry. given_sum entry.report) (entry_at self.now.entries number) }
    {
        let line = line_at(self.lines.as_slice(), number)?;
        sum_kept(line.report, self.others.as_slice())
    }

    /// A copy of the entry behind the first so many.
    fn copy_behind(&self, alloc: Global, index: u64) -> Result<Entry, AllocError>
        requires { index < length self.now.entries }
        ensures { IfOk result (λ entry. entry_at self.now.entries (index + 1) ≡ Some entry) }
    {
        let line = self.lines[index as usize];
        let report = report_copy(alloc, line.report, self.others.as_slice())?;
        Ok(Entry {
            number: index + 1,
            by: self.names[line.by as usize].copy_of(),
            report,
        })
    }

    /// The entries from this number on, at most 100; 0 counts as 1, and there is none past the end. Fails only where
    /// memory runs out.
    pub fn slice(&self, from: u64) -> Result<EntryList, AllocError>
        ensures { IfOk result (λ list. list ≡ page self.now.entries from) }
    {
        let first = from.saturating_sub(1).min(self.length());
        let count = PAGE.min(self.length() - first);
        let alloc = *self.lines.allocator();
        let mut copies = Vec::with_capacity(alloc, count as usize)?;
        for index in first..first + count {
            copies.push(self.copy_behind(alloc, index)?)?;
        }
        Ok(EntryList::from_vec(copies))
    }

    /// How many entries there are, at most 1,000,000. Takes no memory.
    pub fn length(&self) -> u64
        ensures length { result ≡ length self.now.entries }
        ensures within { length self.now.entries ≤ 1000000 }
        ensures numbered { IsNumbered self.now.entries }
    {
        self.lines.len() as u64
    }

    /// Whether the journal has all the 1,000,000 entries that it takes. Takes no memory.
    pub fn is_full(&self) -> bool
        ensures { result ≡ nat_le 1000000 (length self.now.entries) }
    {
        self.length() >= MOST_ENTRIES
    }
}
