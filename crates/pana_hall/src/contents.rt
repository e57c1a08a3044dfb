//! What the copies hold, as far as was reported.
ghost use Rattle.std.specs.Prelude.{◌≡◌, ◌≤◌, ◌<◌, ◌+◌, ℕ, [], length, Option, IfSome, OnOk, option_map, vec_len, vec_capacity};
ghost use Rattle.pana_hall.specs.inner.Contents.{all_written, content_at, first_said, listed_entry, say, second_said, written};

use pana_journal::Report;
use std::alloc::{AllocError, Global};

/// For each copy the entry that says what it holds, where one does.
pub struct Contents {
    /// At the position of the entry that made the copy; 0 where none does.
    pub entries: Vec<u32>,
}

impl Drop for Contents {
    fn drop(self) {
        let Contents { entries: _ } = self;
    }
}

/// That this entry says what a copy holds, or none does.
#[derive(Clone, Copy)]
pub struct Saying {
    pub copy: u64,
    pub entry: Option<u32>,
}

/// What an entry says of the contents of at most two copies.
#[derive(Clone, Copy)]
pub struct Sayings {
    pub first: Option<Saying>,
    pub second: Option<Saying>,
}

impl Contents {
    /// No copy. Takes no memory.
    pub fn new(alloc: Global) -> Contents
        ensures { result.entries.items ≡ [] }
    {
        Contents {
            entries: Vec::new(alloc),
        }
    }

    /// The entry that says what a copy holds, if one does. Takes no memory.
    pub fn of(&self, copy: u64) -> Option<u32>
        ensures { result ≡ content_at self.now.entries.items copy }
    {
        let index = copy.checked_sub(1)? as usize;
        match *self.entries.get(index)? {
            0 => None,
            entry => Some(entry),
        }
    }

    /// Makes room for so many entries more. Fails only where memory runs out.
    pub fn reserve(&mut self, count: usize) -> Result<(), AllocError>
        ensures entries { self.new.entries.items ≡ self.old.entries.items }
        ensures room { OnOk result (vec_len self.new.entries + count ≤ vec_capacity self.new.entries) }
    {
        self.entries.reserve(count)
    }

    /// Keeps what the next entry says, in room that was made by `reserve`. Takes no memory.
    pub fn push(&mut self, sayings: Sayings)
        requires room { vec_len self.old.entries < vec_capacity self.old.entries }
        requires first { IfSome sayings.first (λ s. (0 < s.copy) × (s.copy ≤ length self.old.entries.items + 1)) }
        requires second { IfSome sayings.second (λ s. (0 < s.copy) × (s.copy ≤ length self.old.entries.items + 1)) }
        ensures count { length self.new.entries.items ≡ length self.old.entries.items + 1 }
        ensures room { vec_capacity self.old.entries ≤ vec_capacity self.new.entries }
        ensures at { (number : ℕ) → content_at self.new.entries.items number ≡ listed_entry (all_written sayings (content_at self.old.entries.items) number) }
    {
        self.entries.push_reserved(0);
        self.write(sayings.first);
        self.write(sayings.second);
    }

    fn write(&mut self, saying: Option<Saying>)
        requires { IfSome saying (λ s. (0 < s.copy) × (s.copy ≤ length self.old.entries.items)) }
        ensures count { length self.new.entries.items ≡ length self.old.entries.items }
        ensures room { vec_capacity self.old.entries ≤ vec_capacity self.new.entries }
        ensures at { (number : ℕ) → content_at self.new.entries.items number ≡ listed_entry (written saying (content_at self.old.entries.items) number) }
    {
        if let Some(Saying { copy, entry }) = saying {
            self.entries[copy as usize - 1] = entry.unwrap_or(0);
        }
    }
}

/// The first copy of whose content the report of this entry says something, if it does.
pub fn first_said(entry: u64, report: &Report) -> Option<u64>
    ensures { result ≡ first_said entry report.now }
{
    match report {
        Report::Register { .. } | Report::Duplicate { .. } => Some(entry),
        Report::Edit { copy, .. } | Report::Remove { copy, .. } | Report::Note { copy, .. } => {
            Some(*copy)
        }
        Report::Reconcile { a, .. } | Report::Merge { a, .. } => Some(*a),
        Report::Relocate { .. } | Report::Confirm { .. } | Report::Withdraw { .. } => None,
    }
}

/// The second such copy.
pub fn second_said(report: &Report) -> Option<u64>
    ensures { result ≡ second_said report.now }
{
    match report {
        Report::Reconcile { b, .. } | Report::Merge { b, .. } => Some(*b),
        _ => None,
    }
}

/// The two sayings of the report of this entry, where these entries say what the copies hold.
pub fn sayings_of(entry: u64, report: &Report, first: Option<u32>, second: Option<u32>) -> Sayings
    ensures written { (entries : ℕ → Option ℕ) (number : ℕ) → all_written result entries number ≡ say (second_said report.now) second (say (first_said entry report.now) first entries) number }
    ensures first { option_map (λ s. s.copy) result.first ≡ first_said entry report.now }
    ensures second { option_map (λ s. s.copy) result.second ≡ second_said report.now }
{
    Sayings {
        first: saying_of(first_said(entry, report), first),
        second: saying_of(second_said(report), second),
    }
}

fn saying_of(copy: Option<u64>, entry: Option<u32>) -> Option<Saying>
    ensures { result ≡ option_map (λ copy. record { copy = copy; entry = entry }) copy }
{
    match copy {
        Some(copy) => Some(Saying { copy, entry }),
        None => None,
    }
}
