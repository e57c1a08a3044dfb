//! What the next entry says of the contents of copies.
ghost use Rattle.std.specs.Prelude.{◌≡◌, ◌+◌, None, length, option_and_then, option_copied};
ghost use Rattle.pana_journal.specs.{Entries.entry_at, Reports.given_sum};
ghost use Rattle.pana_hall.specs.{Refusal.query_refusal, Refusal.report_refusal, Queries.pair_of, Living.agreed, Living.content_by, Living.content_in};
ghost use Rattle.pana_hall.specs.{Living.living, Living.shared, inner.State.IsHeld, inner.Contents.entry_of, inner.Kept.next_entry, inner.Next.AreSayings};
ghost use Rattle.pana_calls.specs.declared.call.Query.TheVariants as queries;

use crate::contents::{Sayings, sayings_of};
use crate::state::State;
use pana_copies::{DeviceName, Sum};
use pana_event::Rel;
use pana_journal::Report;

impl State {
    /// The sum that an entry gives.
    pub fn sum_by(&self, entry: u32) -> Option<&Sum>
        ensures { option_copied result ≡ option_and_then (λ e. given_sum e.report) (entry_at self.now.journal.entries entry) }
    {
        self.journal.sum(u64::from(entry))
    }

    /// The entry that says what both copies hold, where they hold the same.
    fn shared(&self, a: u64, b: u64) -> Option<u32>
        requires { IsHeld self.now }
        ensures { result ≡ entry_of (shared (content_in (living self.now.journal.entries) a) (content_in (living self.now.journal.entries) b)) }
    {
        let first = self.contents.of(a)?;
        let second = self.contents.of(b)?;
        (self.sum_by(first)? == self.sum_by(second)?).then_some(first)
    }

    /// The entry that says what two copies of a family hold that are reconciled without a sum.
    fn agreed(&self, a: u64, b: u64) -> Option<u32>
        requires kept { IsHeld self.now }
        requires free { query_refusal self.now.journal.entries (living self.now.journal.entries) (queries.Pair a b) ≡ None }
        ensures { result ≡ entry_of (agreed (pair_of (living self.now.journal.entries) a b) (content_in (living self.now.journal.entries) a) (content_in (living self.now.journal.entries) b)) }
    {
        match self.pair_of(a, b) {
            Rel::Older => self.contents.of(b),
            Rel::Newer => self.contents.of(a),
            Rel::Equal | Rel::Conflict => self.shared(a, b),
        }
    }

    /// The entry that says what the copies hold that the next entry's report changes, or the one that comes with it.
    fn content_by(&self, by: &DeviceName, report: &Report) -> Option<u32>
        requires kept { IsHeld self.now }
        requires free { report_refusal 8 self.now.journal.entries (living self.now.journal.entries) by.now report.now ≡ None }
        ensures { result ≡ entry_of (content_by (length self.now.journal.entries + 1) report.now (living self.now.journal.entries)) }
    {
        if report.sum().is_some() {
            return Some(self.journal.length() as u32 + 1);
        }
        match report {
            Report::Duplicate { copy, .. } => self.contents.of(*copy),
            Report::Reconcile { a, b, .. } => self.agreed(*a, *b),
            _ => None,
        }
    }

    /// What the next entry says of the contents of copies, if nothing stands against its report.
    pub fn sayings(&self, by: &DeviceName, report: &Report) -> Sayings
        requires kept { IsHeld self.now }
        requires free { report_refusal 8 self.now.journal.entries (living self.now.journal.entries) by.now report.now ≡ None }
        ensures { AreSayings self.now.journal.entries (next_entry self.now.journal.entries by.now report.now) self.now.contents.entries.items result }
    {
        match report {
            Report::Withdraw { entry } => {
                let (first, second) = self.family(*entry).last_said();
                let kept = self.journal.entry(*entry).unwrap();
                sayings_of(*entry, kept.report(), first, second)
            }
            _ => {
                let said = self.content_by(by, report);
                sayings_of(self.journal.length() + 1, report, said, said)
            }
        }
    }
}
