//! Why calls are refused, memory aside. None of this takes memory.
ghost use Rattle.std.specs.Prelude.{◌≡◌, ◌==◌, not, [], ◌∷◌, true, None, Some, Option, ℕ};
ghost use Rattle.pana_hall.specs.{inner.Spots.IsThere, inner.Spots.other_there, Accepted.IsAccepted, Living.living, Pending.is_last};
ghost use Rattle.pana_hall.specs.{Effective.is_of_copies, Family.is_register, inner.Kept.AreSpots, inner.State.IsHeld};
ghost use Rattle.pana_journal.specs.declared.report.Report.TheVariants as reports;
ghost use Rattle.pana_hall.specs.Refusal.{first, full, unknown, same, other_family, taken, family_full, too_deep, unknown_entry, not_yours, pending_with, settled, settled_or_followed, displaced, taken_since, unknown_family, report_refusal, query_refusal};

use crate::state::State;
use pana_calls::{Cause, Query};
use pana_copies::{DeviceName, Place};
use pana_journal::Report;

/// How many living copies a family takes.
const MOST_COPIES: usize = 256;

/// The first of these causes that holds.
fn first(causes: &[Option<Cause>]) -> Option<Cause>
    ensures { result ≡ first causes.now }
{
    for cause in causes {
        if cause.is_some() {
            return *cause;
        }
    }
    None
}

fn same(a: u64, b: u64) -> Option<Cause>
    ensures { result ≡ same a b }
{
    (a == b).then_some(Cause::SameCopy)
}

/// Whether it is a report of copies, as each but a Confirm and a Withdraw is.
fn is_of_copies(report: &Report) -> bool
    ensures { result ≡ is_of_copies report.now }
{
    !matches!(report, Report::Confirm { .. } | Report::Withdraw { .. })
}

/// Whether it begins a family.
fn is_register(report: &Report) -> bool
    ensures { result ≡ is_register report.now }
{
    matches!(report, Report::Register { .. })
}

/// The copy that a report moves or removes.
pub fn displaced(report: &Report) -> Option<u64>
    ensures { result ≡ displaced report.now }
{
    match report {
        Report::Relocate { copy, .. } | Report::Remove { copy, .. } => Some(*copy),
        _ => None,
    }
}

impl State {
    fn full(&self) -> Option<Cause>
        ensures { result ≡ full self.now.journal.entries }
    {
        self.journal.is_full().then_some(Cause::JournalFull)
    }

    fn unknown(&self, number: u64) -> Option<Cause>
        requires { IsHeld self.now }
        ensures { result ≡ unknown number (living self.now.journal.entries) }
    {
        (!self.lives(number)).then_some(Cause::UnknownCopy(number))
    }

    #[tactic(auto, using(crate::proofs::Answered::is_living, crate::proofs::Listed::found_entry, crate::proofs::Ready::family_of))]
    fn other_family(&self, a: u64, b: u64) -> Option<Cause>
        requires { IsHeld self.now }
        ensures { result ≡ other_family a b (living self.now.journal.entries) }
    {
        if !self.lives(a) || !self.lives(b) {
            return None;
        }
        (self.family(a).number() != self.family(b).number()).then_some(Cause::OtherFamily)
    }

    fn taken(&self, place: &Place) -> Option<Cause>
        requires accepted { IsAccepted 8 self.now.journal.entries }
        requires spots { AreSpots self.now.journal.entries self.now.copies }
        ensures { result ≡ taken place.now (living self.now.journal.entries) }
    {
        match self.copies.at(place) {
            Some(number) => Some(Cause::PlaceTaken(number)),
            None => None,
        }
    }

    #[tactic(auto, using(crate::proofs::Answered::is_living, crate::proofs::Listed::found_entry, crate::proofs::Answered::full_is))]
    fn family_full(&self, number: u64) -> Option<Cause>
        requires { IsHeld self.now }
        ensures { result ≡ family_full number (living self.now.journal.entries) }
    {
        if !self.lives(number) {
            return None;
        }
        (self.family(number).count() >= MOST_COPIES).then_some(Cause::FamilyFull)
    }

    /// The id of the copy can't be divided.
    #[tactic(auto, using(crate::proofs::Answered::is_living, crate::proofs::Listed::found_entry, crate::proofs::Answered::deep_is))]
    fn too_deep(&self, number: u64) -> Option<Cause>
        requires { IsHeld self.now }
        ensures { result ≡ too_deep number self.now.journal.entries (living self.now.journal.entries) }
    {
        if !self.lives(number) {
            return None;
        }
        (!self.family(number).splits(number)).then_some(Cause::TooDeep)
    }

    fn unknown_entry(&self, number: u64) -> Option<Cause>
        ensures { result ≡ unknown_entry number self.now.journal.entries }
    {
        let is_known = match self.journal.entry(number) {
            Some(entry) => is_of_copies(entry.report()),
            None => false,
        };
        (!is_known).then_some(Cause::UnknownEntry)
    }

    fn not_yours(&self, by: &DeviceName, number: u64) -> Option<Cause>
        ensures { result ≡ not_yours by.now number self.now.journal.entries }
    {
        let entry = self.journal.entry(number)?;
        (*entry.by() != *by).then_some(Cause::NotYours)
    }

    #[tactic(auto, using(crate::proofs::Listed::entry_within, crate::proofs::Answered::none_pending))]
    fn settled(&self, number: u64) -> Option<Cause>
        requires { IsHeld self.now }
        ensures { result ≡ settled 8 number self.now.journal.entries }
    {
        match self.journal.entry(number) {
            Some(_) => (!self.family(number).has_pending(number)).then_some(Cause::Settled),
            None => Some(Cause::Settled),
        }
    }

    #[tactic(auto, using(crate::proofs::Listed::entry_within, crate::proofs::Answered::kept_lasts, crate::proofs::Answered::none_pending, crate::proofs::Answered::none_last))]
    fn settled_or_followed(&self, number: u64) -> Option<Cause>
        requires { IsHeld self.now }
        ensures { result ≡ settled_or_followed 8 number self.now.journal.entries }
    {
        match self.journal.entry(number) {
            Some(_) => (!self.family(number).ends_in(number)).then_some(Cause::Settled),
            None => Some(Cause::Settled),
        }
    }

    /// Another living copy than this one has the place.
    fn taken_from(&self, copy: u64, place: &Place) -> Option<Cause>
        ensures { (found : Option ℕ) × IsThere self.now.copies place.now found × (result ≡ other_there copy found) }
    {
        match self.copies.at(place) {
            Some(other) if other != copy => Some(Cause::PlaceTaken(other)),
            _ => None,
        }
    }

    /// Another living copy has the place that the entry's copy gets back.
    fn taken_since(&self, number: u64) -> Option<Cause>
        requires kept { IsHeld self.now }
        requires last { is_last number (pending_with 8 number self.now.journal.entries) ≡ true }
        ensures { result ≡ taken_since number self.now.journal.entries }
    {
        let entry = self.journal.entry(number)?;
        let copy = displaced(entry.report())?;
        self.taken_from(copy, self.family(number).last_place()?)
    }

    // Apart, so that other reports don't pay for its locals.
    #[inline(never)]
    fn withdraw_refusal(&self, by: &DeviceName, entry: u64) -> Option<Cause>
        requires { IsHeld self.now }
        ensures { result ≡ report_refusal 8 self.now.journal.entries (living self.now.journal.entries) by.now (reports.Withdraw entry) }
    {
        let earlier = first(&[
            self.full(),
            self.unknown_entry(entry),
            self.not_yours(by, entry),
        ]);
        if earlier.is_some() {
            return earlier;
        }
        let settled = self.settled_or_followed(entry);
        if settled.is_some() {
            return settled;
        }
        self.taken_since(entry)
    }

    /// Why a device's report is refused.
    pub fn report_refusal(&self, by: &DeviceName, report: &Report) -> Option<Cause>
        requires { IsHeld self.now }
        ensures { result ≡ report_refusal 8 self.now.journal.entries (living self.now.journal.entries) by.now report.now }
    {
        match report {
            Report::Register { place, .. } => first(&[self.full(), self.taken(place)]),
            Report::Duplicate { copy, place, .. } => first(&[
                self.full(),
                self.unknown(*copy),
                self.taken(place),
                self.family_full(*copy),
                self.too_deep(*copy),
            ]),
            Report::Edit { copy, .. }
            | Report::Note { copy, .. }
            | Report::Remove { copy, heir: None } => first(&[self.full(), self.unknown(*copy)]),
            Report::Reconcile { a, b, .. }
            | Report::Merge { a, b, .. }
            | Report::Remove {
                copy: a,
                heir: Some(b),
            } => first(&[
                self.full(),
                self.unknown(*a),
                self.unknown(*b),
                same(*a, *b),
                self.other_family(*a, *b),
            ]),
            Report::Relocate { copy, place } => {
                first(&[self.full(), self.unknown(*copy), self.taken(place)])
            }
            Report::Confirm { entry } => first(&[
                self.full(),
                self.unknown_entry(*entry),
                self.not_yours(by, *entry),
                self.settled(*entry),
            ]),
            Report::Withdraw { entry } => self.withdraw_refusal(by, *entry),
        }
    }

    fn unknown_family(&self, number: u64) -> Option<Cause>
        ensures { result ≡ unknown_family number self.now.journal.entries }
    {
        let is_known = match self.journal.entry(number) {
            Some(entry) => is_register(entry.report()),
            None => false,
        };
        (!is_known).then_some(Cause::UnknownFamily)
    }

    /// Why a query is refused.
    pub fn query_refusal(&self, query: &Query) -> Option<Cause>
        requires { IsHeld self.now }
        ensures { result ≡ query_refusal self.now.journal.entries (living self.now.journal.entries) query.now }
    {
        match query {
            Query::Board { family } | Query::Stamps { family } => self.unknown_family(*family),
            Query::Pair { a, b } => {
                first(&[
                    self.unknown(*a),
                    self.unknown(*b),
                    self.other_family(*a, *b),
                ])
            }
            Query::Families
            | Query::Holdings { .. }
            | Query::At { .. }
            | Query::Status { .. }
            | Query::JournalFrom { .. }
            | Query::JournalAwaited { .. }
            | Query::Counts => None,
        }
    }
}
