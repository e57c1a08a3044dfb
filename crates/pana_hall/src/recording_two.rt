//! Edits of two copies of one family that are to be the next two entries of a journal, or neither: the memory for both.
ghost use Rattle.std.specs.Prelude.{◌≡◌, ◌⊎◌, ◌<◌, ◌≤◌, ℕ, Option, Some, None, IfOk, IfErr, OnOk, option_and_then, option_map};
ghost use Rattle.pana_hall.specs.{Living.living, Refusal.decision_refusal, Refusal.report_refusal, Refusal.with_report};
ghost use Rattle.pana_hall.specs.declared.decision.Decision.TheVariants.{Both};
ghost use Rattle.pana_calls.specs.declared.cause.Cause.TheVariants as causes;
ghost use Rattle.pana_hall.specs.{inner.Listed.all_listed, inner.Listed.listed, inner.State.IsHeld};
ghost use Rattle.pana_hall.specs.inner.Contents.{AreContents, all_written, content_at, first_said, said_by_sum, second_said};
ghost use Rattle.pana_hall.specs.inner.Undo.{earlier, earlier_of};
ghost use Rattle.pana_hall.specs.inner.Kept.{IsReady, IsReadyAt, next_entry, position_for};
ghost use Rattle.pana_hall.specs.inner.Next.{AreTwo, HasRoom, IsNext, IsSecond, IsStepAfter, IsStepOf, Takes, TakesAfter};

use crate::changing::said_by;
use crate::contents::{Contents, Sayings, first_said, sayings_of};
use crate::families::family_report;
use crate::listed_family::ListedFamily;
use crate::next::{Next, Step};
use crate::recording::entry_of;
use crate::state::State;
use crate::undo::Before;
use pana_calls::Cause;
use pana_copies::{CopyTable, DeviceName};
use pana_journal::{Journal, Report};
use std::alloc::{AllocError, Global};

/// How many entries a journal takes.
const MOST_ENTRIES: u64 = 1_000_000;

/// What is before an Edit of an entry.
fn before_edit(contents: &Contents, entry: u64, report: &Report) -> Before
    ensures { earlier_of result ≡ earlier None (option_and_then (content_at contents.now.entries.items) (first_said entry report.now)) None }
{
    Before {
        place: None,
        first: said_by(contents, first_said(entry, report)),
        second: None,
    }
}

/// What an Edit of an entry says of the contents of copies.
fn edit_sayings(entry: u64, report: &Report) -> Sayings
    requires { entry ≤ 1000000 }
    ensures written { (entries : ℕ → Option ℕ) (number : ℕ) → all_written result entries number ≡ said_by_sum entry report.now entries number }
    ensures first { option_map (λ s. s.copy) result.first ≡ first_said entry report.now }
    ensures second { option_map (λ s. s.copy) result.second ≡ second_said report.now }
{
    let said = match report.sum() {
        Some(_) => Some(entry as u32),
        None => None,
    };
    sayings_of(entry, report, said, said)
}

/// Takes the memory for what both Edits make of their family. Fails only where memory runs out.
fn prepare_edits(
    alloc: Global,
    journal: &Journal,
    by: &DeviceName,
    it: &mut ListedFamily,
    copies: &CopyTable,
    contents: &Contents,
    first: &Report,
    second: &Report,
) -> Result<(Step, Step), AllocError>
    requires ready { IsReady journal.now.entries by.now first.now (listed it.old) copies.now }
    requires contents { AreContents journal.now.entries contents.now.entries.items }
    requires two { AreTwo journal.now.entries first.now second.now }
    requires free { report_refusal 8 (with_report journal.now.entries by.now first.now) (living (with_report journal.now.entries by.now first.now)) by.now second.now ≡ None }
    ensures same { listed it.new ≡ listed it.old }
    ensures first { IfOk result (λ made. IsStepOf (next_entry journal.now.entries by.now first.now) it.new (living journal.now.entries) made.0) }
    ensures second { IfOk result (λ made. IsStepAfter (next_entry journal.now.entries by.now first.now) (next_entry (with_report journal.now.entries by.now first.now) by.now second.now) it.new
        (living (with_report journal.now.entries by.now first.now)) made.1) }
{
    let entry = journal.length() + 1;
    let (change, behind) = it.prepare_two(
        alloc,
        entry,
        family_report(first).unwrap(),
        entry + 1,
        family_report(second).unwrap(),
    )?;
    Ok((
        Step::Change(change, None, before_edit(contents, entry, first)),
        Step::Change(behind, None, before_edit(contents, entry + 1, second)),
    ))
}

/// Takes the memory for what both Edits make of the families, of which theirs is at this position. Fails only where memory runs
/// out.
fn prepare_steps(
    alloc: Global,
    journal: &Journal,
    by: &DeviceName,
    list: &mut Vec<ListedFamily>,
    position: usize,
    copies: &CopyTable,
    contents: &Contents,
    first: &Report,
    second: &Report,
) -> Result<(Step, Step), AllocError>
    requires ready { IsReadyAt journal.now.entries by.now first.now (all_listed list.old.items) position copies.now }
    requires contents { AreContents journal.now.entries contents.now.entries.items }
    requires two { AreTwo journal.now.entries first.now second.now }
    requires free { report_refusal 8 (with_report journal.now.entries by.now first.now) (living (with_report journal.now.entries by.now first.now)) by.now second.now ≡ None }
    ensures same { all_listed list.new.items ≡ all_listed list.old.items }
    ensures first { IfOk result (λ made. Takes (next_entry journal.now.entries by.now first.now) list.new.items position (living journal.now.entries) made.0) }
    ensures second { IfOk result (λ made. TakesAfter (next_entry journal.now.entries by.now first.now) (next_entry (with_report journal.now.entries by.now first.now) by.now second.now) list.new.items
        position (living (with_report journal.now.entries by.now first.now)) made.1) }
{
    // whose contract says that the position is within the list
    let _ = list.as_slice();
    let it = &mut list[position];
    prepare_edits(alloc, journal, by, it, copies, contents, first, second)
}

impl State {
    /// Takes the memory for what two Edits that nothing stands against change beside the journal, and returns the position of
    /// their family too. Fails only where memory runs out.
    fn take_steps(
        &mut self,
        alloc: Global,
        by: &DeviceName,
        first: &Report,
        second: &Report,
    ) -> Result<(usize, Step, Step), AllocError>
        requires kept { IsHeld self.old }
        requires two { AreTwo self.old.journal.entries first.now second.now }
        requires first { report_refusal 8 self.old.journal.entries (living self.old.journal.entries) by.now first.now ≡ None }
        requires second { report_refusal 8 (with_report self.old.journal.entries by.now first.now) (living (with_report self.old.journal.entries by.now first.now)) by.now second.now ≡ None }
        ensures journal { self.new.journal.entries ≡ self.old.journal.entries }
        ensures kept { IsHeld self.new }
        ensures room { OnOk result (HasRoom 2 self.new) }
        ensures copies { OnOk result (0 < self.new.copies.room) }
        ensures position { IfOk result (λ made. position_for (all_listed self.new.families.list.items) self.new.families.positions.items first.now ≡ Some made.0) }
        ensures step { IfOk result (λ made. Takes (next_entry self.new.journal.entries by.now first.now) self.new.families.list.items made.0 (living self.new.journal.entries) made.1) }
        ensures behind { IfOk result (λ made. TakesAfter (next_entry self.new.journal.entries by.now first.now) (next_entry (with_report self.new.journal.entries by.now first.now) by.now second.now) self.new.families.list.items made.0
            (living (with_report self.new.journal.entries by.now first.now)) made.2) }
    {
        self.reserve(2)?;
        let position = self.position_of_next(by, first);
        let list = &mut self.families.list;
        let (step, behind) = prepare_steps(
            alloc,
            &self.journal,
            by,
            list,
            position,
            &self.copies,
            &self.contents,
            first,
            second,
        )?;
        Ok((position, step, behind))
    }

    /// Takes the memory for two Edits that nothing stands against. Fails only where memory runs out.
    fn prepare_free_two(
        &mut self,
        alloc: Global,
        by: &DeviceName,
        first: Report,
        second: Report,
    ) -> Result<(Next, Next), AllocError>
        requires kept { IsHeld self.old }
        requires two { AreTwo self.old.journal.entries first second }
        requires first { report_refusal 8 self.old.journal.entries (living self.old.journal.entries) by.now first ≡ None }
        requires second { report_refusal 8 (with_report self.old.journal.entries by.now first) (living (with_report self.old.journal.entries by.now first)) by.now second ≡ None }
        ensures journal { self.new.journal.entries ≡ self.old.journal.entries }
        ensures kept { IsHeld self.new }
        ensures first { IfOk result (λ made. made.0.entry ≡ next_entry self.old.journal.entries by.now first) }
        ensures second { IfOk result (λ made. made.1.entry ≡ next_entry (with_report self.old.journal.entries by.now first) by.now second) }
        ensures next { IfOk result (λ made. IsNext self.new made.0) }
        ensures behind { IfOk result (λ made. IsSecond self.new made.0 made.1) }
    {
        match self.take_steps(alloc, by, &first, &second) {
            Ok((position, step, behind)) => {
                let sayings = self.sayings(by, &first);
                let number = self.journal.length() + 1;
                let later = edit_sayings(number + 1, &second);
                let next = Next {
                    entry: entry_of(number, by, first),
                    position,
                    sayings,
                    step,
                };
                let second = Next {
                    entry: entry_of(number + 1, by, second),
                    position,
                    sayings: later,
                    step: behind,
                };
                Ok((next, second))
            }
            Err(fault) => {
                drop(first);
                drop(second);
                Err(fault)
            }
        }
    }

    /// Takes the memory for Edits of two copies of a family, if nothing stands against them. The journal stays as it is.
    pub fn prepare_two(
        &mut self,
        alloc: Global,
        by: &DeviceName,
        first: Report,
        second: Report,
    ) -> Result<(Next, Next), Cause>
        requires kept { IsHeld self.old }
        requires two { AreTwo self.old.journal.entries first second }
        ensures journal { self.new.journal.entries ≡ self.old.journal.entries }
        ensures kept { IsHeld self.new }
        ensures refused { IfErr result (λ cause. (decision_refusal 8 self.old.journal.entries by.now (Both first second) ≡ Some cause)
            ⊎ ((decision_refusal 8 self.old.journal.entries by.now (Both first second) ≡ None) × (cause ≡ causes.OutOfMemory))) }
        ensures free { OnOk result (decision_refusal 8 self.old.journal.entries by.now (Both first second) ≡ None) }
        ensures first { IfOk result (λ made. made.0.entry ≡ next_entry self.old.journal.entries by.now first) }
        ensures second { IfOk result (λ made. made.1.entry ≡ next_entry (with_report self.old.journal.entries by.now first) by.now second) }
        ensures next { IfOk result (λ made. IsNext self.new made.0) }
        ensures behind { IfOk result (λ made. IsSecond self.new made.0 made.1) }
    {
        if self.journal.length() + 2 > MOST_ENTRIES {
            drop(first);
            drop(second);
            return Err(Cause::JournalFull);
        }
        match self.prepare_free_two(alloc, by, first, second) {
            Ok(next) => Ok(next),
            Err(_) => Err(Cause::OutOfMemory),
        }
    }
}
