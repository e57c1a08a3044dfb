//! What an accepted report makes of a journal, and of what is kept of it: the memory for it first, and then the entry, which can't
//! fail.
ghost use Rattle.std.specs.Prelude.{◌≡◌, ℕ, ◌+◌, ◌<◌, [], ◌∷◌, ◌++◌, List, length, ◌==◌, if◌then◌else◌, Some, None, false, IfOk, IfErr, OnErr, OnOk, vec_len, vec_capacity};
ghost use Rattle.pana_calls.specs.declared.cause.Cause.TheVariants as causes;
ghost use Rattle.pana_copies.specs.Spots.{kept};
ghost use Rattle.pana_hall.specs.{inner.Spots.IsFree, inner.Undo.new_kept, inner.Listed.IsGrown, inner.Listed.all_listed, inner.Listed.listed};
ghost use Rattle.pana_hall.specs.{inner.State.IsHeld, inner.State.IsRefused, inner.State.Records, Effective.is_of_copies, Living.Copy, Living.living};
ghost use Rattle.pana_hall.specs.{Refusal.report_refusal};
ghost use Rattle.pana_hall.specs.inner.Kept.{next_entry, AreSpots, IsReady, IsReadyAt, families_of, family_of, position_for};
ghost use Rattle.pana_hall.specs.inner.Contents.{AreContents};
ghost use Rattle.pana_hall.specs.inner.Next.{HasRoom, HasRoomFor, IsNext, IsSecond, IsStep, IsStepAfter, IsStepOf, Takes, TakesAfter, next_of};
ghost use Rattle.pana_hall.specs.declared.{next.Next.Next as OneNext, next.Step.Step as OneStep};
ghost use Rattle.pana_journal.specs.declared.entry.Entry.{Entry as OfJournal};

use crate::changing::{apply_change, before, prepare_change, withdraw};
use crate::contents::Contents;
use crate::families::kept_position;
use crate::listed_family::ListedFamily;
use crate::next::{Effects, Next, Step};
use crate::state::State;
use pana_calls::Cause;
use pana_copies::{CopyTable, DeviceName, Place};
use pana_journal::{Entry, Journal, Report};
use std::alloc::{AllocError, Global};

/// Takes the memory for what the report of the next entry does to a family that has begun. Fails only where memory runs out.
fn prepare_family(
    alloc: Global,
    journal: &Journal,
    by: &DeviceName,
    it: &mut ListedFamily,
    copies: &CopyTable,
    contents: &Contents,
    report: &Report,
) -> Result<Step, AllocError>
    requires ready { IsReady journal.now.entries by.now report.now (listed it.old) copies.now }
    requires contents { AreContents journal.now.entries contents.now.entries.items }
    ensures same { listed it.new ≡ listed it.old }
    ensures step { IfOk result (IsStepOf (next_entry journal.now.entries by.now report.now) it.new (living journal.now.entries)) }
{
    match report {
        Report::Confirm { .. } | Report::Withdraw { .. } => {
            it.grow(alloc)?;
            Ok(Step::Settle)
        }
        _ => {
            let entry = journal.length() + 1;
            let before = before(alloc, copies, contents, entry, report)?;
            match prepare_change(alloc, it, entry, report) {
                Ok((change, place)) => Ok(Step::Change(change, place, before)),
                Err(fault) => {
                    drop(before);
                    Err(fault)
                }
            }
        }
    }
}

/// Takes the memory for what the report of the next entry does to the families. Fails only where memory runs out.
fn prepare_step(
    alloc: Global,
    journal: &Journal,
    by: &DeviceName,
    list: &mut Vec<ListedFamily>,
    position: usize,
    copies: &CopyTable,
    contents: &Contents,
    report: &Report,
) -> Result<Step, AllocError>
    requires ready { IsReadyAt journal.now.entries by.now report.now (all_listed list.old.items) position copies.now }
    requires contents { AreContents journal.now.entries contents.now.entries.items }
    ensures same { all_listed list.new.items ≡ all_listed list.old.items }
    ensures step { IfOk result (IsStep (next_entry journal.now.entries by.now report.now) (vec_len list.new) (vec_capacity list.new) list.new.items position (living journal.now.entries)) }
{
    match report {
        Report::Register { place, .. } => {
            list.reserve(1)?;
            Ok(Step::Begin(place.copy_of()?))
        }
        _ => {
            // whose contract says that the position is within the list
            let _ = list.as_slice();
            let it = &mut list[position];
            prepare_family(alloc, journal, by, it, copies, contents, report)
        }
    }
}

/// Settles or takes back what is pending in a family, as the report of the next entry says. Takes no memory.
fn settle(
    journal: &Journal,
    by: &DeviceName,
    it: &mut ListedFamily,
    copies: &mut CopyTable,
    report: &Report,
)
    requires ready { IsReady journal.now.entries by.now report.now (listed it.old) copies.old }
    requires settles { is_of_copies report.now ≡ false }
    requires grown { IsGrown it.old }
    requires room { HasRoomFor report.now copies.old }
    ensures family { listed it.new ≡ family_of (journal.now.entries ++ next_entry journal.now.entries by.now report.now ∷ []) (listed it.old).number }
    ensures spots { AreSpots (journal.now.entries ++ next_entry journal.now.entries by.now report.now ∷ []) copies.new }
{
    match report {
        Report::Confirm { entry } => it.confirm(*entry),
        Report::Withdraw { entry } => {
            let kept = journal.entry(*entry).unwrap();
            withdraw(it, copies, *entry, kept.report())
        }
        _ => unreachable!(),
    }
}

/// Does to a family that has begun, and to the table of copies, what the report of the next entry says. Takes no memory.
fn change_family(
    journal: &Journal,
    by: &DeviceName,
    it: &mut ListedFamily,
    copies: &mut CopyTable,
    report: &Report,
    step: Step,
)
    requires ready { IsReady journal.now.entries by.now report.now (listed it.old) copies.old }
    requires step { IsStepOf (next_entry journal.now.entries by.now report.now) it.old (living journal.now.entries) step }
    requires room { HasRoomFor report.now copies.old }
    ensures family { listed it.new ≡ family_of (journal.now.entries ++ next_entry journal.now.entries by.now report.now ∷ []) (listed it.old).number }
    ensures behind { (entry : OfJournal) (lives : List Copy) (later : OneStep) → IsStepAfter (next_entry journal.now.entries by.now report.now) entry it.old lives later → IsStepOf entry it.new lives later }
    ensures spots { AreSpots (journal.now.entries ++ next_entry journal.now.entries by.now report.now ∷ []) copies.new }
{
    match step {
        Step::Change(change, place, before) => {
            apply_change(
                it,
                copies,
                journal.length() + 1,
                report,
                change,
                place,
                before,
            )
        }
        Step::Settle => settle(journal, by, it, copies, report),
        Step::Begin(_) => unreachable!(),
    }
}

/// Begins a family by the next entry, a Register at this place. Takes no memory.
fn begin(list: &mut Vec<ListedFamily>, copies: &mut CopyTable, entry: u64, place: Place)
    requires fresh { kept copies.old entry ≡ None }
    requires free { IsFree place copies.old }
    requires more { vec_len list.old < vec_capacity list.old }
    requires room { 0 < copies.old.room }
    ensures list { all_listed list.new.items ≡ all_listed list.old.items ++ new_kept entry ∷ [] }
    ensures spots { (number : ℕ) → kept copies.new number ≡ (if number == entry then Some (record { family = entry; place = place }) else kept copies.old number) }
{
    list.push_reserved(ListedFamily::New(entry));
    copies.insert(entry, entry, place);
}

/// Does what the report of the next entry says to the families, of which the report's is at this position, and to the table of
/// copies. Takes no memory.
fn make_step(
    journal: &Journal,
    by: &DeviceName,
    list: &mut Vec<ListedFamily>,
    position: usize,
    copies: &mut CopyTable,
    report: &Report,
    step: Step,
)
    requires ready { IsReadyAt journal.now.entries by.now report.now (all_listed list.old.items) position copies.old }
    requires step { IsStep (next_entry journal.now.entries by.now report.now) (vec_len list.old) (vec_capacity list.old) list.old.items position (living journal.now.entries) step }
    requires room { HasRoomFor report.now copies.old }
    ensures list { all_listed list.new.items ≡ families_of (journal.now.entries ++ next_entry journal.now.entries by.now report.now ∷ []) }
    ensures behind { (entry : OfJournal) (lives : List Copy) (later : OneStep) → TakesAfter (next_entry journal.now.entries by.now report.now) entry list.old.items position lives later → Takes entry list.new.items position lives later }
    ensures spots { AreSpots (journal.now.entries ++ next_entry journal.now.entries by.now report.now ∷ []) copies.new }
{
    match step {
        Step::Begin(place) => begin(list, copies, journal.length() + 1, place),
        step => {
            // whose contract says that the position is within the list
            let _ = list.as_slice();
            change_family(journal, by, &mut list[position], copies, report, step)
        }
    }
}

impl State {
    /// Takes the memory for so many more entries, and for a copy more. Fails only where memory runs out.
    pub fn reserve(&mut self, count: usize) -> Result<(), AllocError>
        requires { IsHeld self.old }
        ensures journal { self.new.journal.entries ≡ self.old.journal.entries }
        ensures kept { IsHeld self.new }
        ensures room { OnOk result (HasRoom count self.new) }
        ensures copies { OnOk result (0 < self.new.copies.room) }
    {
        let Ok(()) = self.journal.reserve(count) else {
            return Err(AllocError);
        };
        self.copies.reserve()?;
        self.contents.reserve(count)?;
        self.families.positions.reserve(count)
    }

    /// The position of the family of a report that nothing stands against. Takes no memory.
    pub fn position_of_next(&self, by: &DeviceName, report: &Report) -> usize
        requires kept { IsHeld self.now }
        requires free { report_refusal 8 self.now.journal.entries (living self.now.journal.entries) by.now report.now ≡ None }
        ensures at { position_for (all_listed self.now.families.list.items) self.now.families.positions.items report.now ≡ Some result }
        ensures ready { IsReadyAt self.now.journal.entries by.now report.now (all_listed self.now.families.list.items) result self.now.copies }
    {
        self.families.position_for(report).unwrap()
    }

    /// Takes the memory for what a report of a family at this position changes beside the journal. Fails only where memory runs
    /// out.
    fn take_step(
        &mut self,
        alloc: Global,
        by: &DeviceName,
        report: &Report,
        position: usize,
    ) -> Result<Step, AllocError>
        requires kept { IsHeld self.old }
        requires free { report_refusal 8 self.old.journal.entries (living self.old.journal.entries) by.now report.now ≡ None }
        requires at { position_for (all_listed self.old.families.list.items) self.old.families.positions.items report.now ≡ Some position }
        requires ready { IsReadyAt self.old.journal.entries by.now report.now (all_listed self.old.families.list.items) position self.old.copies }
        requires room { HasRoom 1 self.old }
        requires copies { 0 < self.old.copies.room }
        ensures journal { self.new.journal.entries ≡ self.old.journal.entries }
        ensures kept { IsHeld self.new }
        ensures room { HasRoom 1 self.new }
        ensures copies { 0 < self.new.copies.room }
        ensures position { position_for (all_listed self.new.families.list.items) self.new.families.positions.items report.now ≡ Some position }
        ensures step { IfOk result (IsStep (next_entry self.new.journal.entries by.now report.now) (vec_len self.new.families.list) (vec_capacity self.new.families.list) self.new.families.list.items position (living self.new.journal.entries)) }
    {
        let list = &mut self.families.list;
        prepare_step(
            alloc,
            &self.journal,
            by,
            list,
            position,
            &self.copies,
            &self.contents,
            report,
        )
    }

    /// Takes the memory for a report that nothing stands against, beside the room that was made by `reserve`. Fails only where
    /// memory runs out.
    fn effects_reserved(
        &mut self,
        alloc: Global,
        by: &DeviceName,
        report: &Report,
    ) -> Result<Effects, Cause>
        requires kept { IsHeld self.old }
        requires free { report_refusal 8 self.old.journal.entries (living self.old.journal.entries) by.now report.now ≡ None }
        requires room { HasRoom 1 self.old }
        requires copies { 0 < self.old.copies.room }
        ensures journal { self.new.journal.entries ≡ self.old.journal.entries }
        ensures kept { IsHeld self.new }
        ensures next { IfOk result (λ effects. IsNext self.new (next_of self.old.journal.entries by.now report.now effects)) }
        ensures fault { IfErr result (λ cause. cause ≡ causes.OutOfMemory) }
    {
        let position = self.position_of_next(by, report);
        match self.take_step(alloc, by, report, position) {
            Ok(step) => Ok(Effects {
                position,
                sayings: self.sayings(by, report),
                step,
            }),
            Err(_) => Err(Cause::OutOfMemory),
        }
    }

    /// What a device's report changes as the next entry, beside the journal, if nothing stands against it. It has all memory that
    /// this takes, and the journal stays as it is.
    fn effects_of(
        &mut self,
        alloc: Global,
        by: &DeviceName,
        report: &Report,
    ) -> Result<Effects, Cause>
        requires { IsHeld self.old }
        ensures journal { self.new.journal.entries ≡ self.old.journal.entries }
        ensures kept { IsHeld self.new }
        ensures refused { IfErr result (IsRefused self.old.journal.entries by.now report.now) }
        ensures next { IfOk result (λ effects. IsNext self.new (next_of self.old.journal.entries by.now report.now effects)) }
    {
        if let Some(cause) = self.report_refusal(by, report) {
            return Err(cause);
        }
        match self.reserve(1) {
            Ok(()) => self.effects_reserved(alloc, by, report),
            Err(_) => Err(Cause::OutOfMemory),
        }
    }

    /// Takes the memory for a device's report, if nothing stands against it. The journal stays as it is.
    pub fn prepare(&mut self, alloc: Global, by: &DeviceName, report: Report) -> Result<Next, Cause>
        requires { IsHeld self.old }
        ensures journal { self.new.journal.entries ≡ self.old.journal.entries }
        ensures kept { IsHeld self.new }
        ensures refused { IfErr result (IsRefused self.old.journal.entries by.now report) }
        ensures entry { IfOk result (λ next. next.entry ≡ next_entry self.old.journal.entries by.now report) }
        ensures next { IfOk result (IsNext self.new) }
    {
        match self.effects_of(alloc, by, &report) {
            Ok(
                Effects {
                    position,
                    sayings,
                    step,
                },
            ) => Ok(Next {
                entry: entry_of(self.journal.length() + 1, by, report),
                position,
                sayings,
                step,
            }),
            Err(cause) => {
                drop(report);
                Err(cause)
            }
        }
    }

    /// Makes a device's report the next entry of the journal, with what it changes, and keeps all of the journal that is kept.
    /// Takes no memory.
    fn make(&mut self, by: DeviceName, report: Report, effects: Effects) -> u64
        requires kept { IsHeld self.old }
        requires next { IsNext self.old (next_of self.old.journal.entries by report effects) }
        ensures records { Records self.old.journal.entries by report result self.new }
        ensures behind { (second : OneNext) → IsSecond self.old (next_of self.old.journal.entries by report effects) second → IsNext self.new second }
    {
        let Effects {
            position,
            sayings,
            step,
        } = effects;
        let list = &mut self.families.list;
        make_step(
            &self.journal,
            &by,
            list,
            position,
            &mut self.copies,
            &report,
            step,
        );
        self.contents.push(sayings);
        self.families
            .positions
            .push_reserved(kept_position(position));
        self.journal.append(by, report)
    }

    /// Makes a report that was prepared the next entry of the journal, and keeps all of the journal that is kept. Takes no memory.
    pub fn commit(&mut self, next: Next) -> u64
        requires kept { IsHeld self.old }
        requires next { IsNext self.old next }
        ensures records { Records self.old.journal.entries next.entry.by next.entry.report result self.new }
        ensures behind { (second : OneNext) → IsSecond self.old next second → IsNext self.new second }
    {
        let Next {
            entry: Entry { by, report, .. },
            position,
            sayings,
            step,
        } = next;
        let effects = Effects {
            position,
            sayings,
            step,
        };
        self.make(by, report, effects)
    }

    /// Makes a device's report the next entry of the journal, if nothing stands against it, and returns its number: `prepare` and
    /// `commit`, and no entry is made on the way.
    pub fn record(&mut self, alloc: Global, by: &DeviceName, report: Report) -> Result<u64, Cause>
        requires { IsHeld self.old }
        ensures records { IfOk result (λ entry. Records self.old.journal.entries by.now report entry self.new) }
        ensures free { OnOk result (report_refusal 8 self.old.journal.entries (living self.old.journal.entries) by.now report ≡ None) }
        ensures refused { IfErr result (IsRefused self.old.journal.entries by.now report) }
        ensures same { OnErr result (self.new.journal.entries ≡ self.old.journal.entries) }
        ensures kept { IsHeld self.new }
    {
        match self.effects_of(alloc, by, &report) {
            Ok(effects) => Ok(self.make(by.copy_of(), report, effects)),
            Err(cause) => {
                drop(report);
                Err(cause)
            }
        }
    }
}

/// The entry with this number. Takes no memory.
pub fn entry_of(number: u64, by: &DeviceName, report: Report) -> Entry
    ensures { result ≡ record { number = number; by = by.now; report = report } }
{
    Entry {
        number,
        by: by.copy_of(),
        report,
    }
}
