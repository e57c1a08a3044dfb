//! The families of entries.
ghost use Rattle.std.specs.Prelude.{◌≡◌, ℕ, List, ◌++◌, IfOk, OnOk, string_bytes};
ghost use Rattle.pana_journal.specs.declared.entry.Entry.{Entry};
ghost use Rattle.pana_watch.specs.Line.{line_or_none};
ghost use Rattle.pana_journal.specs.Reports.{subject};
ghost use Rattle.pana_watch.specs.Watch.{Leads, Says};
ghost use Rattle.pana_watch.specs.inner.Answers.{IsFirst};

use crate::family_change::{FamilyChange, change_line};
use crate::watch::Watch;
use crate::watch_fault::WatchFault;
use pana_calls::{Call, Query, Session};
use pana_copies::DeviceName;
use pana_journal::Entry;
use std::alloc::{AllocError, Global};

/// How many entries a journal has at most.
const MOST_ENTRIES: u32 = 1_000_000;

/// What the entry with this number names.
fn named_at<S: Session>(
    session: &mut S,
    by: &DeviceName,
    number: u64,
) -> Result<Option<u64>, WatchFault>
    ensures { IfOk result (IsFirst S.step by.now session.old number session.new) }
{
    let query = Query::JournalFrom { entry: number };
    let answer = session.call(by, Call::Query(query))?;
    let Some(entries) = answer.into_journal() else {
        return Err(WatchFault::NoAnswer);
    };
    match entries.as_slice().first() {
        Some(entry) if entry.number == number => Ok(entry.report.subject()),
        _ => Err(WatchFault::NoAnswer),
    }
}

/// The family of an entry.
fn family_of<S: Session>(session: &mut S, by: &DeviceName, entry: &Entry) -> Result<u64, WatchFault>
    ensures { IfOk result (λ family. (path : List Entry) × Leads S.step by.now session.old entry.now.number (subject entry.now.report) path family session.new) }
{
    let mut family = entry.number;
    let mut named = entry.report.subject();
    for _ in 0..MOST_ENTRIES {
        let number = match named {
            Some(number) => number,
            None => return Ok(family),
        };
        named = named_at(session, by, number)?;
        family = number;
    }
    Err(WatchFault::NoAnswer)
}

/// Appends the line of a change, where there is one.
fn push_change(
    alloc: Global,
    text: &mut String,
    change: Option<FamilyChange>,
) -> Result<(), AllocError>
    ensures { OnOk result (string_bytes text.new ≡ string_bytes text.old ++ line_or_none change) }
{
    if let Some(change) = change {
        text.push_str(change_line(alloc, change)?.as_str())?;
    }
    Ok(())
}

impl Watch {
    /// A line for each family of these entries that has become split or whole since the watch last knew of it.
    ///
    /// # Errors
    ///
    /// `NoAnswer` where a question has no answer, or one that is none to it; `OutOfMemory`.
    pub fn change_lines<S: Session>(
        &mut self,
        alloc: Global,
        session: &mut S,
        by: &DeviceName,
        entries: &[Entry],
    ) -> Result<String, WatchFault>
        ensures { IfOk result (λ text. Says S.step by.now self.old session.old entries.now (string_bytes text) self.new session.new) }
    {
        let mut text = String::new(alloc);
        for entry in entries {
            let family = family_of(session, by, entry)?;
            let change = self.look(session, by, family)?;
            push_change(alloc, &mut text, change)?;
        }
        Ok(text)
    }
}
