//! Journals, made once more at a session that has none.
ghost use Rattle.std.specs.Prelude.{◌≡◌, ◌≢◌, IfErr, IfOk, OnOk};
ghost use Rattle.pana_transfer.specs.Transfer.{HasEntries, Keeps, Remakes, Transfers};

use crate::fault::TransferFault;
use pana_calls::{Answer, Call, Cause, NoAnswer, Query, Reply, Session};
use pana_copies::DeviceName;
use pana_journal::Entry;
use std::alloc::Global;

/// How many entries are made at most before they are kept.
const MOST: usize = 1000;

/// The answer to a call.
fn ask<S: Session>(session: &mut S, by: &DeviceName, call: Call) -> Result<Answer, TransferFault>
    ensures ok { IfOk result (λ answer. S.step session.old by.now call answer session.new) }
    ensures other { IfErr result (λ fault. fault ≢ TransferFault.NotEmpty) }
{
    match session.call(by, call) {
        Ok(answer) => Ok(answer),
        Err(NoAnswer) => Err(TransferFault::NoAnswer),
    }
}

/// Makes the report of an entry, in the name of its device.
fn remake<S: Session>(alloc: Global, session: &mut S, entry: &Entry) -> Result<(), TransferFault>
    ensures ok { OnOk result (S.step session.old entry.now.by (Call.Report entry.now.report) (Answer.Given (Reply.Done entry.now.number)) session.new) }
    ensures other { IfErr result (λ fault. fault ≢ TransferFault.NotEmpty) }
{
    let Ok(report) = entry.report.copy_of(alloc) else {
        return Err(TransferFault::OutOfMemory);
    };
    let answer = ask(session, &entry.by, Call::Report(report))?;
    let remade = remade_by(&answer, entry.number);
    drop(answer);
    remade
}

/// Sees that a report was answered as the entry with this number.
fn remade_by(answer: &Answer, number: u64) -> Result<(), TransferFault>
    ensures ok { OnOk result (answer.now ≡ Answer.Given (Reply.Done number)) }
    ensures other { IfErr result (λ fault. fault ≢ TransferFault.NotEmpty) }
{
    match answer {
        Answer::Given(Reply::Done { entry }) if *entry == number => Ok(()),
        Answer::Given(Reply::Refused(Cause::OutOfMemory)) => Err(TransferFault::OutOfMemory),
        _ => Err(TransferFault::NotNext { number }),
    }
}

/// Makes the reports of entries, in order.
fn remake_all<S: Session>(
    alloc: Global,
    session: &mut S,
    entries: &[Entry],
) -> Result<(), TransferFault>
    ensures ok { OnOk result (Remakes S.step S.settles session.old entries.now session.new) }
    ensures other { IfErr result (λ fault. fault ≢ TransferFault.NotEmpty) }
{
    let [entry, later @ ..] = entries else {
        return Ok(());
    };
    remake(alloc, session, entry)?;
    remake_all(alloc, session, later)
}

/// Makes the reports of entries, in order, and has the session keep them, 1,000 at a time.
fn keep_all<S: Session>(
    alloc: Global,
    session: &mut S,
    entries: &[Entry],
) -> Result<(), TransferFault>
    ensures ok { OnOk result (Keeps S.step S.settles session.old entries.now session.new) }
    ensures other { IfErr result (λ fault. fault ≢ TransferFault.NotEmpty) }
{
    if entries.is_empty() {
        return Ok(());
    }
    let (part, later) = entries.split_at(entries.len().min(MOST));
    remake_all(alloc, session, part)?;
    match session.settle() {
        Ok(()) => keep_all(alloc, session, later),
        Err(NoAnswer) => Err(TransferFault::NoAnswer),
    }
}

/// Has a session that has no entry yet, as this device asks, make those of a journal once more: each by its own device and with its own
/// number. They are kept, 1,000 at a time.
///
/// # Errors
///
/// `NotEmpty`, and nothing was reported. Else the first entries may have been made: `NotNext`, where one was answered otherwise;
/// `NoAnswer`; `OutOfMemory`.
pub fn transfer<S: Session>(
    alloc: Global,
    session: &mut S,
    asker: &DeviceName,
    entries: &[Entry],
) -> Result<(), TransferFault>
    ensures ok { OnOk result (Transfers S.step S.settles asker.now entries.now session.old session.new) }
    ensures empty { IfErr result (λ fault. fault ≡ TransferFault.NotEmpty → HasEntries S.step S.settles asker.now session.old session.new) }
{
    let first = Query::JournalFrom { entry: 1 };
    let Some(found) = ask(session, asker, Call::Query(first))?.into_journal() else {
        return Err(TransferFault::OutOfMemory);
    };
    let is_empty = found.as_slice().is_empty();
    drop(found);
    if !is_empty {
        return Err(TransferFault::NotEmpty);
    }
    keep_all(alloc, session, entries)
}
