//! Calls that make entries, put into a log before the hall has them.
ghost use Rattle.std.specs.Prelude.{◌≡◌, ◌≤◌, ◌+◌, ◌∷◌, ℕ, List, IsTrue, length, IfErr, IfOk, OnErr, option_copied, option_to_list};
ghost use Rattle.pana_calls.specs.declared.call.Call.{Call};
ghost use Rattle.pana_hall.specs.Prepared.{Prepares};
ghost use Rattle.pana_shared.specs.Log.{IsUnread};
ghost use Rattle.pana_shared_store.specs.Store.{recorded};
ghost use Rattle.pana_shared_store.specs.inner.{IsReady, IsStore, TriesNone, TriesTo};

use crate::committing::{cancel_into, commit_into, put_into};
use crate::placing::{Placed, place};
use pana_calls::{Answer, Call, Cause, Reply};
use pana_copies::DeviceName;
use pana_hall::{Hall, Prepared, Unprepared};
use pana_journal::Entry;
use pana_shared::{ReadFault, Record, SharedLog};
use std::alloc::{AllocError, Global};

/// What has come of a call behind the entries that the hall has.
#[derive(Drop)]
pub(crate) enum Tried {
    /// It was made, and this is its reply.
    Made(Reply),
    /// Others' records stand behind these entries, so the call is yet to be made. These are the first of them.
    Behind(Vec<Record>),
    /// It makes no entry, and this is the answer, if nothing stands behind these entries.
    Not(Answer),
}

/// The entries of a call as records.
pub(crate) fn group_of(
    alloc: Global,
    writer: u64,
    turn: u64,
    entry: &Entry,
    second: Option<&Entry>,
) -> Result<Vec<Record>, AllocError>
    ensures { IfOk result (λ group. group.items ≡ recorded writer turn (entry.now ∷ option_to_list (option_copied second.entry))) }
{
    let mut group = Vec::with_capacity(alloc, 2)?;
    group.push_reserved(Record {
        entry: entry.copy_of(alloc)?,
        writer,
        turn,
    });
    if let Some(second) = second {
        group.push_reserved(Record {
            entry: second.copy_of(alloc)?,
            writer,
            turn,
        });
    }
    Ok(group)
}

/// Makes a call of a device, which may make entries, as the turn's, behind the entries that the hall has.
///
/// # Errors
///
/// As `place`: it isn't known whether the entries were put.
pub(crate) fn try_to_make<L: SharedLog>(
    alloc: Global,
    hall: &mut Hall,
    log: &mut L,
    turn: u64,
    by: &DeviceName,
    call: Call,
) -> Result<Tried, ReadFault>
    requires store { IsTrue L.is_known → IsStore hall.old turn (L.seen log.old) }
    requires ready { IsTrue L.is_known → IsReady turn hall.old (L.seen log.old) }
    ensures store { IsTrue L.is_known → IsStore hall.new turn (L.seen log.new) }
    ensures ok { IfOk result (λ tried. TriesTo L.is_known turn hall.old (L.seen log.old) by.now call tried hall.new (L.seen log.new)) }
    ensures err { OnErr result (TriesNone L.is_known turn hall.old (L.seen log.old) by.now call hall.new (L.seen log.new)) }
    ensures heard { IsTrue L.is_known → L.silences log.new ≤ L.silences log.old }
    ensures unread { IfErr result (λ fault. IsTrue L.is_known → IsUnread fault (L.silences log.old) (L.silences log.new)) }
{
    let at = hall.length();
    match hall.take_all().prepare(by, call) {
        Ok(prepared) => put(alloc, hall, log, at, turn, prepared),
        Err(Unprepared { hall: same, reply }) => {
            put_into(hall, same);
            Ok(Tried::Not(Answer::Given(reply)))
        }
    }
}

/// Puts the entries of a call that is prepared, and makes the call where that has come to pass.
fn put<L: SharedLog>(
    alloc: Global,
    hall: &mut Hall,
    log: &mut L,
    at: u64,
    turn: u64,
    prepared: Prepared,
) -> Result<Tried, ReadFault>
    requires at { at ≡ length prepared.journal }
    requires store { IsTrue L.is_known → IsStore prepared.journal turn (L.seen log.old) }
    requires ready { IsTrue L.is_known → IsReady turn prepared.journal (L.seen log.old) }
    ensures store { IsTrue L.is_known → IsStore hall.new turn (L.seen log.new) }
    ensures ok { IfOk result (λ tried. (by : List ℕ) (call : Call) → Prepares prepared.journal by call prepared → TriesTo L.is_known turn prepared.journal (L.seen log.old) by call tried hall.new (L.seen log.new)) }
    ensures err { OnErr result ((by : List ℕ) (call : Call) → Prepares prepared.journal by call prepared → TriesNone L.is_known turn prepared.journal (L.seen log.old) by call hall.new (L.seen log.new)) }
    ensures heard { IsTrue L.is_known → L.silences log.new ≤ L.silences log.old }
    ensures unread { IfErr result (λ fault. IsTrue L.is_known → IsUnread fault (L.silences log.old) (L.silences log.new)) }
{
    let writer = log.writer();
    let Ok(group) = group_of(alloc, writer, turn, prepared.entry(), prepared.second()) else {
        cancel_into(hall, prepared);
        return Ok(Tried::Not(Answer::Given(Reply::Refused(Cause::OutOfMemory))));
    };
    match place(log, at, group) {
        Ok(Placed::Ours) => Ok(Tried::Made(commit_into(hall, prepared))),
        Ok(Placed::Others(page)) => {
            cancel_into(hall, prepared);
            Ok(Tried::Behind(page))
        }
        Ok(Placed::Full) => {
            cancel_into(hall, prepared);
            Ok(Tried::Not(Answer::NotKept))
        }
        Err(fault) => {
            cancel_into(hall, prepared);
            Err(fault)
        }
    }
}
