//! The entries of a journal, put into a log that has none.
ghost use Rattle.std.specs.Prelude.{◌≡◌, ◌<◌, ◌+◌, ◌^◌, ◌++◌, ℕ, List, IsTrue, [], length, IfErr, IfOk, OnOk};
ghost use Rattle.pana_journal.specs.declared.entry.Entry.{Entry as EntryOf};
ghost use Rattle.pana_shared.specs.Log.{LogView};
ghost use Rattle.pana_shared_store.specs.Fill.{Fills, FillsNot};
ghost use Rattle.pana_shared_store.specs.Store.{IsFresh, recorded};
ghost use Rattle.pana_shared_store.specs.inner.{HasFilled};

use crate::fill_fault::FillFault;
use crate::placing::{Placed, place};
use pana_journal::Entry;
use pana_shared::{ReadFault, Record, SharedLog};
use std::alloc::{AllocError, Global};

/// How many entries are put at once at most.
const MOST: usize = 100;

/// Entries as records of a writer's turn.
fn records_of(
    alloc: Global,
    writer: u64,
    turn: u64,
    entries: &[Entry],
) -> Result<Vec<Record>, AllocError>
    ensures { IfOk result (λ group. group.items ≡ recorded writer turn entries.now) }
{
    let mut group = Vec::with_capacity(alloc, entries.len())?;
    for entry in entries {
        group.push(Record {
            entry: entry.copy_of(alloc)?,
            writer,
            turn,
        })?;
    }
    Ok(group)
}

/// Puts entries, as the turn's, behind those of the earlier turns, which are so many.
fn put_part<L: SharedLog>(
    alloc: Global,
    log: &mut L,
    at: u64,
    turn: u64,
    part: &[Entry],
) -> Result<(), FillFault>
    requires some { 0 < length part.now }
    requires within { at + length part.now < 2 ^ 64 }
    requires filled { IsTrue L.is_known → (start : LogView) × (done : List EntryOf) × (before : ℕ) × (length done ≡ at) × (before + 1 ≡ turn) × HasFilled start done before (L.seen log.old) }
    ensures ok { OnOk result (IsTrue L.is_known → (start : LogView) (done : List EntryOf) (before : ℕ) → length done ≡ at → before + 1 ≡ turn → HasFilled start done before (L.seen log.old) → HasFilled start (done ++ part.now) turn (L.seen log.new)) }
    ensures err { IfErr result (λ fault. IsTrue L.is_known → (start : LogView) (done : List EntryOf) (before : ℕ) → length done ≡ at → before + 1 ≡ turn → HasFilled start done before (L.seen log.old) → (left : List EntryOf) → FillsNot fault start (done ++ (part.now ++ left)) (L.seen log.new)) }
{
    let Ok(group) = records_of(alloc, log.writer(), turn, part) else {
        return Err(FillFault::Unread(ReadFault::OutOfMemory));
    };
    match place(log, at, group) {
        Ok(Placed::Ours) => Ok(()),
        Ok(Placed::Others(page)) => {
            drop(page);
            Err(FillFault::NotNext { number: at + 1 })
        }
        Ok(Placed::Full) => Err(FillFault::Full),
        Err(fault) => Err(FillFault::Unread(fault)),
    }
}

/// Puts the entries of a journal into a log, 100 at once, where it has none. It isn't looked at whether they are those of a journal.
///
/// # Errors
///
/// `NotEmpty`, and nothing was put. Else the first entries may have been put: `NotNext`, where others put theirs meanwhile; `Full`;
/// `Unread`.
pub fn fill<L: SharedLog>(alloc: Global, log: &mut L, entries: &[Entry]) -> Result<(), FillFault>
    requires fresh { IsTrue L.is_known → IsFresh (L.seen log.old) }
    ensures ok { OnOk result (IsTrue L.is_known → Fills (L.seen log.old) entries.now (L.seen log.new)) }
    ensures err { IfErr result (λ fault. IsTrue L.is_known → FillsNot fault (L.seen log.old) entries.now (L.seen log.new)) }
{
    let found = match log.read(0) {
        Ok(found) => found,
        Err(fault) => return Err(FillFault::Unread(fault)),
    };
    let is_empty = found.is_empty();
    drop(found);
    if !is_empty {
        return Err(FillFault::NotEmpty);
    }
    let mut rest = entries;
    let mut turn: u64 = 0;
    while !rest.is_empty() {
        let Some(next) = turn.checked_add(1) else {
            return Err(FillFault::Full);
        };
        turn = next;
        let at = (entries.len() - rest.len()) as u64;
        let (part, later) = rest.split_at(rest.len().min(MOST));
        match put_part(alloc, log, at, turn, part) {
            Ok(()) => rest = later,
            Err(fault) => return Err(fault),
        }
    }
    Ok(())
}
