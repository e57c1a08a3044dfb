//! What a watch begins with.
ghost use Rattle.std.specs.Prelude.{◌≡◌, ◌⊎◌, ℕ, [], false, unwrap_or, nat_eq, IfOk, Some, None};
ghost use Rattle.indexmap.specs.IndexMap.{get};
ghost use Rattle.pana_watch.specs.Watch.{Begins, IsBehind, StartsAt, splits};

use crate::watch::Watch;
use crate::watch_fault::WatchFault;
use indexmap::IndexMap;
use pana_calls::{Call, FamilyRow, Query, Session};
use pana_copies::DeviceName;
use std::alloc::{AllocError, Global};

/// A number that no entry of a journal has.
const NO_ENTRY: u64 = 1_000_001;

/// How often the entries that there may be can be halved.
const HALVES: u32 = 20;

/// Whether each of these families is split.
fn splits_of(alloc: Global, rows: &[FamilyRow]) -> Result<IndexMap<u64, bool>, AllocError>
    ensures { IfOk result (λ known. (family : ℕ) → unwrap_or (get nat_eq known family) false ≡ splits rows.now family) }
{
    let mut known = IndexMap::new(alloc);
    for row in rows {
        if row.split {
            known.insert(row.family, true)?;
        }
    }
    Ok(known)
}

/// Whether the journal has an entry with this number.
fn has_entry<S: Session>(session: &mut S, by: &DeviceName, number: u64) -> Result<bool, WatchFault>
    ensures { IfOk result (λ has. has ≡ false → IsBehind S.step by.now number) }
{
    let query = Query::JournalFrom { entry: number };
    let answer = session.call(by, Call::Query(query))?;
    let Some(entries) = answer.into_journal() else {
        return Err(WatchFault::NoAnswer);
    };
    let has = !entries.as_slice().is_empty();
    drop(entries);
    Ok(has)
}

/// The number of the next entry that the journal will have. It takes 20 questions.
fn end_of<S: Session>(session: &mut S, by: &DeviceName) -> Result<u64, WatchFault>
    ensures { IfOk result (IsBehind S.step by.now) }
{
    let mut low = 0;
    let mut high = NO_ENTRY;
    for _ in 0..HALVES {
        let middle = low + (high - low) / 2;
        if middle == low {
            return Ok(high);
        }
        if has_entry(session, by, middle)? {
            low = middle;
        } else {
            high = middle;
        }
    }
    Ok(high)
}

impl Watch {
    /// A watch that shows the entries from this number on, or where there is none those behind the last one that there is. It asks
    /// once for all families.
    ///
    /// # Errors
    ///
    /// `NoAnswer` where a question has no answer, or one that is none to it; `OutOfMemory`.
    pub fn begin<S: Session>(
        alloc: Global,
        session: &mut S,
        by: &DeviceName,
        from: Option<u64>,
    ) -> Result<Watch, WatchFault>
        ensures begins { IfOk result (λ watch. Begins S.step by.now session.old watch) }
        ensures next { IfOk result (λ watch. StartsAt S.step by.now from watch.next) }
    {
        let answer = session.call(by, Call::Query(Query::Families))?;
        let Some(rows) = answer.into_families() else {
            return Err(WatchFault::NoAnswer);
        };
        let known = splits_of(alloc, rows.as_slice());
        drop(rows);
        let known = known?;
        let next = match from {
            Some(number) => number.max(1),
            None => end_of(session, by)?,
        };
        Ok(Watch { next, known })
    }
}
