//! A hall that goes on to what others have put into its log.
ghost use Rattle.std.specs.Prelude.{◌≡◌, ◌≢◌, ◌≤◌, IsTrue, false, [], ◌∷◌, ◌++◌, length, IfErr, OnOk, OnErr};
ghost use Rattle.pana_hall.specs.Prepared.{entries_of};
ghost use Rattle.pana_shared.specs.Log.{HaveSome};
ghost use Rattle.pana_shared_store.specs.Store.{AreFirst, Why, entries_in};
ghost use Rattle.pana_shared_store.specs.inner.{FollowsNot, IsRefusal, LooksOn, StopsAt};

use crate::committing::{cancel_into, commit_all, put_into};
use crate::same::is_entry;
use pana_calls::{Call, Cause, Reply};
use pana_hall::{Hall, Prepared, Unprepared};
use pana_journal::Entry;
use pana_shared::{ReadFault, Record, SharedLog};
use std::alloc::Global;

/// How many pages are read at most before a call is given up.
const MOST_PAGES: u32 = 1_000_000;

/// Makes an entry of the log the next one of the hall's journal.
///
/// # Errors
///
/// `Foreign` where it can't be the next one of a journal; `OutOfMemory`. The hall is as it was.
pub(crate) fn follow(alloc: Global, hall: &mut Hall, entry: &Entry) -> Result<(), ReadFault>
    ensures ok { OnOk result (hall.new ≡ hall.old ++ entry.now ∷ []) }
    ensures err { OnErr result (hall.new ≡ hall.old) }
    ensures why { IfErr result (λ fault. FollowsNot fault hall.old entry.now) }
{
    let number = hall.length() + 1;
    let Ok(report) = entry.report.copy_of(alloc) else {
        return Err(ReadFault::OutOfMemory);
    };
    match hall.take_all().prepare(&entry.by, Call::Report(report)) {
        Ok(prepared) => {
            if is_only(&prepared, entry) {
                commit_all(hall, prepared);
                Ok(())
            } else {
                cancel_into(hall, prepared);
                Err(ReadFault::Foreign { number })
            }
        }
        Err(Unprepared { hall: same, reply }) => {
            put_into(hall, same);
            let why = why_not(&reply, number);
            drop(reply);
            Err(why)
        }
    }
}

/// Whether this entry, and no other, is prepared.
fn is_only(prepared: &Prepared, entry: &Entry) -> bool
    ensures same { IsTrue result → entries_of prepared.now ≡ entry.now ∷ [] }
    ensures other { result ≡ false → entries_of prepared.now ≢ entry.now ∷ [] }
{
    prepared.second().is_none() && is_entry(prepared.entry(), entry)
}

/// Why the entry with this number can't be followed, from the reply that its report gets.
fn why_not(reply: &Reply, number: u64) -> ReadFault
    ensures { IsRefusal reply.now number result }
{
    match reply {
        Reply::Refused(Cause::OutOfMemory) => ReadFault::OutOfMemory,
        _ => ReadFault::Foreign { number },
    }
}

/// Makes the entries of a page of the log the next ones of the hall's journal.
///
/// # Errors
///
/// As `follow`, at the first that can't be followed. Those before it are the next ones.
pub(crate) fn follow_page(
    alloc: Global,
    hall: &mut Hall,
    page: Vec<Record>,
) -> Result<(), ReadFault>
    ensures ok { OnOk result (hall.new ≡ hall.old ++ entries_in page.items) }
    ensures err { IfErr result (λ fault. StopsAt fault hall.old (entries_in page.items) hall.new) }
{
    let followed = follow_all(alloc, hall, page.as_slice());
    drop(page);
    followed
}

/// The same, of a page that is only looked at.
fn follow_all(alloc: Global, hall: &mut Hall, page: &[Record]) -> Result<(), ReadFault>
    ensures ok { OnOk result (hall.new ≡ hall.old ++ entries_in page.now) }
    ensures err { IfErr result (λ fault. StopsAt fault hall.old (entries_in page.now) hall.new) }
{
    for found in page {
        follow(alloc, hall, &found.entry)?;
    }
    Ok(())
}

/// Reads on, until nothing further is there, and has the hall follow.
///
/// # Errors
///
/// As `follow`; `NoAnswer` where the log isn't read. What was read by then is followed.
pub(crate) fn read_on<L: SharedLog>(
    alloc: Global,
    hall: &mut Hall,
    log: &mut L,
) -> Result<(), ReadFault>
    requires first { IsTrue L.is_known → AreFirst hall.old (L.seen log.old).records }
    requires some { IsTrue L.is_known → HaveSome (L.seen log.old).loose }
    ensures looks { LooksOn L.is_known hall.old (L.seen log.old) hall.new (L.seen log.new) }
    ensures all { OnOk result (IsTrue L.is_known → length (L.seen log.old).records ≤ length hall.new) }
    ensures heard { IsTrue L.is_known → L.silences log.new ≤ L.silences log.old }
    ensures why { IfErr result (λ fault. IsTrue L.is_known → Why fault 0 hall.old (L.silences log.old) hall.new (L.seen log.new).records (L.silences log.new)) }
{
    for _ in 0..MOST_PAGES {
        let page = log.read(hall.length())?;
        if page.is_empty() {
            drop(page);
            return Ok(());
        }
        follow_page(alloc, hall, page)?;
    }
    Err(ReadFault::NoAnswer)
}
