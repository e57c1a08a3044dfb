//! Records that are put into a log at one place, or not.
ghost use Rattle.std.specs.Prelude.{◌≢◌, ◌≤◌, [], IsTrue, IfErr, IfOk, OnErr};
ghost use Rattle.pana_shared.specs.Log.{HaveSome, IsAt, IsUnread, MayAppend, Reads, loose_at, ours};
ghost use Rattle.pana_shared_store.specs.inner.{IsNew, IsNotForeign, IsPlaced, IsUnusedGroup, Places, PlacesNone};

use crate::same::is_record;
use pana_shared::{Appended, ReadFault, Record, SharedLog};

/// What stands where a group was to be put.
#[derive(Drop)]
pub(crate) enum Placed {
    /// The group.
    Ours,
    /// Others' records, these and maybe more behind them.
    Others(Vec<Record>),
    /// Nothing: the log takes no more.
    Full,
}

/// The records that stand behind so many, or some of them.
///
/// # Errors
///
/// Those of reading; `NoAnswer` where nothing stands there.
fn look<L: SharedLog>(log: &mut L, at: u64) -> Result<Vec<Record>, ReadFault>
    ensures reads { IsTrue L.is_known → Reads (L.seen log.old) (L.seen log.new) }
    ensures some { IfOk result (λ page. page.items ≢ []) }
    ensures part { IfOk result (λ page. IsTrue L.is_known → IsAt at page.items (L.seen log.new).records) }
    ensures heard { IsTrue L.is_known → L.silences log.new ≤ L.silences log.old }
    ensures fault { IfErr result (λ fault. IsTrue L.is_known → IsNotForeign fault) }
{
    let page = log.read(at)?;
    if page.is_empty() {
        drop(page);
        return Err(ReadFault::NoAnswer);
    }
    Ok(page)
}

/// Whether a page that stands where a group was to be put is the group, or begins with it.
fn placed_from(page: Vec<Record>, group: &[Record]) -> Placed
    requires some { page.items ≢ [] }
    requires one { group.now ≢ [] }
    ensures { IsPlaced page.items group.now result }
{
    if is_record(&page[0], &group[0]) {
        drop(page);
        Placed::Ours
    } else {
        Placed::Others(page)
    }
}

/// Puts a group where the log has just so many records. What stands there is looked at, where the log doesn't say that it was put:
/// it may have been, though an answer was lost.
///
/// # Errors
///
/// Those of reading; `NoAnswer` where nothing stands there. The group may be put later.
pub(crate) fn place<L: SharedLog>(
    log: &mut L,
    at: u64,
    group: Vec<Record>,
) -> Result<Placed, ReadFault>
    requires one { group.items ≢ [] }
    requires may { IsTrue L.is_known → MayAppend (L.seen log.old) at group.items }
    requires some { IsTrue L.is_known → HaveSome (L.seen log.old).loose }
    requires other { IsTrue L.is_known → IsNew group.items (loose_at at (L.seen log.old)) }
    requires unused { IsTrue L.is_known → IsUnusedGroup group.items (ours (L.seen log.old).writer (L.seen log.old).records) }
    ensures ok { IfOk result (λ placed. IsTrue L.is_known → Places (L.seen log.old) at group.items placed (L.seen log.new)) }
    ensures err { OnErr result (IsTrue L.is_known → PlacesNone (L.seen log.old) at group.items (L.seen log.new)) }
    ensures heard { IsTrue L.is_known → L.silences log.new ≤ L.silences log.old }
    ensures unread { IfErr result (λ fault. IsTrue L.is_known → IsUnread fault (L.silences log.old) (L.silences log.new)) }
{
    let placed = place_records(log, at, group.as_slice());
    drop(group);
    placed
}

/// The same, of a group that is only looked at.
fn place_records<L: SharedLog>(log: &mut L, at: u64, group: &[Record]) -> Result<Placed, ReadFault>
    requires one { group.now ≢ [] }
    requires may { IsTrue L.is_known → MayAppend (L.seen log.old) at group.now }
    requires some { IsTrue L.is_known → HaveSome (L.seen log.old).loose }
    requires other { IsTrue L.is_known → IsNew group.now (loose_at at (L.seen log.old)) }
    requires unused { IsTrue L.is_known → IsUnusedGroup group.now (ours (L.seen log.old).writer (L.seen log.old).records) }
    ensures ok { IfOk result (λ placed. IsTrue L.is_known → Places (L.seen log.old) at group.now placed (L.seen log.new)) }
    ensures err { OnErr result (IsTrue L.is_known → PlacesNone (L.seen log.old) at group.now (L.seen log.new)) }
    ensures heard { IsTrue L.is_known → L.silences log.new ≤ L.silences log.old }
    ensures unread { IfErr result (λ fault. IsTrue L.is_known → IsUnread fault (L.silences log.old) (L.silences log.new)) }
{
    match log.append(at, group) {
        Appended::Put => Ok(Placed::Ours),
        Appended::Full => Ok(Placed::Full),
        Appended::Taken(page) => Ok(placed_from(page, group)),
        Appended::Unknown => Ok(placed_from(look(log, at)?, group)),
    }
}
