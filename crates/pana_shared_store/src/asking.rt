//! Questions, which are answered behind all that the log has.
ghost use Rattle.std.specs.Prelude.{◌≡◌, ◌≤◌, false, IsTrue, IfErr, IfOk, OnErr, OnOk, length};
ghost use Rattle.pana_calls.specs.declared.call.Call.TheVariants as calls;
ghost use Rattle.pana_shared.specs.Log.{HaveSome};
ghost use Rattle.pana_shared_store.specs.Store.{AreFirst, MakesBy, StaysOn, Why};
ghost use Rattle.pana_shared_store.specs.inner.{IsStore, LooksOn};

use crate::following::read_on;
use pana_calls::{Answer, Call, Query};
use pana_copies::DeviceName;
use pana_hall::Hall;
use pana_shared::{ReadFault, SharedLog};
use std::alloc::Global;

/// Reads on before a question, if it is to be answered behind all that the log has. A stale store reads on only where it is time to,
/// and goes without what has no answer.
///
/// # Errors
///
/// As `read_on`; for a stale store all but `NoAnswer`.
pub(crate) fn look<L: SharedLog>(
    alloc: Global,
    hall: &mut Hall,
    log: &mut L,
    is_stale: bool,
) -> Result<(), ReadFault>
    requires first { IsTrue L.is_known → AreFirst hall.old (L.seen log.old).records }
    requires some { IsTrue L.is_known → HaveSome (L.seen log.old).loose }
    ensures looks { LooksOn L.is_known hall.old (L.seen log.old) hall.new (L.seen log.new) }
    ensures all { OnOk result (IsTrue L.is_known → is_stale ≡ false → length (L.seen log.old).records ≤ length hall.new) }
    ensures heard { IsTrue L.is_known → L.silences log.new ≤ L.silences log.old }
    ensures why { IfErr result (λ fault. IsTrue L.is_known → Why fault 0 hall.old (L.silences log.old) hall.new (L.seen log.new).records (L.silences log.new)) }
{
    if !is_stale {
        return read_on(alloc, hall, log);
    }
    if !log.is_due() {
        return Ok(());
    }
    match read_on(alloc, hall, log) {
        Ok(()) | Err(ReadFault::NoAnswer) => Ok(()),
        Err(fault) => Err(fault),
    }
}

/// Answers a question behind all that the log has, or by a stale store behind what is followed so far. So many turns were taken.
pub(crate) fn ask<L: SharedLog>(
    alloc: Global,
    hall: &mut Hall,
    log: &mut L,
    turn: u64,
    is_stale: bool,
    by: &DeviceName,
    query: Query,
) -> Result<Answer, ReadFault>
    requires store { IsTrue L.is_known → IsStore hall.old turn (L.seen log.old) }
    ensures store { IsTrue L.is_known → IsStore hall.new turn (L.seen log.new) }
    ensures ok { IfOk result (λ answer. MakesBy L.is_known is_stale turn turn hall.old (L.seen log.old) by.now (calls.Query query) answer hall.new (L.seen log.new)) }
    ensures err { OnErr result (StaysOn L.is_known hall.old (L.seen log.old) hall.new (L.seen log.new)) }
    ensures why { IfErr result (λ fault. IsTrue L.is_known → Why fault turn hall.old (L.silences log.old) hall.new (L.seen log.new).records (L.silences log.new)) }
{
    match look(alloc, hall, log, is_stale) {
        Ok(()) => Ok(Answer::Given(hall.apply(by, Call::Query(query)))),
        Err(fault) => {
            drop(query);
            Err(fault)
        }
    }
}
