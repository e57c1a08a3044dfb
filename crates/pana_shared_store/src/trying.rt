//! A call that is made behind all that the log has, try after try.
ghost use Rattle.std.specs.Prelude.{◌≤◌, ◌⊎◌, false, IsTrue, IfErr, IfOk, OnErr, length};
ghost use Rattle.pana_shared_store.specs.Store.{MakesOn, StaysOn, Why};
ghost use Rattle.pana_shared_store.specs.inner.{Attempts, IsReady, IsStore, TriesOne};

use crate::following::{follow_page, read_on};
use crate::making::{Tried, try_to_make};
use pana_calls::{Answer, Call};
use pana_copies::DeviceName;
use pana_hall::Hall;
use pana_shared::{ReadFault, SharedLog};
use std::alloc::Global;

/// How many times a call is tried at most while others' entries come before it.
const MOST_TRIES: u32 = 4_000;

/// What has come of one try.
#[derive(Drop)]
pub(crate) enum Attempt {
    /// The call has this answer.
    Answered(Answer),
    /// Others' entries have come before it, and some of them are followed: all that the log had when the call began, or maybe not yet.
    Again { is_read: bool },
}

/// Tries once to make a call, and has the hall follow what others have put before it. What makes no entry is answered at once where all
/// that the log had when the call began is read, and else once nothing stands behind it.
///
/// # Errors
///
/// As `try_to_make`, `follow_page` and `read_on`.
fn attempt_once<L: SharedLog>(
    alloc: Global,
    hall: &mut Hall,
    log: &mut L,
    turn: u64,
    by: &DeviceName,
    call: Call,
    is_read: bool,
) -> Result<Attempt, ReadFault>
    requires store { IsTrue L.is_known → IsStore hall.old turn (L.seen log.old) }
    requires ready { IsTrue L.is_known → IsReady turn hall.old (L.seen log.old) }
    ensures store { IsTrue L.is_known → IsStore hall.new turn (L.seen log.new) }
    ensures ok { IfOk result (λ done. Attempts L.is_known turn is_read hall.old (L.seen log.old) by.now call done hall.new (L.seen log.new)) }
    ensures err { OnErr result (StaysOn L.is_known hall.old (L.seen log.old) hall.new (L.seen log.new) ⊎ TriesOne L.is_known turn hall.old (L.seen log.old) by.now call hall.new (L.seen log.new)) }
    ensures heard { IsTrue L.is_known → L.silences log.new ≤ L.silences log.old }
    ensures why { IfErr result (λ fault. IsTrue L.is_known → Why fault 0 hall.old (L.silences log.old) hall.new (L.seen log.new).records (L.silences log.new)) }
{
    let at = hall.length();
    match try_to_make(alloc, hall, log, turn, by, call)? {
        Tried::Made(reply) => Ok(Attempt::Answered(Answer::Given(reply))),
        Tried::Behind(page) => {
            follow_page(alloc, hall, page)?;
            Ok(Attempt::Again { is_read })
        }
        Tried::Not(answer) => {
            if is_read {
                return Ok(Attempt::Answered(answer));
            }
            match read_on(alloc, hall, log) {
                Ok(()) => {
                    if hall.length() == at {
                        Ok(Attempt::Answered(answer))
                    } else {
                        drop(answer);
                        Ok(Attempt::Again { is_read: true })
                    }
                }
                Err(fault) => {
                    drop(answer);
                    Err(fault)
                }
            }
        }
    }
}

/// Makes a call, by four thousand tries at most. Each but the first comes right behind what others have put.
///
/// # Errors
///
/// As `attempt_once`; `NoAnswer` where others were faster each time; `OutOfMemory`.
pub(crate) fn make<L: SharedLog>(
    alloc: Global,
    hall: &mut Hall,
    log: &mut L,
    turn: u64,
    by: &DeviceName,
    call: &Call,
) -> Result<Answer, ReadFault>
    requires store { IsTrue L.is_known → IsStore hall.old turn (L.seen log.old) }
    requires ready { IsTrue L.is_known → IsReady turn hall.old (L.seen log.old) }
    ensures store { IsTrue L.is_known → IsStore hall.new turn (L.seen log.new) }
    ensures ok { IfOk result (λ answer. MakesOn L.is_known false turn hall.old (L.seen log.old) by.now call.now answer hall.new (L.seen log.new)) }
    ensures err { OnErr result (StaysOn L.is_known hall.old (L.seen log.old) hall.new (L.seen log.new) ⊎ TriesOne L.is_known turn hall.old (L.seen log.old) by.now call.now hall.new (L.seen log.new)) }
    ensures why { IfErr result (λ fault. IsTrue L.is_known → Why fault 0 hall.old (L.silences log.old) hall.new (L.seen log.new).records (L.silences log.new)) }
{
    let mut is_read = false;
    for _ in 0..MOST_TRIES {
        let Ok(copy) = call.copy_of(alloc) else {
            return Err(ReadFault::OutOfMemory);
        };
        match attempt_once(alloc, hall, log, turn, by, copy, is_read)? {
            Attempt::Answered(answer) => return Ok(answer),
            Attempt::Again { is_read: is_now } => is_read = is_now,
        }
    }
    Err(ReadFault::NoAnswer)
}
