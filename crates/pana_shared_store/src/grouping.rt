//! Calls that are put into a log together.
ghost use Rattle.std.specs.Prelude.{◌≡◌, ◌+◌, ◌<◌, ◌≤◌, ◌^◌, ◌++◌, false, true, IsTrue, IfErr, IfOk, List, None, OnErr, length, vec_len, vec_capacity};
ghost use Rattle.std.specs.List.{AllByRecursion};
ghost use Rattle.pana_calls.specs.declared.answer.Answer.{Answer as AnswerOf};
ghost use Rattle.pana_shared.specs.Log.{HaveSome};
ghost use Rattle.pana_shared_store.specs.Store.{AreFirst, Why, asks_all};
ghost use Rattle.pana_shared_store.specs.inner.{IsStore, LooksOn};
ghost use Rattle.pana_shared_store.specs.inner.Groups.{AreBehind, Groups, GroupsNot, moment, shown};

use crate::asking::look;
use crate::gathering::gather;
use crate::placing::{Placed, place};
use pana_calls::{Answer, Call, Message};
use pana_hall::Hall;
use pana_shared::{ReadFault, SharedLog};
use std::alloc::Global;

/// What has come of calls that were to be made together.
#[derive(Clone, Copy)]
pub(crate) enum Grouped {
    /// The first so many are made, and have their answers.
    Made(usize),
    /// None is made: others' records came first, or the log takes no more, or memory ran out.
    Not,
}

/// Whether a call is a question.
fn is_question(call: &Call) -> bool
    ensures { IsTrue result → asks_all true call.now ≡ false }
{
    matches!(call, Call::Query(_))
}

/// Whether all calls are questions.
fn are_questions(calls: &[Message]) -> bool
    ensures { IsTrue result → AllByRecursion (λ m. asks_all true m.call ≡ false) calls.now }
{
    for message in calls {
        if !is_question(&message.call) {
            return false;
        }
    }
    true
}

/// Whether these calls may be answered from what a store has followed so far: all are questions, to a stale store.
fn are_stale(is_stale: bool, calls: &[Message]) -> bool
    ensures fresh { is_stale ≡ false → result ≡ false }
    ensures questions { IsTrue result → AllByRecursion (λ m. asks_all true m.call ≡ false) calls.now }
{
    if !is_stale {
        return false;
    }
    are_questions(calls)
}

/// Reads on behind calls that were made in a hall and make no entry. Returns whether nothing stands there, so that their answers are
/// those behind all that the log has.
///
/// # Errors
///
/// As `look`.
fn read_behind<L: SharedLog>(
    alloc: Global,
    hall: &mut Hall,
    log: &mut L,
    is_stale: bool,
    calls: &[Message],
) -> Result<bool, ReadFault>
    requires first { IsTrue L.is_known → AreFirst hall.old (L.seen log.old).records }
    requires some { IsTrue L.is_known → HaveSome (L.seen log.old).loose }
    ensures looks { LooksOn L.is_known hall.old (L.seen log.old) hall.new (L.seen log.new) }
    ensures same { IfOk result (λ is_last. IsTrue is_last → hall.new ≡ hall.old) }
    ensures all { IfOk result (λ _. IsTrue L.is_known → AreBehind is_stale calls.now (length (L.seen log.old).records ≤ length hall.new)) }
    ensures heard { IsTrue L.is_known → L.silences log.new ≤ L.silences log.old }
    ensures why { IfErr result (λ fault. IsTrue L.is_known → Why fault 0 hall.old (L.silences log.old) hall.new (L.seen log.new).records (L.silences log.new)) }
{
    let at = hall.length();
    look(alloc, hall, log, are_stale(is_stale, calls))?;
    Ok(hall.length() == at)
}

/// Makes the first of these calls together, as of the next turns: in the hall, one behind another, and then what they make is put into
/// the log at once, right behind the entries that the hall had. Calls that make no entry are answered once the log was read on. The hall
/// is left with more than the log, where what they make isn't put there, or that isn't known: so many of its entries are kept.
///
/// # Errors
///
/// As `place` and `look`: the first of the calls, one or more, have no answers.
pub(crate) fn make_group<L: SharedLog>(
    alloc: Global,
    hall: &mut Hall,
    kept: &mut Option<u64>,
    log: &mut L,
    turn: &mut u64,
    is_stale: bool,
    calls: &[Message],
    answers: &mut Vec<Answer>,
) -> Result<Grouped, ReadFault>
    requires kept { kept.old ≡ None }
    requires store { IsTrue L.is_known → IsStore hall.old turn.old (L.seen log.old) }
    requires room { vec_len answers.old + length calls.now ≤ vec_capacity answers.old }
    requires turns { turn.old + length calls.now < 2 ^ 64 }
    ensures store { IsTrue L.is_known → IsStore (shown hall.new kept.new) turn.new (L.seen log.new) }
    ensures turn { turn.old ≤ turn.new }
    ensures until { turn.new ≤ turn.old + length calls.now }
    ensures ok { IfOk result (λ done. Groups L.is_known is_stale (moment hall.old (L.seen log.old) turn.old) calls.now answers.old.items done (moment (shown hall.new kept.new) (L.seen log.new) turn.new) answers.new.items) }
    ensures err { OnErr result (GroupsNot L.is_known (moment hall.old (L.seen log.old) turn.old) calls.now (moment (shown hall.new kept.new) (L.seen log.new) turn.new)) }
    ensures heard { IsTrue L.is_known → L.silences log.new ≤ L.silences log.old }
    ensures why { IfErr result (λ fault. IsTrue L.is_known → Why fault 0 hall.old (L.silences log.old) (shown hall.new kept.new) (L.seen log.new).records (L.silences log.new)) }
    ensures more { (more : List AnswerOf) × (answers.new.items ≡ answers.old.items ++ more) }
    ensures capacity { vec_capacity answers.new ≡ vec_capacity answers.old }
{
    let at = hall.length();
    let writer = log.writer();
    let mut group = Vec::new(alloc);
    let count = gather(alloc, hall, writer, *turn, calls, &mut group, answers);
    if count == 0 {
        drop(group);
        return Ok(Grouped::Not);
    }
    if group.is_empty() {
        drop(group);
        return if read_behind(alloc, hall, log, is_stale, &calls[..count])? {
            Ok(Grouped::Made(count))
        } else {
            Ok(Grouped::Not)
        };
    }
    *kept = Some(at);
    *turn += count as u64;
    match place(log, at, group) {
        Ok(Placed::Ours) => {
            *kept = None;
            Ok(Grouped::Made(count))
        }
        Ok(Placed::Others(page)) => {
            drop(page);
            Ok(Grouped::Not)
        }
        Ok(Placed::Full) => Ok(Grouped::Not),
        Err(fault) => Err(fault),
    }
}
