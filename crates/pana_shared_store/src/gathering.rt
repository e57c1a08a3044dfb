//! Calls that are made in a hall one behind another, before their entries are in the log.
ghost use Rattle.std.specs.Prelude.{◌≡◌, ◌+◌, ◌<◌, ◌≤◌, ◌^◌, [], length, take, vec_len, vec_capacity};
ghost use Rattle.pana_shared_store.specs.inner.Groups.{Gathers, GathersOne};

use crate::committing::{cancel_into, commit_into, put_into};
use crate::making::group_of;
use pana_calls::{Answer, Message, Reply};
use pana_hall::{Hall, Unprepared};
use pana_shared::Record;
use std::alloc::Global;

/// How many records are put at once at most. A call makes two at most.
const MOST: usize = 100;

/// Makes a call in the hall, and adds what it makes to the records of a group, as of this turn. None where memory runs out, and then
/// nothing changes.
fn gather_one(
    alloc: Global,
    hall: &mut Hall,
    writer: u64,
    turn: u64,
    message: &Message,
    group: &mut Vec<Record>,
) -> Option<Reply>
    ensures { GathersOne writer turn hall.old group.old.items message.now result hall.new group.new.items }
{
    let Ok(call) = message.call.copy_of(alloc) else {
        return None;
    };
    match hall.take_all().prepare(&message.by, call) {
        Ok(prepared) => {
            let Ok(mut made) = group_of(alloc, writer, turn, prepared.entry(), prepared.second())
            else {
                cancel_into(hall, prepared);
                return None;
            };
            if group.append(&mut made).is_err() {
                drop(made);
                cancel_into(hall, prepared);
                return None;
            }
            drop(made);
            Some(commit_into(hall, prepared))
        }
        Err(Unprepared { hall: same, reply }) => {
            put_into(hall, same);
            Some(reply)
        }
    }
}

/// Makes the first of these calls in the hall, as of the turns behind this one, as long as the group has room for what they make and
/// memory is there. Adds their answers and what they make, and returns how many they are.
pub(crate) fn gather(
    alloc: Global,
    hall: &mut Hall,
    writer: u64,
    turn: u64,
    calls: &[Message],
    group: &mut Vec<Record>,
    answers: &mut Vec<Answer>,
) -> usize
    requires none { group.old.items ≡ [] }
    requires room { vec_len answers.old + length calls.now ≤ vec_capacity answers.old }
    requires turns { turn + length calls.now < 2 ^ 64 }
    ensures gathers { Gathers writer turn hall.old answers.old.items (take result calls.now) hall.new answers.new.items group.new.items }
    ensures within { result ≤ length calls.now }
    ensures capacity { vec_capacity answers.new ≡ vec_capacity answers.old }
{
    let mut count: usize = 0;
    while count < calls.len() {
        if group.len() > MOST - 2 {
            return count;
        }
        let next = turn + count as u64 + 1;
        match gather_one(alloc, hall, writer, next, &calls[count], group) {
            Some(reply) => answers.push_reserved(Answer::Given(reply)),
            None => return count,
        }
        count += 1;
    }
    count
}
