ghost use Rattle.std.specs.Prelude.{◌≡◌, ◌≤◌, ◌<◌, ◌+◌, ◌^◌, ◌⊎◌, ◌++◌, [], ◌∷◌, false, IsTrue, IfErr, IfOk, List, OnErr, OnOk, is_some, length, take, vec_len, vec_capacity};
ghost use Rattle.pana_calls.specs.declared.answer.Answer.{Answer as AnswerOf};
ghost use Rattle.pana_calls.specs.Session.{AddsAll, AddsSome};
ghost use Rattle.pana_shared.specs.Log.{HaveSome, Reads};
ghost use Rattle.pana_shared_store.specs.Store.{AreFirst, IsFresh, Makes, MakesBy, Opens, StaysOn, TriesBy, Why, foreign_of};
ghost use Rattle.pana_shared_store.specs.inner.{IsStore};
ghost use Rattle.pana_shared_store.specs.inner.Groups.{Calls, FailsFor, Groups, GroupsNot, moment_of};

use crate::asking::ask;
use crate::following::read_on;
use crate::grouping::{Grouped, make_group};
use crate::remaking::remake;
use crate::trying::make;
use pana_calls::{Answer, Call, Message, NoAnswer, Session};
use pana_copies::DeviceName;
use pana_hall::Hall;
use pana_shared::{ReadFault, SharedLog};
use std::alloc::Global;
use std::marker::Model;

/// A hall, and a log that others append to as well, which has the hall's journal: an entry is put into the log before its call is
/// answered, and each call is made behind all that the log had when it began, but a question to a stale store. To contracts it is the
/// entries that are followed so far, what it has seen of the log, how many calls may have made some, and whether it is stale.
#[derive(Drop)]
pub struct SharedStore<L: SharedLog> {
    alloc: Global,
    hall: Hall,
    /// How many entries of the hall are in the log, where it has more: it is made anew before the next call.
    kept: Option<u64>,
    log: L,
    turn: u64,
    /// How many calls of a list are yet to be made one by one, since the last group of them wasn't put.
    alone: u64,
    /// Why the last call that had no answer had none.
    fault: Option<ReadFault>,
    /// Whether questions are answered from what is followed so far.
    is_stale: bool,
}

impl<L: SharedLog> Model for SharedStore<L> {
    ghost use Rattle.std.specs.Prelude.{IsTrue, is_some};
    ghost use Rattle.pana_shared_store.specs.Store.{StoreView, foreign_of};
    ghost use Rattle.pana_shared_store.specs.inner.{IsStore};
    ghost use Rattle.pana_shared_store.specs.inner.Groups.{shown};

    ghost Value = { StoreView };

    ghost view = { λ store. record { entries = shown store.hall store.kept; seen = L.seen store.log; silences = L.silences store.log; turn = store.turn; broken = is_some (foreign_of store.fault); fault = store.fault; is_stale = store.is_stale } };

    ghost invariant = { λ store. IsTrue L.is_known → IsStore (shown store.hall store.kept) store.turn (L.seen store.log) };
}

impl<L: SharedLog + Drop> SharedStore<L> {
    /// The store of a log, all of which is read. Nothing has been put into it by this writer. A stale one answers questions from what
    /// it has followed so far, and reads on for them only where the log says that it is time to.
    ///
    /// # Errors
    ///
    /// Those of reading; `Foreign` also where an entry isn't the next one of a journal.
    pub fn open(alloc: Global, mut log: L, is_stale: bool) -> Result<SharedStore<L>, ReadFault>
        requires { IsTrue L.is_known → IsFresh (L.seen log) }
        ensures opens { IfOk result (λ store. Opens L.is_known (L.seen log) store) }
        ensures stale { IfOk result (λ store. store.is_stale ≡ is_stale) }
    {
        let hall = read_hall(alloc, &mut log)?;
        Ok(SharedStore {
            alloc,
            hall,
            kept: None,
            log,
            turn: 0,
            alone: 0,
            fault: None,
            is_stale,
        })
    }
}

/// The hall of a log, all of which is read: for who asks many questions of one moment.
///
/// # Errors
///
/// Those of reading; `Foreign` also where an entry isn't the next one of a journal.
pub fn read_hall<L: SharedLog>(alloc: Global, log: &mut L) -> Result<Hall, ReadFault>
    requires { IsTrue L.is_known → IsFresh (L.seen log.old) }
    ensures reads { IsTrue L.is_known → Reads (L.seen log.old) (L.seen log.new) }
    ensures first { IfOk result (λ hall. IsTrue L.is_known → AreFirst hall (L.seen log.new).records) }
    ensures all { IfOk result (λ hall. IsTrue L.is_known → length (L.seen log.old).records ≤ length hall) }
{
    let Ok(mut hall) = Hall::new(alloc) else {
        return Err(ReadFault::OutOfMemory);
    };
    if let Err(fault) = read_on(alloc, &mut hall, log) {
        drop(hall);
        return Err(fault);
    }
    Ok(hall)
}

/// Makes a call that may make entries, as the next turn.
fn make_next<L: SharedLog>(
    alloc: Global,
    hall: &mut Hall,
    log: &mut L,
    turn: &mut u64,
    by: &DeviceName,
    call: &Call,
) -> Result<Answer, ReadFault>
    requires store { IsTrue L.is_known → IsStore hall.old turn.old (L.seen log.old) }
    ensures store { IsTrue L.is_known → IsStore hall.new turn.new (L.seen log.new) }
    ensures turn { turn.old ≤ turn.new }
    ensures ok { IfOk result (λ answer. MakesBy L.is_known false turn.old turn.new hall.old (L.seen log.old) by.now call.now answer hall.new (L.seen log.new)) }
    ensures err { OnErr result (StaysOn L.is_known hall.old (L.seen log.old) hall.new (L.seen log.new) ⊎ TriesBy L.is_known turn.old turn.new hall.old (L.seen log.old) (record { by = by.now; call = call.now } ∷ []) hall.new (L.seen log.new)) }
    ensures why { IfErr result (λ fault. IsTrue L.is_known → Why fault turn.old hall.old (L.silences log.old) hall.new (L.seen log.new).records (L.silences log.new)) }
{
    let Some(next) = turn.checked_add(1) else {
        return Err(ReadFault::NoAnswer);
    };
    *turn = next;
    make(alloc, hall, log, next, by, call)
}

/// Makes one call of a device.
fn answer<L: SharedLog>(
    alloc: Global,
    hall: &mut Hall,
    log: &mut L,
    turn: &mut u64,
    is_stale: bool,
    by: &DeviceName,
    call: Call,
) -> Result<Answer, ReadFault>
    requires store { IsTrue L.is_known → IsStore hall.old turn.old (L.seen log.old) }
    ensures store { IsTrue L.is_known → IsStore hall.new turn.new (L.seen log.new) }
    ensures turn { turn.old ≤ turn.new }
    ensures ok { IfOk result (λ answer. MakesBy L.is_known is_stale turn.old turn.new hall.old (L.seen log.old) by.now call answer hall.new (L.seen log.new)) }
    ensures err { OnErr result (StaysOn L.is_known hall.old (L.seen log.old) hall.new (L.seen log.new) ⊎ TriesBy L.is_known turn.old turn.new hall.old (L.seen log.old) (record { by = by.now; call = call } ∷ []) hall.new (L.seen log.new)) }
    ensures why { IfErr result (λ fault. IsTrue L.is_known → Why fault turn.old hall.old (L.silences log.old) hall.new (L.seen log.new).records (L.silences log.new)) }
{
    match call {
        Call::Query(query) => ask(alloc, hall, log, *turn, is_stale, by, query),
        call => {
            let made = make_next(alloc, hall, log, turn, by, &call);
            drop(call);
            made
        }
    }
}

impl<L: SharedLog> SharedStore<L> {
    /// The number of what stands in the log and is no entry, if that was met: no call is answered any more. Takes no memory.
    pub fn foreign(&self) -> Option<u64>
        ensures broken { is_some result ≡ self.now.broken }
        ensures number { result ≡ foreign_of self.now.fault }
    {
        match self.fault {
            Some(ReadFault::Foreign { number }) => Some(number),
            _ => None,
        }
    }

    /// Makes one call of a device, by a store that isn't broken.
    fn make(&mut self, by: &DeviceName, call: Call) -> Result<Answer, ReadFault>
        ensures ok { IfOk result (λ answer. MakesBy L.is_known self.old.is_stale self.old.turn self.new.turn self.old.entries self.old.seen by.now call answer self.new.entries self.new.seen) }
        ensures err { OnErr result (StaysOn L.is_known self.old.entries self.old.seen self.new.entries self.new.seen ⊎ TriesBy L.is_known self.old.turn self.new.turn self.old.entries self.old.seen (record { by = by.now; call = call } ∷ []) self.new.entries self.new.seen) }
        ensures turn { self.old.turn ≤ self.new.turn }
        ensures broken { self.new.broken ≡ self.old.broken }
        ensures why { IfErr result (λ fault. IsTrue L.is_known → Why fault self.old.turn self.old.entries self.old.silences self.new.entries self.new.seen.records self.new.silences) }
        ensures stale { self.new.is_stale ≡ self.old.is_stale }
    {
        let SharedStore {
            alloc,
            hall,
            kept,
            log,
            turn,
            alone: _,
            fault: _,
            is_stale,
        } = self;
        if let Err(fault) = remake(*alloc, hall, kept) {
            drop(call);
            return Err(fault);
        }
        answer(*alloc, hall, log, turn, *is_stale, by, call)
    }

    /// Makes the call of a message, by a store that isn't broken.
    fn make_of(&mut self, message: &Message) -> Result<Answer, ReadFault>
        ensures ok { IfOk result (λ answer. MakesBy L.is_known self.old.is_stale self.old.turn self.new.turn self.old.entries self.old.seen message.now.by message.now.call answer self.new.entries self.new.seen) }
        ensures err { OnErr result (StaysOn L.is_known self.old.entries self.old.seen self.new.entries self.new.seen ⊎ TriesBy L.is_known self.old.turn self.new.turn self.old.entries self.old.seen (message.now ∷ []) self.new.entries self.new.seen) }
        ensures turn { self.old.turn ≤ self.new.turn }
        ensures broken { self.new.broken ≡ self.old.broken }
        ensures why { IfErr result (λ fault. IsTrue L.is_known → Why fault self.old.turn self.old.entries self.old.silences self.new.entries self.new.seen.records self.new.silences) }
        ensures stale { self.new.is_stale ≡ self.old.is_stale }
    {
        let Ok(call) = message.call.copy_of(self.alloc) else {
            return Err(ReadFault::OutOfMemory);
        };
        self.make(&message.by, call)
    }

    /// Whether so many calls may be made together: there are turns for them, and for one call behind them.
    fn may_group(&self, count: usize) -> bool
        ensures turns { IsTrue result → self.now.turn + count + 1 < 2 ^ 64 }
        ensures store { IsTrue L.is_known → IsStore self.now.entries self.now.turn self.now.seen }
    {
        count > 1 && self.alone == 0 && (count as u64) < u64::MAX - self.turn
    }

    /// Makes the first of these calls together, by a store that isn't broken.
    fn make_some(
        &mut self,
        calls: &[Message],
        answers: &mut Vec<Answer>,
    ) -> Result<Grouped, ReadFault>
        requires some { 0 < length calls.now }
        requires room { vec_len answers.old + length calls.now ≤ vec_capacity answers.old }
        requires turns { self.old.turn + length calls.now + 1 < 2 ^ 64 }
        ensures ok { IfOk result (λ done. Groups L.is_known self.old.is_stale (moment_of self.old) calls.now answers.old.items done (moment_of self.new) answers.new.items) }
        ensures err { OnErr result (GroupsNot L.is_known (moment_of self.old) calls.now (moment_of self.new)) }
        ensures turn { self.old.turn ≤ self.new.turn }
        ensures until { self.new.turn ≤ self.old.turn + length calls.now }
        ensures broken { self.new.broken ≡ self.old.broken }
        ensures some { IsTrue L.is_known → HaveSome self.old.seen.loose }
        ensures heard { IsTrue L.is_known → self.new.silences ≤ self.old.silences }
        ensures why { IfErr result (λ fault. IsTrue L.is_known → Why fault 0 self.old.entries self.old.silences self.new.entries self.new.seen.records self.new.silences) }
        ensures stale { self.new.is_stale ≡ self.old.is_stale }
        ensures more { (more : List AnswerOf) × (answers.new.items ≡ answers.old.items ++ more) }
        ensures capacity { vec_capacity answers.new ≡ vec_capacity answers.old }
    {
        let SharedStore {
            alloc,
            hall,
            kept,
            log,
            turn,
            alone: _,
            fault: _,
            is_stale,
        } = self;
        remake(*alloc, hall, kept)?;
        make_group(*alloc, hall, kept, log, turn, *is_stale, calls, answers)
    }

    /// Makes the first of these calls together, where that may be. Returns how many they are, or none, where they are to be made one by
    /// one: then no group is tried for as many calls as the journal has entries, if the hall is to be made anew.
    ///
    /// # Errors
    ///
    /// `NoAnswer` where the log gives none, or memory runs out: the first of the calls have no answers.
    fn call_group(
        &mut self,
        calls: &[Message],
        answers: &mut Vec<Answer>,
    ) -> Result<Option<usize>, NoAnswer>
        requires whole { self.old.broken ≡ false }
        requires some { 0 < length calls.now }
        requires room { vec_len answers.old + length calls.now ≤ vec_capacity answers.old }
        ensures ok { IfOk result (λ done. Calls L.is_known self.old calls.now answers.old.items done self.new answers.new.items) }
        ensures err { OnErr result (AddsSome (Makes L.is_known) (FailsFor L.is_known) self.old calls.now answers.old.items answers.new.items self.new) }
        ensures capacity { vec_capacity answers.new ≡ vec_capacity answers.old }
    {
        if !self.may_group(calls.len()) {
            return Ok(None);
        }
        let given = answers.len();
        match self.make_some(calls, answers) {
            Ok(Grouped::Made(count)) => Ok(Some(count)),
            Ok(Grouped::Not) => {
                answers.truncate(given);
                self.alone = match self.kept {
                    Some(_) => self.hall.length(),
                    None => calls.len() as u64,
                };
                Ok(None)
            }
            Err(fault) => {
                answers.truncate(given);
                self.fault = Some(fault);
                Err(NoAnswer)
            }
        }
    }

    /// Makes the first of these calls.
    ///
    /// # Errors
    ///
    /// As `call`; where memory runs out too.
    fn call_first(&mut self, calls: &[Message], answers: &mut Vec<Answer>) -> Result<(), NoAnswer>
        requires whole { self.old.broken ≡ false }
        requires some { 0 < length calls.now }
        requires room { vec_len answers.old + length calls.now ≤ vec_capacity answers.old }
        ensures ok { OnOk result (AddsAll (Makes L.is_known) self.old (take 1 calls.now) answers.old.items answers.new.items self.new) }
        ensures err { OnErr result (AddsSome (Makes L.is_known) (FailsFor L.is_known) self.old calls.now answers.old.items answers.new.items self.new) }
        ensures capacity { vec_capacity answers.new ≡ vec_capacity answers.old }
    {
        self.alone = self.alone.saturating_sub(1);
        match self.make_of(&calls[0]) {
            Ok(answer) => {
                answers.push_reserved(answer);
                Ok(())
            }
            Err(fault) => {
                self.fault = Some(fault);
                Err(NoAnswer)
            }
        }
    }

    /// Makes the first of these calls, several together or one alone, and returns how many.
    ///
    /// # Errors
    ///
    /// As `call_group` and `call_first`.
    fn call_some(&mut self, calls: &[Message], answers: &mut Vec<Answer>) -> Result<usize, NoAnswer>
        requires some { 0 < length calls.now }
        requires room { vec_len answers.old + length calls.now ≤ vec_capacity answers.old }
        ensures ok { IfOk result (λ count. (0 < count) × (count ≤ length calls.now) × AddsAll (Makes L.is_known) self.old (take count calls.now) answers.old.items answers.new.items self.new) }
        ensures err { OnErr result (AddsSome (Makes L.is_known) (FailsFor L.is_known) self.old calls.now answers.old.items answers.new.items self.new) }
        ensures capacity { vec_capacity answers.new ≡ vec_capacity answers.old }
    {
        if self.foreign().is_some() {
            return Err(NoAnswer);
        }
        match self.call_group(calls, answers)? {
            Some(count) => Ok(count),
            None => {
                self.call_first(calls, answers)?;
                Ok(1)
            }
        }
    }

    /// Makes the calls, some of them together, and adds their answers.
    ///
    /// # Errors
    ///
    /// As `call_some`. None is made behind those that have no answer.
    fn call_each(&mut self, calls: &[Message], answers: &mut Vec<Answer>) -> Result<(), NoAnswer>
        requires room { vec_len answers.old + length calls.now ≤ vec_capacity answers.old }
        ensures step { OnOk result (AddsAll (Makes L.is_known) self.old calls.now answers.old.items answers.new.items self.new) }
        ensures fails { OnErr result (AddsSome (Makes L.is_known) (FailsFor L.is_known) self.old calls.now answers.old.items answers.new.items self.new) }
    {
        let mut left = calls;
        while !left.is_empty() {
            let count = self.call_some(left, answers)?;
            let (_, later) = left.split_at(count);
            left = later;
        }
        Ok(())
    }
}

impl<L: SharedLog> Session for SharedStore<L> {
    ghost use Rattle.std.specs.Prelude.{true};
    ghost use Rattle.pana_shared_store.specs.Store.{Fails, HasCause, Makes};

    ghost step = { Makes L.is_known };

    ghost fails = { λ old calls new. Fails L.is_known old calls new × HasCause L.is_known old new };

    ghost keeps_together = { true };

    /// Makes one call of a device, behind all that the log had when it began, but a question to a stale store. What it makes is in the
    /// log when it is answered.
    ///
    /// # Errors
    ///
    /// `NoAnswer` where the log gives none, where others were faster four thousand times, where memory runs out, or where something stands
    /// in the log that is no entry. It isn't known then whether the call was made.
    fn call(&mut self, by: &DeviceName, call: Call) -> Result<Answer, NoAnswer> {
        if self.foreign().is_some() {
            drop(call);
            return Err(NoAnswer);
        }
        match self.make(by, call) {
            Ok(answer) => Ok(answer),
            Err(fault) => {
                self.fault = Some(fault);
                Err(NoAnswer)
            }
        }
    }

    /// Makes calls one after another, as `call` does, and adds their answers. What several make, at most 100 entries, is put into the log
    /// at once, where nobody else's entry comes first.
    ///
    /// # Errors
    ///
    /// As `call`: one call, or several that were to be put at once. None is made behind them.
    fn call_all(&mut self, calls: Vec<Message>, answers: &mut Vec<Answer>) -> Result<(), NoAnswer> {
        let done = self.call_each(calls.as_slice(), answers);
        drop(calls);
        done
    }

    /// Does nothing: what a call makes is kept before it is answered.
    fn settle(&mut self) -> Result<(), NoAnswer> {
        Ok(())
    }

    /// How many entries the journal has, as far as it was read.
    fn entries(&self) -> u64 {
        match self.kept {
            Some(count) => count,
            None => self.hall.length(),
        }
    }

    /// Yes: a call takes as long as the log does.
    fn is_slow(&self) -> bool {
        true
    }

    /// Yes: others append to the log.
    fn is_shared(&self) -> bool {
        true
    }

    /// Yes: what the calls of a list make is put by one append.
    fn keeps_together(&self) -> bool {
        true
    }

    /// Whether nothing was met in the log that is no entry.
    fn may_recover(&self) -> bool {
        self.foreign().is_none()
    }
}
