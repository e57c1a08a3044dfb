ghost use Rattle.std.specs.Prelude.{◌≡◌, ◌↔◌, ◌≤◌, ◌⊎◌, List, IsTrue, IfOk, OnOk, OnErr, length};
ghost use Rattle.pana_journal.specs.declared.entry.Entry.{Entry};
ghost use Rattle.pana_store.specs.Store.{BreaksOff, FailsToGather, Gathers, GathersOnly, IsKept, MakesEntries, Settles, Waits, stored};
ghost use Rattle.pana_store.specs.inner.{answer_to, store_of, IsStore};

use crate::committing::{cancel_into, commit_into, put_into};
use crate::pending::{Pending, add, settle};
use pana_calls::{Answer, Call, Cause, NoAnswer, Reply, Session};
use pana_copies::DeviceName;
use pana_hall::{Hall, Unprepared};
use pana_log::{Device, DeviceFault, Log, LogState};
use pana_seal::Sealer;
use std::alloc::{AllocError, Global};
use std::marker::Model;

/// A hall, and a log that keeps its journal in groups: the calls since the session has settled are kept together, by one line, when
/// it settles. Until then their answers mustn't be given to anybody. To contracts it is the entries, those of them that are kept,
/// the log, and what the log's next line is sealed behind.
#[derive(Drop)]
pub struct Store<D: Device> {
    alloc: Global,
    hall: Hall,
    log: Log<D>,
    sealer: Sealer,
    pending: Pending,
}

impl<D: Device> Model for Store<D> {
    ghost use Rattle.pana_store.specs.Store.{StoreView};
    ghost use Rattle.pana_store.specs.inner.{store_of, IsStore};

    ghost Value = { StoreView D };

    ghost view = { λ store. store_of store.hall store.log store.sealer store.pending };

    ghost invariant = { λ store. IsStore D.is_known D.seen D.may_leave D.is_usable store.hall store.log store.sealer store.pending };
}

impl<D: Device + Drop> Store<D> {
    /// The store of a hall that was loaded from a log, with that log and what has taken up its lines: all its entries are kept.
    /// Takes 1,048,577 bytes; the only error is that this allocation fails.
    pub fn new(
        alloc: Global,
        hall: Hall,
        log: Log<D>,
        sealer: Sealer,
    ) -> Result<Store<D>, AllocError>
        requires { IsTrue D.is_known → IsKept D.seen D.may_leave D.is_usable (record { entries = hall; log = log; sealer = sealer }) }
        ensures entries { IfOk result (λ store. store.entries ≡ hall) }
        ensures kept { IfOk result (λ store. store.kept ≡ hall) }
        ensures log { IfOk result (λ store. store.log ≡ log) }
    {
        let pending = match Pending::new(alloc) {
            Ok(pending) => pending,
            Err(fault) => {
                drop(hall);
                return Err(fault);
            }
        };
        Ok(Store {
            alloc,
            hall,
            log,
            sealer,
            pending,
        })
    }
}

impl<D: Device> Store<D> {
    /// Whether the log takes entries: no call that may have changed its file has failed. Takes no memory.
    pub fn is_open(&self) -> bool
        ensures open { IsTrue result ↔ (self.now.log.state ≡ LogState.Open) }
        ensures kept { IsTrue D.is_known → IsKept D.seen D.may_leave D.is_usable (stored self.now) }
        ensures waits { (waiting : List Entry) × Waits self.now waiting }
    {
        self.log.state == LogState::Open
    }

    /// The log that has the entries that are kept, and its device. Takes no memory.
    pub fn log(&self) -> &Log<D>
        ensures { result.now ≡ self.now.log }
    {
        &self.log
    }

    /// How many entries the hall's journal has. Takes no memory.
    pub fn length(&self) -> u64
        ensures { result ≡ length self.now.entries }
    {
        self.hall.length()
    }

    /// Makes a report or a sighting, while the log is open.
    fn make(&mut self, by: &DeviceName, call: Call) -> Result<Answer, NoAnswer>
        requires makes { MakesEntries call }
        ensures step { IfOk result (λ answer. Gathers D.is_known D.seen D.may_leave D.is_usable D.moment D.left_since D.has_failed self.old by.now call answer self.new) }
        ensures fails { OnErr result (FailsToGather D.is_known D.moment D.left_since D.has_failed self.old by.now call self.new) }
    {
        let Store {
            alloc,
            hall,
            log,
            sealer,
            pending,
        } = self;
        report(*alloc, hall, log, sealer, pending, by, call)
    }
}

/// Makes a report or a sighting, while the log is open. Where its entries may be too many for the group, those that wait are kept
/// first.
fn report<D: Device>(
    alloc: Global,
    hall: &mut Hall,
    log: &mut Log<D>,
    sealer: &mut Sealer,
    pending: &mut Pending,
    by: &DeviceName,
    call: Call,
) -> Result<Answer, NoAnswer>
    requires makes { MakesEntries call }
    requires store { IsStore D.is_known D.seen D.may_leave D.is_usable hall.old log.old sealer.old pending.old }
    ensures store { IsStore D.is_known D.seen D.may_leave D.is_usable hall.new log.new sealer.new pending.new }
    ensures step { IfOk result (λ answer. Gathers D.is_known D.seen D.may_leave D.is_usable D.moment D.left_since D.has_failed (store_of hall.old log.old sealer.old pending.old) by.now call answer (store_of hall.new log.new sealer.new pending.new)) }
    ensures fails { OnErr result (FailsToGather D.is_known D.moment D.left_since D.has_failed (store_of hall.old log.old sealer.old pending.old) by.now call (store_of hall.new log.new sealer.new pending.new)) }
{
    if log.state != LogState::Open {
        drop(call);
        return Err(NoAnswer);
    }
    let Ok(()) = make_room(hall, log, sealer, pending) else {
        drop(call);
        return Err(NoAnswer);
    };
    Ok(gather(alloc, hall, log, sealer, pending, by, call))
}

/// Sees that the entries of one more call may wait: where they may be too many, those that wait are kept first.
fn make_room<D: Device>(
    hall: &Hall,
    log: &mut Log<D>,
    sealer: &mut Sealer,
    pending: &mut Pending,
) -> Result<(), NoAnswer>
    requires open { log.old.state ≡ LogState.Open }
    requires store { IsStore D.is_known D.seen D.may_leave D.is_usable hall.now log.old sealer.old pending.old }
    ensures store { IsStore D.is_known D.seen D.may_leave D.is_usable hall.now log.new sealer.new pending.new }
    ensures open { OnOk result (log.new.state ≡ LogState.Open) }
    ensures few { OnOk result (pending.new.count ≤ 998) }
    ensures ok { OnOk result ((store_of hall.now log.new sealer.new pending.new ≡ store_of hall.now log.old sealer.old pending.old)
        ⊎ Settles D.is_known D.seen D.may_leave D.is_usable D.moment D.left_since (store_of hall.now log.old sealer.old pending.old) (store_of hall.now log.new sealer.new pending.new)) }
    ensures breaks_off { OnErr result (BreaksOff D.is_known D.moment D.left_since D.has_failed (store_of hall.now log.old sealer.old pending.old) (store_of hall.now log.new sealer.new pending.new)) }
{
    if !pending.is_full() {
        return Ok(());
    }
    settle_all(hall, log, sealer, pending)?;
    Ok(())
}

/// Makes a report or a sighting, whose entries wait behind those that wait.
fn gather<D: Device>(
    alloc: Global,
    hall: &mut Hall,
    log: &mut Log<D>,
    sealer: &Sealer,
    pending: &mut Pending,
    by: &DeviceName,
    call: Call,
) -> Answer
    requires open { log.old.state ≡ LogState.Open }
    requires few { pending.old.count ≤ 998 }
    requires store { IsStore D.is_known D.seen D.may_leave D.is_usable hall.old log.old sealer.now pending.old }
    ensures store { IsStore D.is_known D.seen D.may_leave D.is_usable hall.new log.new sealer.now pending.new }
    ensures step { GathersOnly D.is_known D.seen D.may_leave D.is_usable D.moment D.left_since D.has_failed (store_of hall.old log.old sealer.now pending.old) by.now call result (store_of hall.new log.new sealer.now pending.new) }
{
    match hall.take_all().prepare(by, call) {
        Ok(prepared) => {
            match add(
                alloc,
                log,
                sealer,
                pending,
                prepared.entry(),
                prepared.second(),
            ) {
                Ok(()) => Answer::Given(commit_into(hall, prepared)),
                Err(fault) => {
                    cancel_into(hall, prepared);
                    answer_to(fault)
                }
            }
        }
        Err(Unprepared { hall: same, reply }) => {
            put_into(hall, same);
            Answer::Given(reply)
        }
    }
}

/// The answer to a call whose entries the device doesn't take.
fn answer_to(fault: DeviceFault) -> Answer
    ensures { result ≡ answer_to fault }
{
    match fault {
        DeviceFault::OutOfMemory => Answer::Given(Reply::Refused(Cause::OutOfMemory)),
        DeviceFault::StorageFull | DeviceFault::Failed => Answer::NotKept,
    }
}

/// Keeps all entries that wait.
fn settle_all<D: Device>(
    hall: &Hall,
    log: &mut Log<D>,
    sealer: &mut Sealer,
    pending: &mut Pending,
) -> Result<(), NoAnswer>
    requires { IsStore D.is_known D.seen D.may_leave D.is_usable hall.now log.old sealer.old pending.old }
    ensures store { IsStore D.is_known D.seen D.may_leave D.is_usable hall.now log.new sealer.new pending.new }
    ensures none { OnOk result (pending.new.count ≡ 0) }
    ensures settles { OnOk result (Settles D.is_known D.seen D.may_leave D.is_usable D.moment D.left_since (store_of hall.now log.old sealer.old pending.old) (store_of hall.now log.new sealer.new pending.new)) }
    ensures breaks_off { OnErr result (BreaksOff D.is_known D.moment D.left_since D.has_failed (store_of hall.now log.old sealer.old pending.old) (store_of hall.now log.new sealer.new pending.new)) }
{
    if pending.count == 0 {
        return Ok(());
    }
    if log.state != LogState::Open {
        return Err(NoAnswer);
    }
    settle(log, sealer, pending)?;
    Ok(())
}

impl<D: Device> Session for Store<D> {
    ghost use Rattle.std.specs.Prelude.{IfOk, OnOk, OnErr};
    ghost use Rattle.pana_calls.specs.Session.{alone};
    ghost use Rattle.pana_store.specs.Store.{Gathers, Settles, BreaksOff, FailsToGather};

    ghost step = { λ old by call answer new. Gathers D.is_known D.seen D.may_leave D.is_usable D.moment D.left_since D.has_failed old by call answer new };

    ghost moment = { λ store. D.moment store.log.device };

    ghost fails = { alone (λ old by call new. FailsToGather D.is_known D.moment D.left_since D.has_failed old by call new) };

    ghost settles = { λ old new. Settles D.is_known D.seen D.may_leave D.is_usable D.moment D.left_since old new };

    ghost breaks_off = { λ old new. BreaksOff D.is_known D.moment D.left_since D.has_failed old new };

    /// Makes one call of a device. What it makes waits to be kept. A query is answered by the hall alone, with what waits.
    ///
    /// # Errors
    ///
    /// `NoAnswer` for a report or a sighting, where the log is broken, or where those that wait had to be kept first and couldn't be.
    fn call(&mut self, by: &DeviceName, call: Call) -> Result<Answer, NoAnswer> {
        match call {
            Call::Query(query) => Ok(Answer::Given(self.hall.apply(by, Call::Query(query)))),
            call => self.make(by, call),
        }
    }

    /// Keeps what the calls since the last time have made, by one line, so that a crash leaves all of it or nothing.
    ///
    /// # Errors
    ///
    /// `NoAnswer` where the log is broken, and entries wait.
    fn settle(&mut self) -> Result<(), NoAnswer> {
        let Store {
            alloc: _,
            hall,
            log,
            sealer,
            pending,
        } = self;
        settle_all(hall, log, sealer, pending)
    }

    /// How many entries the journal has.
    fn entries(&self) -> u64 {
        self.length()
    }

    /// To settle takes as long as the disk does.
    fn is_slow(&self) -> bool {
        true
    }
}
