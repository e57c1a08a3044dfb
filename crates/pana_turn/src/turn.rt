//! A turn: to wait for it, and to end it.

ghost use Rattle.std.specs.Prelude.{◌≡◌, ◌++◌, [], ◌∷◌, IsFalse, IsTrue, None, Some};
ghost use Rattle.pana_turn.specs.declared.view.Stage.TheVariants.{Drawn, Idle, Tested, Turn};
ghost use Rattle.pana_turn.specs.History.{IsHistory, calls_of, left_by};
ghost use Rattle.pana_turn.specs.inner.Steps.{SeesMore};
ghost use Rattle.pana_turn.specs.inner.Views.{pass};

use crate::machine::Machine;
use crate::plays::{Await, Draw, Finish, Naming};
use crate::turns::{DeskSeat, SharedTable};
use crate::waits::Waits;
use std::hint;
use std::snapshot::Snapshot;
use std::sync::Wait;
use std::sync::atomic::AtomicU64;
use std::time::Duration;

/// How often a caller looks whether the desk is free before it sleeps.
const LOOKS: u32 = 8;

/// How long it sleeps then, in microseconds.
const NAP: u64 = 50;

/// How often it does so where calls may take long, before it sleeps until one is finished.
const NAPS: u32 = 4;

/// Whether no call is on its way. Another caller may draw a ticket at once.
fn is_free<M: Machine>(shared: &SharedTable<M>) -> bool
    requires { shared.now.table_id.words ≡ 2 }
{
    let finished = shared.peek(1);
    shared.peek(0) == finished
}

/// Looks a few times whether no call is on its way, and says so.
fn is_soon_free<M: Machine>(shared: &SharedTable<M>) -> bool
    requires { shared.now.table_id.words ≡ 2 }
{
    for _ in 0..LOOKS {
        if is_free(shared) {
            return true;
        }
        hint::spin_loop();
    }
    false
}

/// Waits until no call is on its way, for a moment, or else until one is finished.
///
/// So a caller waits for that call at most, and for those who had drawn a ticket by then.
fn await_one<M: Machine, R: Wait>(rt: &R, shared: &SharedTable<M>, waits: &Waits)
    requires { shared.now.table_id.words ≡ 2 }
{
    let (nap, finished) = (AtomicU64::new(0), shared.peek(1));
    for _ in 0..NAPS {
        if is_soon_free(shared) {
            return;
        }
        nap.park_timeout(rt, 0, Duration::from_micros(NAP));
    }
    for _ in rt.forever() {
        if shared.peek(1) != finished {
            return;
        }
        waits.sleep(rt, shared, finished);
    }
}

/// Waits until no call is on its way, or nearly so. It sleeps on a word of its own, which nobody changes.
///
/// Tickets are taken in order, so a caller that holds one and has no processor keeps all behind it waiting. Callers that
/// wait here hold none.
fn await_rest<M: Machine, R: Wait>(rt: &R, shared: &SharedTable<M>)
    requires { shared.now.table_id.words ≡ 2 }
{
    let nap = AtomicU64::new(0);
    for _ in rt.forever() {
        if is_soon_free(shared) {
            return;
        }
        nap.park_timeout(rt, 0, Duration::from_micros(NAP));
    }
}

/// Waits until a ticket may be drawn.
fn await_ticket<M: Machine, R: Wait>(rt: &R, shared: &SharedTable<M>, waits: &Waits)
    requires { shared.now.table_id.words ≡ 2 }
{
    if waits.are_long() {
        await_one(rt, shared, waits);
    } else {
        await_rest(rt, shared);
    }
}

/// A look whether the ticket's turn has come. Where it has, the machine's slot is the seat's.
fn has_come<M: Machine>(
    shared: &SharedTable<M>,
    seat: &mut DeskSeat<M>,
    number: u32,
    ticket: u64,
) -> bool
    requires table { (shared.now.table_id.words ≡ 2) × (shared.now.table_id.slots ≡ 1) }
    requires seat { (seat.old.table_id ≡ shared.now.table_id) × (seat.old.me ≡ (pass shared.now.key.begun number (calls_of number seat.old.me.0.seen) seat.old.me.0.seen (Drawn ticket), [])) }
    ensures table { seat.new.table_id ≡ seat.old.table_id }
    ensures come { IsTrue result → seat.new.me ≡ (pass shared.now.key.begun number (calls_of number seat.old.me.0.seen) seat.new.me.0.seen Turn, (0, Some (left_by shared.now.key.begun seat.new.me.0.seen)) ∷ []) }
    ensures early { IsFalse result → seat.new.me ≡ (pass shared.now.key.begun number (calls_of number seat.old.me.0.seen) seat.new.me.0.seen (Drawn ticket), []) }
    ensures looked { SeesMore M.step shared.now.key.begun number seat.old.me.0.seen seat.new.me.0.seen }
{
    shared.load::<Await<M>>(seat, 1) == ticket
}

/// Waits until the ticket's turn has come.
fn await_turn<M: Machine, R: Wait>(
    rt: &R,
    shared: &SharedTable<M>,
    waits: &Waits,
    seat: &mut DeskSeat<M>,
    number: u32,
    ticket: u64,
)
    requires table { (shared.now.table_id.words ≡ 2) × (shared.now.table_id.slots ≡ 1) }
    requires seat { (seat.old.table_id ≡ shared.now.table_id) × (seat.old.me ≡ (pass shared.now.key.begun number (calls_of number seat.old.me.0.seen) seat.old.me.0.seen (Drawn ticket), [])) }
    ensures table { seat.new.table_id ≡ seat.old.table_id }
    ensures turn { seat.new.me ≡ (pass shared.now.key.begun number (calls_of number seat.old.me.0.seen) seat.new.me.0.seen Turn, (0, Some (left_by shared.now.key.begun seat.new.me.0.seen)) ∷ []) }
    ensures looked { SeesMore M.step shared.now.key.begun number seat.old.me.0.seen seat.new.me.0.seen }
{
    let mut looks = 0;
    for _ in rt.forever() {
        let finished = shared.peek(1);
        if has_come(shared, seat, number, ticket) {
            return;
        }
        looks = waits.pause(rt, shared, finished, looks);
    }
    unreachable!()
}

/// Draws a ticket, waits until that number of calls is finished, and takes the machine.
pub(crate) fn take_turn<M: Machine, R: Wait>(
    rt: &R,
    shared: &SharedTable<M>,
    waits: &Waits,
    seat: &mut DeskSeat<M>,
    number: u32,
) -> M
    requires table { (shared.now.table_id.words ≡ 2) × (shared.now.table_id.slots ≡ 1) }
    requires seat { (seat.old.table_id ≡ shared.now.table_id) × (seat.old.me ≡ (pass shared.now.key.begun number (calls_of number seat.old.me.0.seen) seat.old.me.0.seen Tested, [])) }
    ensures seat { (seat.new.table_id ≡ seat.old.table_id) × (seat.new.me ≡ (pass shared.now.key.begun number (calls_of number seat.old.me.0.seen) seat.new.me.0.seen Turn, (0, None) ∷ [])) }
    ensures looked { SeesMore M.step shared.now.key.begun number seat.old.me.0.seen seat.new.me.0.seen }
    ensures machine { result ≡ left_by shared.now.key.begun seat.new.me.0.seen }
{
    await_ticket(rt, shared, waits);
    let ticket = shared.fetch_add::<Draw>(seat, 0, 1);
    await_turn(rt, shared, waits, seat, number, ticket);
    let Some(machine) = shared.exchange(seat, 0, None) else {
        unreachable!()
    };
    machine
}

/// Puts the machine back after a call, and ends the turn: the call is finished.
pub(crate) fn give_turn<M: Machine, N: Naming<M, M::Call, M::Reply>>(
    shared: &SharedTable<M>,
    seat: &mut DeskSeat<M>,
    machine: M,
    number: u32,
    call: Snapshot<M::Call>,
    reply: &M::Reply,
)
    requires table { (shared.now.table_id.words ≡ 2) × (shared.now.table_id.slots ≡ 1) }
    requires seat { (seat.old.table_id ≡ shared.now.table_id) × (seat.old.me ≡ (pass shared.now.key.begun number (calls_of number seat.old.me.0.seen) seat.old.me.0.seen Turn, (0, None) ∷ [])) }
    requires named { N.finished ≡ record { pass = number; call = call.value; reply = reply.now; left = machine } ∷ [] }
    requires stepped { M.step (left_by shared.now.key.begun seat.old.me.0.seen) call.value reply.now machine }
    ensures table { seat.new.table_id ≡ seat.old.table_id }
    ensures finished { seat.new.me ≡ (pass shared.now.key.begun number (calls_of number seat.old.me.0.seen ++ N.finished) (seat.old.me.0.seen ++ N.finished) Idle, []) }
    ensures own { calls_of number (seat.old.me.0.seen ++ N.finished) ≡ calls_of number seat.old.me.0.seen ++ N.finished }
    ensures run { IsHistory M.step shared.now.key.begun (seat.old.me.0.seen ++ N.finished) }
{
    shared.exchange(seat, 0, Some(machine));
    shared.fetch_add::<Finish<M, N>>(seat, 1, 1);
}
