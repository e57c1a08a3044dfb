ghost use Rattle.std.specs.Prelude.{◌≡◌, ◌<◌, ◌≤◌, All, IfErr, IfOk, length};
ghost use mathlib.Core.List.{IsPrefix};
ghost use Rattle.pana_turn.specs.History.{IsHistory};
ghost use Rattle.pana_turn.specs.Passes.{AddsCall, IsSamePass, new_passes, own_calls};
ghost use Rattle.pana_turn.specs.Closing.{Closes, HasAll, LacksOne};

use crate::closing::{gather, has_all};
use crate::dealing::deal;
use crate::machine::Machine;
use crate::pass::{Note, Pass};
use crate::plays::{Glance, Noting, Test};
use crate::turn::{give_turn, take_turn};
use crate::turns::{DeskKey, Knows, Turns};
use crate::waits::Waits;
use atomic_table::Table;
use std::alloc::{AllocError, Global};
use std::marker::{Brand, Model};
use std::snapshot::Snapshot;
use std::sync::Wait;

/// The number of finished calls from which on none is made.
const MOST_CALLS: u64 = 1 << 62;

/// One machine for up to 64 callers at a time, each with a pass. To contracts it is which desk it is, and how many passes
/// it has.
///
/// A caller looks whether a call is on its way, and while one is it looks 8 times and then sleeps for 50 microseconds,
/// again and again. Once it finds the desk free it draws a ticket, and yields until as many calls are finished as its
/// ticket says; then the machine is its own for one call. So calls are taken one at a time, in the order of the tickets,
/// which needn't be the order in which the callers came.
///
/// Where calls take as long as a disk does, such a call first waits until those that came before it are done, and a caller
/// that has looked in vain for a while sleeps until a call is finished, and then draws a ticket. So slow calls are taken in
/// the order in which they came, and another waits for two of them at most.
#[derive(Drop)]
pub struct Desk<M: Machine> {
    table: Table<Option<M>, Knows<M>, DeskKey<M>, Turns<M>, Global>,
    seats: u32,
    waits: Waits,
}

impl<M: Machine> Model for Desk<M> {
    ghost use Rattle.pana_turn.specs.Passes.{DeskView};
    ghost use Rattle.pana_turn.specs.inner.Tables.{IsTable};

    ghost Value = { DeskView M };

    ghost view = { λ desk. record { id = record { table = desk.table.shared.table_id; begun = desk.table.shared.key.begun }; seats = desk.seats } };

    ghost invariant = { λ desk. IsTable desk.table.shared.table_id desk.table.shared.key desk.seats };
}

/// No call is left: 2^62 or more are finished.
#[derive(Clone, Copy, Debug, PartialEq, Eq)]
pub struct Spent;

/// What is left of a desk that was closed: its machine, and how many calls were made at it.
#[derive(Drop)]
pub struct Closed<M: Machine> {
    pub machine: M,
    pub calls: u64,
}

/// The desk isn't closed, since a pass of it is missing. It is handed back, with the passes that are there.
#[derive(Drop)]
pub struct CloseRefused<M: Machine> {
    pub desk: Desk<M>,
    pub passes: Vec<Pass<M>>,
}

impl<M: Machine> Desk<M> {
    /// A desk with this machine, and its passes, 1 to 64 of them. Fails only where memory runs out.
    pub fn open(
        alloc: Global,
        seats: u32,
        machine: M,
    ) -> Result<(Desk<M>, Vec<Pass<M>>), AllocError>
        requires { (0 < seats) × (seats ≤ 64) }
        ensures { IfOk result (λ opened. (opened.0.id.begun ≡ machine) × (opened.0.seats ≡ seats) × (opened.1.items ≡ new_passes opened.0.id seats)) }
    {
        let mut passes = Vec::with_capacity(alloc, seats as usize)?;
        let mut slots = Vec::with_capacity(alloc, 1)?;
        let key = DeskKey {
            seats,
            begun: Snapshot::of(&machine),
        };
        let is_slow = machine.is_slow();
        slots.push_reserved(Some(machine));
        let Ok((table, mut seat)) = Table::new(alloc, &[0, 0], slots, &key) else {
            return Err(AllocError);
        };
        deal(&table.shared, &mut seat, &key, seats, &mut passes);
        Ok((
            Desk {
                table,
                seats,
                waits: Waits::new(is_slow),
            },
            passes,
        ))
    }

    /// Makes one call, in its turn, and returns its reply. It waits while others have the turn.
    ///
    /// # Errors
    ///
    /// `Spent` only where 2^62 or more calls are finished: the call isn't made.
    pub fn call<R: Wait>(
        &self,
        rt: &R,
        pass: &mut Pass<M>,
        call: M::Call,
    ) -> Result<M::Reply, Spent>
        requires { pass.old.desk ≡ self.now.id }
        ensures same { IsSamePass pass.old pass.new }
        ensures run { IsHistory M.step self.now.id.begun pass.new.seen }
        ensures done { IfOk result (AddsCall pass.old pass.new call) }
        ensures spent { IfErr result (λ _. IsPrefix pass.old.seen pass.new.seen × (own_calls pass.new ≡ own_calls pass.old) × (4611686018427387904 ≤ length pass.new.seen)) }
    {
        let (shared, seat, number) = (&self.table.shared, &mut pass.seat, pass.number);
        if shared.load::<Test<M>>(seat, 1) >= MOST_CALLS {
            return Err(Spent);
        }
        let is_queued = self.waits.enter(rt, M::takes_long(&call));
        let mut machine = take_turn(rt, shared, &self.waits, seat, number);
        let asked = Snapshot::of(&call);
        let reply = machine.make(call);
        give_turn::<M, Brand>(shared, seat, machine, number, asked, &reply);
        self.waits.wake(shared);
        self.waits.leave(is_queued);
        Ok(reply)
    }

    /// How many calls are finished. It waits for nobody.
    pub fn glance(&self, pass: &mut Pass<M>) -> u64
        requires { pass.old.desk ≡ self.now.id }
        ensures same { IsSamePass pass.old pass.new }
        ensures run { IsHistory M.step self.now.id.begun pass.new.seen }
        ensures seen { IsPrefix pass.old.seen pass.new.seen }
        ensures own { own_calls pass.new ≡ own_calls pass.old }
        ensures long { result ≡ length pass.new.seen }
    {
        self.table.shared.load::<Glance<M>>(&mut pass.seat, 1)
    }

    /// A note of what the pass has seen, for another pass to meet. It waits for nobody.
    pub fn note(&self, pass: &mut Pass<M>) -> Note<M>
        requires { pass.old.desk ≡ self.now.id }
        ensures pass { pass.new ≡ pass.old }
        ensures note { result ≡ record { desk = pass.old.desk.table; seen = pass.old.seen } }
    {
        Note {
            seat: self.table.shared.split_seat::<Noting>(&mut pass.seat),
        }
    }

    /// From now on the pass has seen all that the pass which wrote the note had seen. It waits for nobody.
    pub fn meet(&self, pass: &mut Pass<M>, note: Note<M>)
        requires pass { pass.old.desk ≡ self.now.id }
        requires note { note.desk ≡ self.now.id.table }
        ensures same { IsSamePass pass.old pass.new }
        ensures run { IsHistory M.step self.now.id.begun pass.new.seen }
        ensures seen { IsPrefix pass.old.seen pass.new.seen }
        ensures met { IsPrefix note.seen pass.new.seen }
        ensures own { own_calls pass.new ≡ own_calls pass.old }
    {
        let Note { seat: other } = note;
        let shared = &self.table.shared;
        shared.join_seat::<Noting>(&mut pass.seat, other);
        shared.load::<Glance<M>>(&mut pass.seat, 1);
    }

    /// Ends the desk, where all its passes are there. It takes no memory.
    ///
    /// # Errors
    ///
    /// `CloseRefused` exactly where a pass is missing: the desk and the passes are handed back as they were.
    pub fn close(self, mut passes: Vec<Pass<M>>) -> Result<Closed<M>, CloseRefused<M>>
        requires { All (λ pass. pass.desk ≡ self.id) passes.items }
        ensures closed { IfOk result (λ closed. Closes M.step self.seats self.id.begun passes.items closed.machine closed.calls) }
        ensures all { IfOk result (λ _. HasAll self.seats passes.items) }
        ensures missing { IfErr result (λ _. LacksOne self.seats passes.items) }
        ensures back { IfErr result (λ refused. (refused.desk ≡ self) × (refused.passes.items ≡ passes.items)) }
    {
        if !has_all(self.seats, &passes) {
            return Err(CloseRefused { desk: self, passes });
        }
        let Note { mut seat } = self.note(&mut passes[0]);
        let Desk {
            table,
            seats: _,
            waits: _,
        } = self;
        gather(&table.shared, &mut seat, passes);
        let mut closed = table.close_with(seat);
        let calls = closed.word(1);
        let Some(machine) = closed.take(0) else {
            unreachable!()
        };
        closed.free();
        Ok(Closed { machine, calls })
    }
}
