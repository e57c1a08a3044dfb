use crate::machine::Machine;
use crate::view::View;
use atomic_table::{Seat, Shared, TableRule};
use std::marker::{Model, PhantomData};
use std::snapshot::Snapshot;

/// What a seat at the desk of a machine knows.
pub(crate) type Knows<M> = View<M, <M as Machine>::Call, <M as Machine>::Reply>;

/// The words and the slot of a desk, under its rule.
pub(crate) type SharedTable<M> = Shared<Option<M>, Knows<M>, DeskKey<M>, Turns<M>>;

/// A seat at a desk.
pub(crate) type DeskSeat<M> = Seat<Option<M>, Knows<M>>;

/// How many passes a desk has, and the state of the machine that it was opened with.
#[derive(Drop)]
pub struct DeskKey<S> {
    pub seats: u32,
    pub begun: Snapshot<S>,
}

impl<S> Model for DeskKey<S> {
    ghost use Rattle.pana_turn.specs.Rule.{DeskKey};

    ghost Value = { DeskKey S };

    ghost view = { λ key. record { seats = key.seats; begun = key.begun.value } };
}

/// The rule of a desk: what its words, its slot and its seats' views keep true of one history.
pub struct Turns<M> {
    of: PhantomData<M>,
}

impl<M: Machine> TableRule<Option<M>, View<M, M::Call, M::Reply>, DeskKey<M>> for Turns<M> {
    ghost use Rattle.pana_turn.specs.Rule.{Keeps};
    ghost use Rattle.pana_turn.specs.inner.Views.{first};

    ghost holds = { Keeps M.step };

    ghost first = { first };
}
