use crate::machine::Machine;
use crate::turns::{DeskKey, DeskSeat};
use std::marker::Model;
use std::snapshot::Snapshot;

/// The right to call at one desk, one call at a time. To contracts it is its desk, its number there, and the history
/// that it has seen. It takes no room but for its number.
#[derive(Drop)]
pub struct Pass<M: Machine> {
    pub(crate) seat: DeskSeat<M>,
    pub(crate) number: u32,
    pub(crate) key: Snapshot<DeskKey<M>>,
}

impl<M: Machine> Model for Pass<M> {
    ghost use Rattle.std.specs.Prelude.{◌≡◌, []};
    ghost use Rattle.pana_turn.specs.Passes.{PassView};
    ghost use Rattle.pana_turn.specs.History.{calls_of};
    ghost use Rattle.pana_turn.specs.declared.view.Stage.TheVariants.{Idle};
    ghost use Rattle.pana_turn.specs.inner.Views.{pass};

    ghost Value = { PassView M M.Call M.Reply };

    ghost view = { λ p. record { desk = record { table = p.seat.table_id; begun = p.key.value.begun }; number = p.number; seen = p.seat.me.0.seen } };

    ghost invariant = { λ p. p.seat.me ≡ (pass p.key.value.begun p.number (calls_of p.number p.seat.me.0.seen) p.seat.me.0.seen Idle, []) };
}

/// What a pass had seen when it wrote this down, to be met by another pass of its desk. It takes no room.
#[derive(Drop)]
pub struct Note<M: Machine> {
    pub(crate) seat: DeskSeat<M>,
}

impl<M: Machine> Model for Note<M> {
    ghost use Rattle.std.specs.Prelude.{◌≡◌, []};
    ghost use Rattle.pana_turn.specs.Passes.{NoteView};
    ghost use Rattle.pana_turn.specs.inner.Views.{note};

    ghost Value = { NoteView M M.Call M.Reply };

    ghost view = { λ n. record { desk = n.seat.table_id; seen = n.seat.me.0.seen } };

    ghost invariant = { λ n. n.seat.me ≡ (note n.seat.me.0.seen, []) };
}
