//! The passes of a new desk.

ghost use Rattle.std.specs.Prelude.{◌≡◌, ◌≤◌, [], vec_capacity};
ghost use Rattle.pana_turn.specs.Passes.{new_passes};
ghost use Rattle.pana_turn.specs.inner.Views.{first};

use crate::machine::Machine;
use crate::pass::Pass;
use crate::plays::Dealing;
use crate::turns::{DeskKey, DeskSeat, SharedTable};
use std::snapshot::Snapshot;

/// Deals the passes of a desk from the first seat, which speaks for them all. Takes no memory.
pub(crate) fn deal<M: Machine>(
    shared: &SharedTable<M>,
    seat: &mut DeskSeat<M>,
    key: &DeskKey<M>,
    seats: u32,
    passes: &mut Vec<Pass<M>>,
)
    requires table { (shared.now.table_id.words ≡ 2) × (shared.now.table_id.slots ≡ 1) }
    requires seat { (seat.old.table_id ≡ shared.now.table_id) × (seat.old.me ≡ (first shared.now.key, [])) }
    requires key { key.now ≡ shared.now.key }
    requires seats { seats ≡ shared.now.key.seats }
    requires passes { (passes.old.items ≡ []) × (seats ≤ vec_capacity passes.old) }
    ensures { passes.new.items ≡ new_passes (record { table = shared.now.table_id; begun = shared.now.key.begun }) seats }
{
    for number in 0..seats {
        passes.push_reserved(Pass {
            seat: shared.split_seat::<Dealing>(seat),
            number,
            key: Snapshot::of(key),
        });
    }
}
