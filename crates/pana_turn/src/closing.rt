//! What a desk looks at and takes in before it ends.

ghost use Rattle.std.specs.Prelude.{◌≡◌, [], All, IsFalse, IsTrue, map};
ghost use Rattle.pana_turn.specs.Closing.{HasAll, LacksOne, has_pass};
ghost use Rattle.pana_turn.specs.inner.Views.{account_of, note, view};
ghost use Rattle.pana_turn.specs.declared.view.Stage.TheVariants.{Idle};

use crate::machine::Machine;
use crate::pass::Pass;
use crate::plays::Dealing;
use crate::turns::{DeskSeat, SharedTable};

fn has_pass<M: Machine>(number: u32, passes: &[Pass<M>]) -> bool
    ensures { result ≡ has_pass passes.now number }
{
    passes.iter().any(|pass| pass.number == number)
}

/// Whether every pass of a desk is in the list. Takes no memory.
pub(crate) fn has_all<M: Machine>(seats: u32, passes: &[Pass<M>]) -> bool
    ensures all { IsTrue result → HasAll seats passes.now }
    ensures missing { IsFalse result → LacksOne seats passes.now }
{
    for number in 0..seats {
        if !has_pass(number, passes) {
            return false;
        }
    }
    true
}

/// The seat takes in the passes, with what each has seen.
pub(crate) fn gather<M: Machine>(
    shared: &SharedTable<M>,
    seat: &mut DeskSeat<M>,
    passes: Vec<Pass<M>>,
)
    requires table { (shared.now.table_id.words ≡ 2) × (shared.now.table_id.slots ≡ 1) }
    requires seat { (seat.old.table_id ≡ shared.now.table_id) × (seat.old.me ≡ (note seat.old.me.0.seen, [])) }
    requires passes { All (λ pass. pass.desk.table ≡ shared.now.table_id) passes.items }
    ensures table { (seat.new.table_id ≡ seat.old.table_id) × (seat.new.id ≡ seat.old.id) }
    ensures gathered { seat.new.me ≡ (view (map account_of passes.items) seat.old.me.0.seen [] Idle, []) }
{
    for pass in passes {
        let Pass {
            seat: other,
            number: _,
            key: _,
        } = pass;
        shared.join_seat::<Dealing>(seat, other);
    }
}
