//! What the rule of a desk says of it at every moment: functions that do nothing, whose contracts are the laws.

ghost use Rattle.std.specs.Prelude.{◌≡◌, ℕ, Option};
ghost use Rattle.atomic_table.specs.Table.{State};
ghost use Rattle.pana_turn.specs.declared.view.View.{View};
ghost use Rattle.pana_turn.specs.Rule.{AllIdle, DeskKey, HasTurn, IsAtRest, IsAway, Keeps};

use crate::machine::Machine;

/// Where no call is on its way the machine is in its slot, as a call history leaves it, and both words are that
/// history's length.
pub fn idle_desk_is_at_rest<M: Machine>()
    ensures { (key : DeskKey M) (table : State (Option M) (View M M.Call M.Reply)) → Keeps M.step key table → AllIdle table.views → IsAtRest M.step key.begun table }
{}

/// Where a seat has the turn the machine is out, and the seat has seen all calls that are finished.
pub fn turn_has_seen_all<M: Machine>()
    ensures { (key : DeskKey M) (table : State (Option M) (View M M.Call M.Reply)) (seat : ℕ) (view : View M M.Call M.Reply) → Keeps M.step key table → HasTurn table.views seat view → IsAway M.step key.begun table view }
{}

/// No two seats have the turn.
pub fn one_at_a_time<M: Machine>()
    ensures { (key : DeskKey M) (table : State (Option M) (View M M.Call M.Reply)) (a b : ℕ) (one other : View M M.Call M.Reply) → Keeps M.step key table → HasTurn table.views a one → HasTurn table.views b other → a ≡ b }
{}
