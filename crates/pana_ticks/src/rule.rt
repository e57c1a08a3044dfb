use crate::hand::Hand;
use atomic_table::TableRule;

/// The rule of ticks: what their one word and the shares keep true.
pub struct Ticking;

impl TableRule<(), Hand, ()> for Ticking {
    ghost use Rattle.pana_ticks.specs.Rule.{Keeps};
    ghost use Rattle.pana_ticks.specs.Hands.{first};

    ghost holds = { λ _. Keeps };

    ghost first = { λ _. first };
}
