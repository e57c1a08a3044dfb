use crate::hand::Hand;
use atomic_table::TableRule;

/// The rule of tickets: what their one word and the shares keep true.
pub struct Drawing;

impl TableRule<(), Hand, u64> for Drawing {
    ghost use Rattle.pana_tickets.specs.Rule.{Keeps};
    ghost use Rattle.pana_tickets.specs.Hands.{whole};

    ghost holds = { Keeps };

    ghost first = { whole };
}
