use crate::hand::Hand;
use atomic_table::{Join, Play, Split};

/// A ticket is drawn, where one is left.
pub(crate) struct Draw;

impl Play<(), Hand> for Draw {
    ghost use Rattle.pana_tickets.specs.Rule.{Draws};

    ghost then = { λ _. Draws };
}

/// A look, by the whole.
pub(crate) struct Look;

impl Play<(), Hand> for Look {
    ghost use Rattle.pana_tickets.specs.Rule.{Looks};

    ghost then = { λ _. Looks };
}

/// A part is divided off, and is taken in again.
pub(crate) struct Sharing;

impl Split<Hand> for Sharing {
    ghost use Rattle.pana_tickets.specs.Hands.{kept, part};

    ghost left = { kept };

    ghost right = { part };
}

impl Join<Hand> for Sharing {
    ghost use Rattle.pana_tickets.specs.Hands.{joined, spent};

    ghost both = { joined };

    ghost spent = { spent };
}
