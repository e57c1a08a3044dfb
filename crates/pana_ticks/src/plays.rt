use crate::hand::Hand;
use atomic_table::{Join, Play, Split};

/// Ticks are counted.
pub(crate) struct More;

impl Play<(), Hand> for More {
    ghost use Rattle.pana_ticks.specs.inner.Steps.{Adds};

    ghost then = { λ step. Adds step.first };
}

/// No more come.
pub(crate) struct Last;

impl Play<(), Hand> for Last {
    ghost use Rattle.pana_ticks.specs.inner.Steps.{Closes};

    ghost then = { λ _. Closes };
}

/// A look by one that watches.
pub(crate) struct Look;

impl Play<(), Hand> for Look {
    ghost use Rattle.pana_ticks.specs.inner.Steps.{Looks};

    ghost then = { λ _. Looks };
}

/// A look by the one that counts, after it has met one that watches.
pub(crate) struct Compare;

impl Play<(), Hand> for Compare {
    ghost use Rattle.pana_ticks.specs.inner.Steps.{Compares};

    ghost then = { λ _. Compares };
}

/// One that watches is divided off, and meets the one that counts.
pub(crate) struct Sharing;

impl Split<Hand> for Sharing {
    ghost use Rattle.pana_ticks.specs.Hands.{watcher};

    ghost left = { λ hand. hand };

    ghost right = { λ _. watcher };
}

impl Join<Hand> for Sharing {
    ghost use Rattle.pana_ticks.specs.Hands.{both, spent};

    ghost both = { both };

    ghost spent = { spent };
}
