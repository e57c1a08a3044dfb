//! Shares in ticks.

ghost use Rattle.std.specs.Prelude.{◌≡◌};

use crate::hand::Hand;
use atomic_table::Seat;
use std::marker::Model;

/// The share that counts. To contracts it is which ticks these are, how many it has counted, and whether no more come.
#[derive(Drop)]
pub struct Counter {
    pub(crate) seat: Seat<(), Hand>,
    pub(crate) counted: u64,
}

impl Model for Counter {
    ghost use Rattle.std.specs.Prelude.{◌≡◌, ◌≤◌};
    ghost use Rattle.pana_ticks.specs.Hands.{IsCounter, ShareView, count_of};

    ghost Value = { ShareView };

    ghost view = { λ counter. record { id = counter.seat.table_id; count = count_of counter.seat.me.0 } };

    ghost invariant = { λ counter. IsCounter counter.seat.me × ((count_of counter.seat.me.0).ticks ≡ counter.counted) × (counter.counted ≤ 4611686018427387904) };
}

/// A share that watches. To contracts it is which ticks these are, how many it has seen last, and whether it has seen that
/// no more come.
#[derive(Drop)]
pub struct Watcher {
    pub(crate) seat: Seat<(), Hand>,
    pub(crate) seen: u64,
}

impl Model for Watcher {
    ghost use Rattle.std.specs.Prelude.{◌≡◌};
    ghost use Rattle.pana_ticks.specs.Hands.{IsWatcher, ShareView, count_of};

    ghost Value = { ShareView };

    ghost view = { λ watcher. record { id = watcher.seat.table_id; count = count_of watcher.seat.me.0 } };

    ghost invariant = { λ watcher. IsWatcher watcher.seat.me × ((count_of watcher.seat.me.0).ticks ≡ watcher.seen) };
}

impl Watcher {
    /// How many ticks it has seen last. Takes no memory.
    pub fn seen(&self) -> u64
        ensures { result ≡ self.now.count.ticks }
    {
        self.seen
    }
}
