ghost use Rattle.std.specs.Prelude.{◌≡◌, ◌+◌, ◌<◌, ◌≤◌, IfOk, MatchOption, false, true, min};
ghost use Rattle.pana_ticks.specs.Hands.{HasSeen, count, none_yet};
ghost use Rattle.pana_ticks.specs.Rule.{word_of};
ghost use Rattle.pana_ticks.specs.inner.Sight.{Shows};

use crate::hand::Hand;
use crate::plays::{Compare, Last, Look, More, Sharing};
use crate::rule::Ticking;
use crate::shares::{Counter, Watcher};
use crate::sight::Sight;
use atomic_table::Table;
use std::alloc::{AllocError, Global};
use std::marker::Model;
use std::sync::Wait;
use std::time::Duration;

/// The number of ticks from which on none is counted.
const MOST_TICKS: u64 = 1 << 62;

/// Ticks that one share counts and others wait for. To contracts it is which ticks these are.
#[derive(Drop)]
pub struct Ticks {
    table: Table<(), Hand, (), Ticking, Global>,
}

impl Model for Ticks {
    ghost use Rattle.std.specs.Prelude.{◌≡◌};
    ghost use Rattle.atomic_table.specs.Seated.{TableId};

    ghost Value = { TableId };

    ghost view = { λ ticks. ticks.table.shared.table_id };

    ghost invariant = { λ ticks. ticks.table.shared.table_id.words ≡ 1 };
}

impl Ticks {
    /// No tick so far, and the share that counts. Fails only where memory runs out.
    pub fn new(alloc: Global) -> Result<(Ticks, Counter), AllocError>
        ensures { IfOk result (λ made. made.1 ≡ record { id = made.0; count = none_yet }) }
    {
        let (table, seat) = Table::of_words(alloc, &[0], &())?;
        Ok((Ticks { table }, Counter { seat, counted: 0 }))
    }

    /// A share that watches, and has seen no tick. Takes no memory.
    pub fn watcher(&self, counter: &mut Counter) -> Watcher
        requires of { counter.old.id ≡ self.now }
        ensures same { counter.new ≡ counter.old }
        ensures new { result ≡ record { id = self.now; count = none_yet } }
    {
        Watcher {
            seat: self.table.shared.split_seat::<Sharing>(&mut counter.seat),
            seen: 0,
        }
    }

    /// Counts so many more ticks, and wakes who waits for them. Those beyond 2^62 aren't counted.
    pub fn add(&self, counter: &mut Counter, more: u64)
        requires of { counter.old.id ≡ self.now }
        requires going { counter.old.count.is_over ≡ false }
        ensures { counter.new ≡ record { id = counter.old.id; count = count (min (counter.old.count.ticks + more) 4611686018427387904) false } }
    {
        let more = more.min(MOST_TICKS - counter.counted);
        counter.counted += more;
        self.table
            .shared
            .fetch_add::<More>(&mut counter.seat, 0, more * 2);
        self.table.shared.wake_all(0);
    }

    /// Notes that no more ticks come, and wakes who waits for some.
    pub fn end(&self, counter: &mut Counter)
        requires of { counter.old.id ≡ self.now }
        requires going { counter.old.count.is_over ≡ false }
        ensures { counter.new ≡ record { id = counter.old.id; count = count counter.old.count.ticks true } }
    {
        self.table.shared.fetch_add::<Last>(&mut counter.seat, 0, 1);
        self.table.shared.wake_all(0);
    }

    /// Looks at the word, and returns it.
    fn look(&self, watcher: &mut Watcher) -> u64
        requires of { watcher.old.id ≡ self.now }
        ensures id { watcher.new.id ≡ watcher.old.id }
        ensures seen { result ≡ word_of watcher.new.count }
        ensures past { HasSeen watcher.new.count watcher.old.count }
    {
        let word = self.table.shared.load::<Look>(&mut watcher.seat, 0);
        watcher.seen = word >> 1;
        word
    }

    /// Looks at the word, and says what it has shown.
    fn glance(&self, watcher: &mut Watcher) -> Sight
        requires of { watcher.old.id ≡ self.now }
        ensures id { watcher.new.id ≡ watcher.old.id }
        ensures shows { Shows result watcher.old.count watcher.new.count }
    {
        let before = watcher.seen;
        let word = self.look(watcher);
        if watcher.seen > before {
            return Sight::More;
        }
        if word % 2 == 1 {
            return Sight::Over;
        }
        Sight::Same((word % (1 << 32)) as u32)
    }

    /// How many ticks there are. It waits for nobody.
    pub fn so_far(&self, watcher: &mut Watcher) -> u64
        requires of { watcher.old.id ≡ self.now }
        ensures id { watcher.new.id ≡ watcher.old.id }
        ensures seen { result ≡ watcher.new.count.ticks }
        ensures past { HasSeen watcher.new.count watcher.old.count }
    {
        self.look(watcher) >> 1
    }

    /// Waits until there are more ticks than the share has seen, and returns how many there are; or none, where no more
    /// come.
    pub fn wait_past<T: Wait>(&self, threads: &T, watcher: &mut Watcher) -> Option<u64>
        requires of { watcher.old.id ≡ self.now }
        ensures id { watcher.new.id ≡ watcher.old.id }
        ensures seen { MatchOption result (watcher.new.count ≡ count watcher.old.count.ticks true) (λ ticks. (ticks ≡ watcher.new.count.ticks) × (watcher.old.count.ticks < ticks) × (watcher.old.count.is_over ≡ false)) }
    {
        for _ in threads.forever() {
            match self.glance(watcher) {
                Sight::More => return Some(watcher.seen),
                Sight::Over => return None,
                Sight::Same(low) => self.table.shared.park(threads, 0, low),
            }
        }
        unreachable!()
    }

    /// Waits so too, but no longer than the time given: it returns then how many ticks there are, which may be those that
    /// the share has seen. It may do so earlier, for no reason.
    pub fn wait_past_or<T: Wait>(
        &self,
        threads: &T,
        watcher: &mut Watcher,
        time: Duration,
    ) -> Option<u64>
        requires of { watcher.old.id ≡ self.now }
        ensures id { watcher.new.id ≡ watcher.old.id }
        ensures seen { MatchOption result (watcher.new.count ≡ count watcher.old.count.ticks true) (λ ticks. (ticks ≡ watcher.new.count.ticks) × (watcher.old.count.ticks ≤ ticks) × (watcher.old.count.is_over ≡ false)) }
    {
        match self.glance(watcher) {
            Sight::More => return Some(watcher.seen),
            Sight::Over => return None,
            Sight::Same(low) => self.table.shared.park_timeout(threads, 0, low, time),
        }
        match self.glance(watcher) {
            Sight::Over => None,
            Sight::More | Sight::Same(_) => Some(watcher.seen),
        }
    }

    /// Shows that a share that watches has seen no more than was counted, and just that where it has seen that no more come.
    /// It takes that share in.
    pub fn meet(&self, counter: &mut Counter, watcher: Watcher)
        requires of { counter.old.id ≡ self.now }
        requires other_of { watcher.id ≡ self.now }
        ensures same { counter.new ≡ counter.old }
        ensures seen { HasSeen counter.old.count watcher.count }
    {
        let Watcher {
            seat: other,
            seen: _,
        } = watcher;
        let shared = &self.table.shared;
        shared.join_seat::<Sharing>(&mut counter.seat, other);
        shared.load::<Compare>(&mut counter.seat, 0);
    }
}
