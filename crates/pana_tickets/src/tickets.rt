ghost use Rattle.std.specs.Prelude.{◌≡◌, ◌+◌, ◌<◌, ◌≤◌, [], IfOk, IsTrue, IsFalse};
ghost use Rattle.pana_tickets.specs.Hands.{joined, kept, missing, one_more, part, whole};

use crate::hand::Hand;
use crate::plays::{Draw, Look, Sharing};
use crate::rule::Drawing;
use atomic_table::{Seat, Table};
use std::alloc::{AllocError, Global};
use std::marker::Model;

/// So many tickets, which several threads draw. To contracts it is which tickets these are, and how many.
#[derive(Drop)]
pub struct Tickets {
    table: Table<(), Hand, u64, Drawing, Global>,
    most: u64,
}

impl Model for Tickets {
    ghost use Rattle.std.specs.Prelude.{◌≡◌};
    ghost use Rattle.pana_tickets.specs.Hands.{TicketsView};

    ghost Value = { TicketsView };

    ghost view = { λ tickets. record { id = tickets.table.shared.table_id; most = tickets.table.shared.key } };

    ghost invariant = { λ tickets. (tickets.table.shared.table_id.words ≡ 1) × (tickets.table.shared.key ≡ tickets.most) };
}

/// A share in tickets: what it has drawn of them. It takes no room.
#[derive(Drop)]
pub struct Share {
    seat: Seat<(), Hand>,
}

impl Model for Share {
    ghost use Rattle.std.specs.Prelude.{◌≡◌, []};
    ghost use Rattle.pana_tickets.specs.Hands.{ShareView};

    ghost Value = { ShareView };

    ghost view = { λ share. record { id = share.seat.table_id; hand = share.seat.me.0 } };

    ghost invariant = { λ share. share.seat.me.1 ≡ [] };
}

impl Tickets {
    /// So many tickets, and the share that is the whole, of 64 parts. Fails only where memory runs out.
    pub fn new(alloc: Global, most: u64) -> Result<(Tickets, Share), AllocError>
        requires { most ≤ 4611686018427387904 }
        ensures { IfOk result (λ made. (made.0.most ≡ most) × (made.1.id ≡ made.0.id) × (made.1.hand ≡ whole most)) }
    {
        let (table, seat) = Table::of_words(alloc, &[0], &most)?;
        Ok((Tickets { table, most }, Share { seat }))
    }

    /// Divides a part off from a share that has others. Takes no memory.
    pub fn divide(&self, share: &mut Share) -> Share
        requires of { share.old.id ≡ self.now.id }
        requires others { share.old.hand.missed + 1 < share.old.hand.parts }
        ensures left { share.new ≡ record { id = share.old.id; hand = kept share.old.hand } }
        ensures part { result ≡ record { id = share.old.id; hand = part share.old.hand } }
    {
        Share {
            seat: self.table.shared.split_seat::<Sharing>(&mut share.seat),
        }
    }

    /// Takes another share in. Takes no memory.
    pub fn join(&self, share: &mut Share, other: Share)
        requires of { share.old.id ≡ self.now.id }
        requires other_of { other.id ≡ self.now.id }
        requires some { 0 < share.old.hand.parts }
        ensures { share.new ≡ record { id = share.old.id; hand = joined share.old.hand other.hand } }
    {
        let Share { seat: other } = other;
        self.table
            .shared
            .join_seat::<Sharing>(&mut share.seat, other);
    }

    /// Draws a ticket for a share that has never found none left, and says whether one was left. It waits for nobody.
    pub fn draw(&self, share: &mut Share) -> bool
        requires of { share.old.id ≡ self.now.id }
        requires room { share.old.hand.missed < share.old.hand.parts }
        requires most { share.old.hand.most ≡ self.now.most }
        ensures id { share.new.id ≡ share.old.id }
        ensures drawn { IsTrue result → share.new.hand ≡ one_more share.old.hand }
        ensures none { IsFalse result → share.new.hand ≡ missing share.old.hand }
    {
        self.table.shared.fetch_add::<Draw>(&mut share.seat, 0, 1) < self.most()
    }

    /// How many tickets there are.
    fn most(&self) -> u64
        ensures { result ≡ self.now.most }
    {
        self.most
    }

    /// Shows of the whole that all tickets were drawn where a share has found none left. It does nothing.
    pub fn all_drawn(&self, whole: &mut Share)
        requires of { whole.old.id ≡ self.now.id }
        requires whole { whole.old.hand.parts ≡ 64 }
        requires missed { 0 < whole.old.hand.missed }
        ensures same { whole.new ≡ whole.old }
        ensures all { whole.new.hand.drawn ≡ whole.new.hand.most }
    {
        self.table.shared.load::<Look>(&mut whole.seat, 0);
    }
}
