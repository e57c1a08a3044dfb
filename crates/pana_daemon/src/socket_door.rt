//! The connections of a listener, as one of several workers takes them.
ghost use Rattle.std.specs.Prelude.{◌≡◌, false};
ghost use Rattle.pana_daemon.specs.Door.{TakesDrawn, new_door, new_hand};

use crate::connection::Connection;
use crate::door::Door;
use crate::listener::CountedListener;
use crate::patience::{Patience, PatientReader, PatientWriter, Visit, takes_limits};
use crate::supervisor::Supervisor;
use pana_tickets::{Share, Tickets};
use std::alloc::Global;
use std::io::BufWriter;
use std::marker::{Model, Sync};
use std::net::TcpStream;
use std::sync::{Arc, Mutex, Wait};
use std::time::Clock;

/// A connection over a socket.
type SocketConnection<'a, T, G> = Connection<
    PatientReader<'a, T, G>,
    BufWriter<PatientWriter<'a, T, G>, Global>,
>;

/// A worker's share in a listener: it draws a ticket for each connection that it takes. To contracts it is its share in the
/// tickets, and whether it has ended though one may be left.
#[derive(Drop)]
pub struct SocketDoor<'a, T, G> {
    rt: &'a T,
    alloc: Global,
    supervisor: &'a G,
    caller: u32,
    listener: &'a Mutex<CountedListener>,
    patience: Patience,
    tickets: &'a Tickets,
    share: Share,
    /// Whether no ticket was left.
    is_out: bool,
    /// Whether no further connection is to be taken, though a ticket may be left.
    is_closed: bool,
}

impl<'a, T, G> Model for SocketDoor<'a, T, G> {
    ghost use Rattle.std.specs.Prelude.{◌≡◌};
    ghost use Rattle.pana_daemon.specs.Door.{DoorView, HasShare};

    ghost Value = { DoorView };

    ghost view = { λ door. record { tickets = door.tickets.now; hand = door.share.hand; is_closed = door.is_closed } };

    ghost invariant = { λ door. (door.share.id ≡ door.tickets.now.id) × HasShare door.tickets.now door.is_out door.share.hand };
}

impl<'a, T: Wait + Clock, G: Supervisor> SocketDoor<'a, T, G> {
    /// The share of this caller in the listener, which takes as many connections together with others as there are tickets. Takes no memory.
    pub fn new(
        rt: &'a T,
        alloc: Global,
        supervisor: &'a G,
        caller: u32,
        listener: &'a Mutex<CountedListener>,
        patience: Patience,
        tickets: &'a Tickets,
        share: Share,
    ) -> SocketDoor<'a, T, G>
        requires id { share.id ≡ tickets.now.id }
        requires new { share.hand ≡ new_hand tickets.now.most }
        ensures { result ≡ new_door tickets.now }
    {
        SocketDoor {
            rt,
            alloc,
            supervisor,
            caller,
            listener,
            patience,
            tickets,
            share,
            is_out: false,
            is_closed: false,
        }
    }

    /// Whether it has ended though a ticket may be left.
    pub(crate) fn is_closed(&self) -> bool
        ensures { result ≡ self.now.is_closed }
    {
        self.is_closed
    }

    /// The share in the tickets. Takes no memory.
    pub(crate) fn into_share(self) -> Share
        ensures { result ≡ record { id = self.entry.tickets.id; hand = self.entry.hand } }
    {
        let SocketDoor { share, .. } = self;
        share
    }

    /// The next socket, for which it draws a ticket.
    fn take(&mut self) -> Option<TcpStream>
        ensures { TakesDrawn self.old result self.new }
    {
        if self.is_out || self.is_closed {
            return None;
        }
        let (rt, supervisor, listener) = (self.rt, self.supervisor, self.listener);
        let mut listener = listener.lock(rt);
        if !listener.opens(rt, supervisor) {
            self.is_closed = true;
            return None;
        }
        if !self.tickets.draw(&mut self.share) {
            self.is_out = true;
            return None;
        }
        let taken = listener.take(rt, supervisor);
        self.is_closed = taken.is_none();
        taken
    }

    /// The connection over this socket; none where the socket takes no limits, or an allocation fails.
    fn connection(&self, stream: TcpStream) -> Option<SocketConnection<'a, T, G>> {
        if !takes_limits(&stream, self.patience) {
            return None;
        }
        let visit = Visit::new(
            self.rt,
            self.supervisor,
            self.caller,
            self.listener,
            stream,
            self.patience,
        );
        let Ok(visit) = Arc::new(self.alloc, visit) else {
            return None;
        };
        let Ok(other) = Arc::try_clone(&visit) else {
            return None;
        };
        let Ok(writer) = BufWriter::new(self.alloc, PatientWriter::new(other)) else {
            return None;
        };
        Some(Connection {
            reader: PatientReader::new(visit),
            writer,
        })
    }
}

impl<'a, T: Wait + Clock + Sync, G: Supervisor + Sync> Door for SocketDoor<'a, T, G> {
    ghost use Rattle.pana_daemon.specs.Door.{GivesDrawn};

    ghost gives = { GivesDrawn };

    type Reader = PatientReader<'a, T, G>;

    type Writer = BufWriter<PatientWriter<'a, T, G>, Global>;

    /// A connection that can't be served is closed, with no call made, and the next one is taken.
    fn next(&mut self) -> Option<SocketConnection<'a, T, G>> {
        for _ in self.rt.forever() {
            let Some(stream) = self.take() else {
                return None;
            };
            if let Some(connection) = self.connection(stream) {
                return Some(connection);
            }
        }
        unreachable!()
    }
}
