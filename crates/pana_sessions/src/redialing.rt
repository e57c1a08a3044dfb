//! A session at a daemon, over one connection after another.

use pana_calls::{Answer, Call, NoAnswer, Query, Reply, Session};
use pana_copies::DeviceName;
use pana_keeper::{DaemonClient, connect};
use std::{io, mem};

/// A session at the daemon on a port of 127.0.0.1. Where no entry has come for a question that waited, it leaves the connection to
/// others who may wait for one, and takes a new one for the next call.
#[derive(Drop)]
pub struct Redialing<'a> {
    rt: &'a HostRuntime,
    port: u16,
    client: Option<DaemonClient>,
}

impl<'a> Redialing<'a> {
    /// A session over a new connection. Fails where the daemon can't be connected to.
    pub fn new(rt: &'a HostRuntime, port: u16) -> io::Result<Redialing<'a>> {
        let client = connect(rt, port)?;
        Ok(Redialing {
            rt,
            port,
            client: Some(client),
        })
    }

    /// The connection of the session, or a new one.
    fn client(&mut self) -> Result<DaemonClient, NoAnswer> {
        if let Some(client) = self.client.take() {
            return Ok(client);
        }
        match connect(self.rt, self.port) {
            Ok(client) => Ok(client),
            Err(_) => Err(NoAnswer),
        }
    }

    /// Keeps the connection for the next call, or leaves it to others.
    fn keep(&mut self, client: DaemonClient, leaves: bool) {
        if leaves {
            drop(client);
        } else {
            drop(mem::replace(&mut self.client, Some(client)));
        }
    }
}

/// Whether a call is a question that may wait.
fn may_wait(call: &Call) -> bool {
    matches!(call, Call::Query(Query::JournalAwaited { .. }))
}

/// Whether an answer has entries, and has none.
fn has_no_entry(answer: &Answer) -> bool {
    match answer {
        Answer::Given(Reply::Journal(entries)) => entries.as_slice().is_empty(),
        _ => false,
    }
}

impl Session for Redialing<'_> {
    // Of what comes over a port nothing is known.
    ghost step = { λ old by call answer new. Unit {0} };

    /// Makes the call over the connection.
    ///
    /// # Errors
    ///
    /// `NoAnswer` where the daemon can't be connected to, and where the call gets no answer.
    fn call(&mut self, by: &DeviceName, call: Call) -> Result<Answer, NoAnswer> {
        let leaves = may_wait(&call);
        let mut client = match self.client() {
            Ok(client) => client,
            Err(fault) => {
                drop(call);
                return Err(fault);
            }
        };
        match client.call(by, call) {
            Ok(answer) => {
                self.keep(client, leaves && has_no_entry(&answer));
                Ok(answer)
            }
            Err(fault) => {
                drop(client);
                Err(fault)
            }
        }
    }

    /// Does nothing.
    fn settle(&mut self) -> Result<(), NoAnswer> {
        Ok(())
    }
}
