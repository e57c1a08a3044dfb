//! Where connections come from.

use crate::connection::Connection;
use std::io::{Read, Write};
use std::marker::Send;

/// Where connections come from, one after another.
pub trait Door {
    /// What reads a client's lines.
    type Reader: Read + Send + Drop;

    /// What writes its answers.
    type Writer: Write + Send + Drop;

    ghost use Rattle.std.specs.Prelude.{Option};
    ghost use Rattle.pana_daemon.specs.declared.connection.Connection.{Connection};

    // What it gives: the door, the connection or none, and the door after. An impl may leave it open.
    ghost gives: { Self → Option (Connection Self.Reader Self.Writer) → Self → Type 0 } = { λ old given new. Unit {0} };

    /// The next connection; none where no further one is to be served.
    fn next(&mut self) -> Option<Connection<Self::Reader, Self::Writer>>
        ensures { gives self.old result self.new };
}
