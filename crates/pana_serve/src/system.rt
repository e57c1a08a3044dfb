//! What the daemon asks of the system beside threads and disks.

use pana_calls::Session;
use std::io;
use std::marker::Send;
use std::net::{Ipv4Addr, SocketAddr, TcpListener};

/// The ports and the journals that the words of `serve` name.
pub trait System {
    /// The session of a journal.
    type Store: Session + Send + Drop;

    /// Why a journal can't be used.
    type Refusal: Drop;

    ghost use Rattle.std.specs.Prelude.{Bool, List, ℕ, Result, is_ok};
    ghost use Rattle.std.specs.Net.Addr.{ipv4_octets};

    // That a port was bound, or couldn't be: the system, the host's four octets, the port, whether it was, and the system
    // after. An impl may leave it open.
    ghost binds: { Self → List ℕ → ℕ → Bool → Self → Type 0 } = { λ old host port bound new. Unit {0} };

    // What opening a journal gives: the system, the journal's name, its store or why there is none, and the system after.
    // An impl may leave it open.
    ghost opens: { Self → List ℕ → Result Self.Store Self.Refusal → Self → Type 0 } = { λ old name opened new. Unit {0} };

    /// A listener on a port of the host, and its address.
    fn bind(&mut self, host: Ipv4Addr, port: u16) -> io::Result<(TcpListener, SocketAddr)>
        ensures { binds self.old (ipv4_octets host) port (is_ok result) self.new };

    /// The store of the journal with this name.
    fn open(&mut self, journal: &str) -> Result<Self::Store, Self::Refusal>
        ensures { opens self.old journal.now result self.new };
}
