//! A daemon that runs, as a session of commands that report to it.

use pana_client::Client;
use std::alloc::Global;
use std::io;
use std::io::BufReader;
use std::net::{Ipv4Addr, TcpStream};

/// A session at a daemon of this machine.
pub type DaemonClient = Client<BufReader<TcpStream, Global>, TcpStream>;

/// A session at the daemon on this port of 127.0.0.1.
pub fn connect(rt: &HostRuntime, port: u16) -> io::Result<DaemonClient> {
    let stream = TcpStream::connect(rt, (Ipv4Addr::LOCALHOST, port))?;
    // A call is one write, and its answer is waited for.
    stream.set_nodelay(true)?;
    let reader = BufReader::new(rt.alloc(), stream.try_clone()?)?;
    Ok(Client::new(rt.alloc(), reader, stream))
}
