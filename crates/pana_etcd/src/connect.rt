//! Connections to members, and the time.

use crate::member::Member;
use std::io::{self, Read, Write};
use std::net::{SocketAddr, TcpStream, ToSocketAddrs};
use std::thread;
use std::time::{Clock, Duration};

/// What a log asks of the system.
pub trait Connect {
    type Stream: Read + Write + Drop;

    /// A connection to a member, made within so many milliseconds. A read or a write of it that would wait for long fails with
    /// `WouldBlock` or `TimedOut`, and may be tried again.
    fn connect(&self, member: &Member, milliseconds: u64) -> io::Result<Self::Stream>;

    /// How many milliseconds have passed since some start.
    fn milliseconds(&self) -> u64;

    /// Waits.
    fn pause(&self, milliseconds: u64);
}

/// For how many milliseconds a system call waits, so that the clock is looked at again.
const TICK: u64 = 100;

/// Connections by TCP, and the system's clock.
#[derive(Drop)]
pub struct TcpConnect {
    rt: HostRuntime,
}

impl TcpConnect {
    pub fn new(rt: HostRuntime) -> TcpConnect {
        TcpConnect { rt }
    }

    fn open(&self, address: &SocketAddr, milliseconds: u64) -> io::Result<TcpStream> {
        let stream = TcpStream::connect_timeout(
            &self.rt,
            address,
            Duration::from_millis(milliseconds),
        )?;
        match set_up(&stream) {
            Ok(()) => Ok(stream),
            Err(error) => {
                drop(stream);
                Err(error)
            }
        }
    }
}

/// Has calls of a stream wait for no longer than a tick.
fn set_up(stream: &TcpStream) -> io::Result<()> {
    stream.set_nodelay(true)?;
    stream.set_read_timeout(Some(Duration::from_millis(TICK)))?;
    stream.set_write_timeout(Some(Duration::from_millis(TICK)))
}

impl Connect for TcpConnect {
    type Stream = TcpStream;

    /// Tries each address of the host in turn, each for so long.
    fn connect(&self, member: &Member, milliseconds: u64) -> io::Result<TcpStream> {
        let mut last = io::Error::from(io::ErrorKind::NotFound);
        for address in (member.host.as_str(), member.port).to_socket_addrs(&self.rt)? {
            match self.open(&address, milliseconds) {
                Ok(stream) => return Ok(stream),
                Err(error) => last = error,
            }
        }
        Err(last)
    }

    /// Where the clock isn't read all patience is over.
    fn milliseconds(&self) -> u64 {
        match self.rt.monotonic() {
            Ok(passed) => u64::try_from(passed.as_millis()).unwrap_or(u64::MAX),
            Err(_) => u64::MAX,
        }
    }

    fn pause(&self, milliseconds: u64) {
        thread::sleep(&self.rt, Duration::from_millis(milliseconds));
    }
}
