//! How long a client may keep others waiting.

ghost use Rattle.std.specs.Io.{ReadsAtMost, WritesAtMost};

use crate::listener::{CountedListener, is_awaited};
use crate::supervisor::Supervisor;
use std::alloc::Global;
use std::io::{self, Error, ErrorKind, Read, Write};
use std::net::TcpStream;
use std::sync::{Arc, Mutex, Wait};
use std::time::{Clock, Duration};

/// After how many seconds at most a call on a socket comes back, to look whether it is to go on.
const PERIOD: u32 = 5;

/// For how many seconds a client may keep others waiting.
#[derive(Clone, Copy)]
pub struct Patience {
    /// Until its first whole line has come, and with a write of an answer.
    pub hurry: u32,
    /// Until a further line has come.
    pub idle: u32,
}

/// This many seconds, but one at least: a socket takes 0 for no limit.
fn seconds(count: u32) -> Duration {
    Duration::from_secs(u64::from(count.max(1)))
}

/// Whether the socket takes these limits, and sends each answer at once: without that, a client that sends several lines at
/// once would wait for each answer.
pub(crate) fn takes_limits(stream: &TcpStream, patience: Patience) -> bool {
    let period = seconds(patience.hurry.min(patience.idle).min(PERIOD));
    stream.set_nodelay(true).is_ok()
        && stream.set_read_timeout(Some(period)).is_ok()
        && stream.set_write_timeout(Some(period)).is_ok()
}

/// Whether a call on a socket came back since its time has passed; it may be made again where a signal cut it short.
fn has_passed(error: Error) -> io::Result<bool> {
    match error.kind() {
        ErrorKind::WouldBlock => Ok(true),
        ErrorKind::Interrupted => Ok(false),
        _ => Err(error),
    }
}

/// A connection, with what says how long it may go on.
#[derive(Drop)]
pub struct Visit<'a, T, G> {
    rt: &'a T,
    supervisor: &'a G,
    caller: u32,
    listener: &'a Mutex<CountedListener>,
    stream: TcpStream,
    patience: Patience,
}

impl<'a, T: Clock, G: Supervisor> Visit<'a, T, G> {
    /// The visit of a connection that the caller is to serve.
    pub(crate) fn new(
        rt: &'a T,
        supervisor: &'a G,
        caller: u32,
        listener: &'a Mutex<CountedListener>,
        stream: TcpStream,
        patience: Patience,
    ) -> Visit<'a, T, G> {
        supervisor.stay(caller);
        Visit {
            rt,
            supervisor,
            caller,
            listener,
            stream,
            patience,
        }
    }

    /// Reads, where it isn't to end.
    fn read(&self, buffer: &mut [u8]) -> io::Result<usize>
        ensures { ReadsAtMost result buffer.new }
    {
        if self.supervisor.is_over() || self.supervisor.makes_way(self.caller) {
            return Err(Error::from(ErrorKind::TimedOut));
        }
        let mut stream = &self.stream;
        stream.read(buffer)
    }

    fn write(&self, bytes: &[u8]) -> io::Result<usize>
        ensures { WritesAtMost result bytes.now }
    {
        let mut stream = &self.stream;
        stream.write(bytes)
    }

    /// Whether others wait, and this one has waited for its client since then for as long as it may.
    fn is_late(&self, since: Duration, limit: u32) -> io::Result<bool> {
        let now = self.rt.monotonic()?;
        Ok(now >= since.saturating_add(seconds(limit)) && is_awaited(self.listener))
    }

    /// Fails where all sessions are to end, and where others wait and this one has waited for its client since then for
    /// as long as it may.
    fn go_on(&self, since: Duration, limit: u32) -> io::Result<()> {
        if self.supervisor.is_over() || self.is_late(since, limit)? {
            return Err(Error::from(ErrorKind::TimedOut));
        }
        Ok(())
    }
}

/// What a connection sends.
#[derive(Drop)]
pub struct PatientReader<'a, T, G> {
    visit: Arc<Visit<'a, T, G>, Global>,
    has_line: bool,
    /// Since when a line has been waited for; none where no read has had to since the last one came.
    since: Option<Duration>,
}

impl<'a, T: Clock, G: Supervisor> PatientReader<'a, T, G> {
    /// The connection's reader, before its first byte.
    pub(crate) fn new(visit: Arc<Visit<'a, T, G>, Global>) -> PatientReader<'a, T, G> {
        PatientReader {
            visit,
            has_line: false,
            since: None,
        }
    }

    /// Goes on to wait for the line.
    fn wait_on(&mut self) -> io::Result<()> {
        let patience = self.visit.patience;
        let since = match self.since {
            Some(since) => since,
            None => self.visit.rt.monotonic()?,
        };
        self.since = Some(since);
        let limit = if self.has_line {
            patience.idle
        } else {
            patience.hurry
        };
        self.visit.go_on(since, limit)
    }

    /// Notes which bytes have come: no line is waited for where one has ended, or all.
    fn note(&mut self, bytes: &[u8]) -> io::Result<()> {
        if bytes.contains(&b'\n') {
            self.has_line = true;
            self.since = None;
            return Ok(());
        }
        if bytes.is_empty() {
            return Ok(());
        }
        self.wait_on()
    }

    /// Goes on after a read that gave nothing, where that says no more than that its time has passed.
    fn read_on(&mut self, error: Error) -> io::Result<()> {
        if has_passed(error)? {
            return self.wait_on();
        }
        Ok(())
    }
}

impl<T: Wait + Clock, G: Supervisor> Read for PatientReader<'_, T, G> {
    fn read(&mut self, buffer: &mut [u8]) -> io::Result<usize> {
        let rt = self.visit.rt;
        for _ in rt.forever() {
            match self.visit.read(buffer) {
                Ok(count) => {
                    self.note(&buffer[..count])?;
                    return Ok(count);
                }
                Err(error) => self.read_on(error)?,
            }
        }
        unreachable!()
    }
}

/// Where a connection's answers go.
#[derive(Drop)]
pub struct PatientWriter<'a, T, G> {
    visit: Arc<Visit<'a, T, G>, Global>,
    /// A buffer before it writes again when it is dropped.
    has_failed: bool,
}

impl<'a, T: Wait + Clock, G: Supervisor> PatientWriter<'a, T, G> {
    /// The connection's writer, before its first byte.
    pub(crate) fn new(visit: Arc<Visit<'a, T, G>, Global>) -> PatientWriter<'a, T, G> {
        PatientWriter {
            visit,
            has_failed: false,
        }
    }

    fn write_patiently(&mut self, bytes: &[u8]) -> io::Result<usize>
        ensures { WritesAtMost result bytes.now }
    {
        let (rt, patience) = (self.visit.rt, self.visit.patience);
        let since = rt.monotonic()?;
        for _ in rt.forever() {
            match self.visit.write(bytes) {
                Ok(count) => return Ok(count),
                Err(error) => {
                    if has_passed(error)? {
                        self.visit.go_on(since, patience.hurry)?;
                    }
                }
            }
        }
        unreachable!()
    }
}

impl<T: Wait + Clock, G: Supervisor> Write for PatientWriter<'_, T, G> {
    fn write(&mut self, bytes: &[u8]) -> io::Result<usize> {
        if self.has_failed {
            return Err(Error::from(ErrorKind::TimedOut));
        }
        let written = self.write_patiently(bytes);
        self.has_failed = written.is_err();
        written
    }

    fn flush(&mut self) -> io::Result<()> {
        let mut stream = &self.visit.stream;
        stream.flush()
    }
}
