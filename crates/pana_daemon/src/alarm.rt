//! What becomes of faults that aren't a session's own.

use crate::listener::{CountedListener, is_awaited};
use crate::start::Start;
use crate::supervisor::Supervisor;
use crate::waiting::Waiting;
use std::io;
use std::net::{Shutdown, TcpListener, TcpStream};
use std::os::fd::OwnedFd;
use std::sync::atomic::{AtomicBool, AtomicU64, Ordering};
use std::sync::{Mutex, Wait};
use std::time::{Clock, Duration};

/// How many seconds open sessions have before they are to end.
const GRACE: u64 = 5;

/// How many milliseconds a step of a wait for an entry takes at most.
const STEP: u64 = 100;

/// For how many seconds a wait for an entry may keep others waiting.
const HOLD: u64 = 1;

/// A supervisor that opens with the start, and lets all pass. It prints one line on standard error where a call has no answer for
/// good, one where a call has none for now and one once a call has an answer again, and one where a connection can't be taken for
/// the first time.
pub struct Alarm<'a> {
    rt: &'a HostRuntime,
    start: &'a Start,
    listener: &'a Mutex<CountedListener>,
    has_rung: AtomicBool,
    /// Whether a call had no answer for now, and none has had one since.
    is_silent: AtomicBool,
    is_deaf: AtomicBool,
    closer: Option<Closer>,
    /// The second of the clock when it rang; the greatest number before.
    rung_at: AtomicU64,
    waiting: Waiting,
}

impl<'a> Drop for Alarm<'a> {
    fn drop(self) {
        let Alarm {
            rt: _,
            start: _,
            listener: _,
            has_rung: _,
            is_silent: _,
            is_deaf: _,
            closer: _,
            rung_at: _,
            waiting: _,
        } = self;
    }
}

/// The socket of a listener, by which it can be shut down while it waits for a connection.
pub struct Closer {
    socket: TcpStream,
}

impl Drop for Closer {
    fn drop(self) {
        let Closer { socket: _ } = self;
    }
}

impl Closer {
    /// Fails only where no descriptor is left.
    pub fn new(listener: &TcpListener) -> io::Result<Closer> {
        Ok(Closer {
            socket: TcpStream::from(OwnedFd::from(listener.try_clone()?)),
        })
    }
}

impl<'a> Alarm<'a> {
    /// A supervisor before the first call, and what it knows of the journal; once it has rung all is to end where a closer of the
    /// listener is given.
    pub fn new(
        rt: &'a HostRuntime,
        start: &'a Start,
        listener: &'a Mutex<CountedListener>,
        closer: Option<Closer>,
        waiting: Waiting,
    ) -> Alarm<'a> {
        Alarm {
            rt,
            start,
            listener,
            has_rung: AtomicBool::new(false),
            is_silent: AtomicBool::new(false),
            is_deaf: AtomicBool::new(false),
            closer,
            rung_at: AtomicU64::new(u64::MAX),
            waiting,
        }
    }

    /// Whether a call had no answer for good.
    fn has_rung(&self) -> bool {
        self.has_rung.load(Ordering::SeqCst)
    }

    /// Whether all is to end once it has rung.
    pub fn ends_all(&self) -> bool {
        self.closer.is_some()
    }

    /// Prints lines on standard error, where that can be written.
    pub(crate) fn say(&self, lines: &str) {
        let _ = eprint!(self.rt; "{lines}");
    }

    /// Takes no further connection, and notes the time.
    fn close(&self) {
        if let Some(closer) = &self.closer {
            self.rung_at.store(self.second(), Ordering::SeqCst);
            let _ = closer.socket.shutdown(Shutdown::Both);
        }
    }

    /// Waits a step for an entry; returns false once it is known to be there, the time is over, or all is to end. A wait that has
    /// kept others waiting is over too, and the caller's connection is to end.
    fn wait_on<T: Wait>(
        &self,
        threads: &T,
        caller: u32,
        entry: u64,
        begun: Duration,
        time: Duration,
    ) -> bool {
        let known = self.waiting.entries();
        let Ok(now) = self.rt.monotonic() else {
            return false;
        };
        let left = begun.saturating_add(time).saturating_sub(now);
        if known >= entry || left.is_zero() || self.is_closing() {
            return false;
        }
        if now >= begun.saturating_add(Duration::from_secs(HOLD)) && is_awaited(self.listener) {
            self.waiting.leave(caller);
            return false;
        }
        self.waiting
            .nap(threads, known, left.min(Duration::from_millis(STEP)));
        true
    }

    /// The second of the clock; 0 where it can't be read.
    fn second(&self) -> u64 {
        match self.rt.monotonic() {
            Ok(time) => time.as_secs(),
            Err(_) => 0,
        }
    }
}

impl Supervisor for Alarm<'_> {
    fn before(&self, _caller: u32, _nth: u64) {}

    fn after(&self, _caller: u32, _nth: u64) {
        if self.is_silent.load(Ordering::SeqCst) && self.is_silent.swap(false, Ordering::SeqCst) {
            self.say("panad: the log answers again\n");
        }
    }

    fn unanswered(&self, _caller: u32, _nth: u64, may_recover: bool) {
        if may_recover {
            if !self.is_silent.swap(true, Ordering::SeqCst) {
                self.say("panad: the log gives no answer; trying again\n");
            }
            return;
        }
        if !self.has_rung.swap(true, Ordering::SeqCst) {
            let _ = eprintln!(self.rt; "panad: journal failed");
            self.close();
        }
    }

    fn wait<T: Wait>(&self, threads: &T, caller: u32, entry: u64, seconds: u64) {
        let Ok(begun) = self.rt.monotonic() else {
            return;
        };
        let time = self.waiting.time_of(seconds);
        for _ in threads.forever() {
            if !self.wait_on(threads, caller, entry, begun, time) {
                return;
            }
        }
    }

    fn note(&self, entry: u64) {
        self.waiting.note(entry);
    }

    fn stay(&self, caller: u32) {
        self.waiting.stay(caller);
    }

    fn makes_way(&self, caller: u32) -> bool {
        self.waiting.leaves(caller)
    }

    fn opens<T: Wait>(&self, threads: &T) -> bool {
        self.start.wait(threads)
    }

    fn is_closing(&self) -> bool {
        self.ends_all() && self.has_rung()
    }

    fn is_over(&self) -> bool {
        self.is_closing()
            && self.second() >= self.rung_at.load(Ordering::SeqCst).saturating_add(GRACE)
    }

    fn not_taken(&self) {
        if !self.is_deaf.swap(true, Ordering::SeqCst) {
            let _ = eprintln!(self.rt; "panad: cannot take a connection; trying again");
        }
    }
}
