//! A listener, and how many of its connections are taken.
ghost use Rattle.std.specs.Prelude.{◌≡◌, ◌≤◌, None, Some, IsSome, false};
ghost use Rattle.std.specs.Option.{ForSome};
ghost use Rattle.pana_daemon.specs.Pause.{pause_after};

use crate::patience::Patience;
use crate::supervisor::Supervisor;
use std::io::ErrorKind;
use std::net::{TcpListener, TcpStream};
use std::sync::atomic::AtomicU64;
use std::sync::{Mutex, Wait};
use std::time::Duration;

/// How long the pause is after a connection couldn't be taken, in milliseconds; each is twice as long as the one before.
const FIRST_PAUSE: u64 = 1;

/// How long it is at most.
const LONGEST_PAUSE: u64 = 1000;

/// How long the next pause is after one of so many milliseconds.
fn pause_after(pause: u64) -> u64
    ensures { result ≡ pause_after pause }
{
    pause.saturating_mul(2).min(LONGEST_PAUSE)
}

/// Whether a connection waits that nobody takes: one session looks at a time, and none does where a worker takes them.
pub(crate) fn is_awaited(listener: &Mutex<CountedListener>) -> bool {
    match listener.try_lock() {
        Some(mut listener) => listener.has_waiting(),
        None => false,
    }
}

/// A listener, how many of its connections are wanted, all where there is no number, and how long each may keep others
/// waiting.
#[derive(Drop)]
pub struct Listener {
    pub listener: TcpListener,
    pub wanted: Option<u64>,
    pub patience: Patience,
}

/// A listener, and how many connections were taken of it. It is closed as soon as these are all that are wanted, and else
/// only where the supervisor says that no further one is to be taken.
#[derive(Drop)]
pub struct CountedListener {
    listener: Option<TcpListener>,
    taken: u64,
    wanted: Option<u64>,
    /// The connection that a session has made way for.
    next: Option<TcpStream>,
    /// Whether connections are to be taken at all, once that was asked.
    opens: Option<bool>,
    /// Whether no further connection is to be taken, as the supervisor has said.
    is_over: bool,
    ghost closed: { wanted ≡ Some taken → listener ≡ None },
    ghost cause: { listener ≡ None → is_over ≡ false → wanted ≡ Some taken },
    ghost few: { ForSome wanted (λ most. taken ≤ most) },
}

impl CountedListener {
    /// A listener of which so many connections are wanted, or all.
    pub fn new(listener: TcpListener, wanted: Option<u64>) -> CountedListener {
        let listener = if wanted == Some(0) {
            None
        } else {
            Some(listener)
        };
        CountedListener {
            listener,
            taken: 0,
            wanted,
            next: None,
            opens: None,
            is_over: false,
        }
    }

    /// Counts a connection, and closes the listener where it was the last one.
    fn count(&mut self)
        requires { IsSome self.old.listener }
    {
        let taken = self.taken.saturating_add(1);
        if self.wanted == Some(taken) {
            self.listener = None;
        }
        self.taken = taken;
    }

    /// Whether connections are to be taken at all. It waits until all is ready for the first one.
    pub(crate) fn opens<T: Wait, G: Supervisor>(&mut self, rt: &T, supervisor: &G) -> bool
        ensures { self.new ≡ record self.old { opens = Some result } }
    {
        let opens = match self.opens {
            Some(opens) => opens,
            None => supervisor.opens(rt),
        };
        self.opens = Some(opens);
        opens
    }

    /// The next connection, for which it waits; none only where the listener is closed.
    ///
    /// Where none can be taken, as where no descriptor is left, it tries again and again, after pauses.
    pub(crate) fn take<T: Wait, G: Supervisor>(
        &mut self,
        rt: &T,
        supervisor: &G,
    ) -> Option<TcpStream>
        ensures { result ≡ None → self.new.listener ≡ None }
    {
        if let Some(stream) = self.next.take() {
            return Some(stream);
        }
        let (nap, mut pause) = (AtomicU64::new(0), FIRST_PAUSE);
        for _ in rt.forever() {
            let Some(listener) = &self.listener else {
                return None;
            };
            if let Ok((stream, _)) = listener.accept() {
                self.count();
                return Some(stream);
            }
            if supervisor.is_closing() {
                self.is_over = true;
                self.listener = None;
                return None;
            }
            supervisor.not_taken();
            nap.park_timeout(rt, 0, Duration::from_millis(pause));
            pause = pause_after(pause);
        }
        unreachable!()
    }

    /// Whether a connection waits that no session has made way for yet. It is the next one then.
    pub(crate) fn has_waiting(&mut self) -> bool {
        let Some(listener) = &self.listener else {
            return false;
        };
        if self.next.is_some() || listener.set_nonblocking(true).is_err() {
            return false;
        }
        let taken = listener.accept();
        let _ = listener.set_nonblocking(false);
        match taken {
            Ok((stream, _)) => {
                self.count();
                self.next = Some(stream);
                true
            }
            // Where no descriptor is left one waits all the same, and the session that ends gives one back.
            Err(error) => !matches!(error.kind(), ErrorKind::WouldBlock),
        }
    }
}
