//! What is to run at once.

ghost use Rattle.std.specs.Prelude.{◌≡◌, IfSome};

use std::marker::Model;
use std::sync::atomic::{AtomicU64, Ordering};
use std::sync::{OnceLock, OnceToken, Wait};
use std::time::Duration;

/// For how many naps it is waited for what hasn't begun, and how many milliseconds each has at most.
const NAPS: u32 = 100;

const NAP: u64 = 100;

/// The word once something hasn't begun in time.
const REFUSED: u64 = 1 << 32;

/// Things that are to run at once, each in a thread of its own, and how many of them have begun. Where threads that there
/// were a moment ago can't be made after all, some would run one after another, so the last ones never.
pub struct Start {
    wanted: u64,
    begun: AtomicU64,
    /// Whether all have begun, once that was asked.
    all: OnceLock<bool>,
}

impl Drop for Start {
    fn drop(self) {
        let Start {
            wanted: _,
            begun: _,
            all: _,
        } = self;
    }
}

/// Whether all have begun that were to, as it was answered to one of them; all get the same answer. To contracts it is
/// which start this is, and the answer.
#[derive(Drop)]
pub struct Verdict<'a> {
    token: OnceToken<'a, bool>,
    begins: bool,
}

impl<'a> Model for Verdict<'a> {
    ghost use Rattle.std.specs.Prelude.{◌≡◌};
    ghost use Rattle.pana_daemon.specs.Start.{VerdictView};

    ghost Value = { VerdictView };

    ghost view = { λ verdict. record { of = verdict.token.of; begins = verdict.begins } };

    ghost invariant = { λ verdict. verdict.token.value ≡ verdict.begins };
}

impl<'a> Verdict<'a> {
    /// Whether all have begun.
    pub fn begins(&self) -> bool
        ensures { result ≡ self.now.begins }
    {
        self.begins
    }

    /// Shows that another one has got the same answer. It does nothing.
    fn agrees(&self, other: &Verdict<'a>)
        requires { self.now.of ≡ other.now.of }
        ensures { self.now.begins ≡ other.now.begins }
    {
        self.token.agrees(&other.token);
    }

    /// Shows that one that has asked has got the same answer. It does nothing.
    pub(crate) fn is_that_of(&self, asked: &Option<Verdict<'a>>)
        requires { IfSome asked.now (λ one. one.of ≡ self.now.of) }
        ensures { IfSome asked.now (λ one. one.begins ≡ self.now.begins) }
    {
        match asked {
            Some(one) => one.agrees(self),
            None => {}
        }
    }
}

impl Start {
    /// The start of so many things, fewer than 2^32.
    pub fn new(wanted: u64) -> Start {
        Start {
            wanted,
            begun: AtomicU64::new(0),
            all: OnceLock::new(),
        }
    }

    /// Waits so, and returns the answer that all get.
    pub fn ask<T: Wait>(&self, threads: &T) -> Verdict<'_>
        ensures { result.of ≡ self.now.all.id }
    {
        let begins = self.wait(threads);
        self.answer(threads, begins)
    }

    /// The answer that all get. It waits for none that hasn't begun.
    pub fn decide<T: Wait>(&self, threads: &T) -> Verdict<'_>
        ensures { result.of ≡ self.now.all.id }
    {
        let begins = self.close(threads);
        self.answer(threads, begins)
    }

    /// The answer that all get, which is this one where it is the first.
    fn answer<T: Wait>(&self, threads: &T, begins: bool) -> Verdict<'_>
        ensures { result.of ≡ self.now.all.id }
    {
        let token = match self.all.try_insert(threads, begins) {
            Ok(token) => token,
            Err((token, _)) => token,
        };
        let begins = *self.all.value(&token);
        Verdict { token, begins }
    }

    /// Notes that one more has begun, and waits until all have. Returns whether they have within ten seconds or so; where
    /// not it returns so to all, also to those that begin later.
    pub fn wait<T: Wait>(&self, threads: &T) -> bool {
        self.begun.fetch_add(1, Ordering::SeqCst);
        self.begun.wake_all();
        for _ in 0..NAPS {
            let begun = self.begun.load(Ordering::SeqCst);
            if begun >= self.wanted {
                break;
            }
            let low = (begun % (1 << 32)) as u32;
            self.begun
                .park_timeout(threads, low, Duration::from_millis(NAP));
        }
        self.close(threads)
    }

    /// Refuses the start where not all have begun.
    pub fn refuse<T: Wait>(&self, threads: &T) {
        let _ = self.close(threads);
    }

    /// Refuses the start where not all have begun. Returns whether they have.
    fn close<T: Wait>(&self, threads: &T) -> bool {
        for _ in threads.forever() {
            let begun = self.begun.load(Ordering::SeqCst);
            if begun >= self.wanted {
                return begun < REFUSED;
            }
            let swapped = self
                .begun
                .compare_exchange(begun, REFUSED, Ordering::SeqCst, Ordering::SeqCst);
            if swapped.is_ok() {
                self.begun.wake_all();
                return false;
            }
        }
        unreachable!()
    }
}
