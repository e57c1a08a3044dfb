//! Questions that wait for an entry.
ghost use Rattle.std.specs.Prelude.{◌≡◌};
ghost use Rattle.pana_daemon.specs.Waiting.{awaited_by, made_by};

use pana_calls::{Answer, Call, Query, Reply, Session};
use std::sync::Wait;
use std::sync::atomic::{AtomicU64, Ordering};
use std::time::Duration;

/// The entry that a call waits for, and for how many seconds at most; none where it doesn't wait.
pub(crate) fn awaited_by(call: &Call) -> Option<(u64, u64)>
    ensures { result ≡ awaited_by call.now }
{
    match call {
        Call::Query(Query::JournalAwaited { entry, seconds }) => Some((*entry, *seconds)),
        _ => None,
    }
}

/// The last entry of the journal, where the answer says that the call has made it.
pub(crate) fn made_by(answer: &Answer) -> Option<u64>
    ensures { result ≡ made_by answer.now }
{
    match answer {
        Answer::Given(Reply::Done { entry } | Reply::Did { entry, .. }) => Some(*entry),
        _ => None,
    }
}

/// Whether the answer has entries of the journal.
pub(crate) fn has_entries(answer: &Answer) -> bool {
    match answer {
        Answer::Given(Reply::Journal(entries)) => !entries.as_slice().is_empty(),
        _ => false,
    }
}

/// For how many seconds a wait lasts at most where the journal grows by others' calls too: these are seen only once a call is made.
const LOOK: u64 = 1;

/// How many entries the journal is known to have, and which callers' connections are to end.
///
/// The number says when a question that waits is asked. No answer comes from it.
pub struct Waiting {
    entries: AtomicU64,
    /// Whether the journal grows by others' calls too.
    is_shared: bool,
    /// A bit for each caller.
    leaving: AtomicU64,
}

impl Drop for Waiting {
    fn drop(self) {
        let Waiting {
            entries: _,
            is_shared: _,
            leaving: _,
        } = self;
    }
}

/// The bit of a caller. Callers are numbered from 1 to 64 at most.
fn bit_of(caller: u32) -> u64 {
    1_u64.wrapping_shl(caller)
}

impl Waiting {
    /// The journal of this session, and no connection that is to end.
    pub(crate) fn new<S: Session>(session: &S) -> Waiting {
        Waiting {
            entries: AtomicU64::new(session.entries()),
            is_shared: session.is_shared(),
            leaving: AtomicU64::new(0),
        }
    }

    /// How long a wait may last that is to last so many seconds at most.
    pub(crate) fn time_of(&self, seconds: u64) -> Duration {
        if self.is_shared {
            return Duration::from_secs(seconds.min(LOOK));
        }
        Duration::from_secs(seconds)
    }

    /// How many entries the journal is known to have.
    pub(crate) fn entries(&self) -> u64 {
        self.entries.load(Ordering::SeqCst)
    }

    /// Notes that the journal has an entry with this number, and wakes all that wait.
    pub(crate) fn note(&self, entry: u64) {
        self.entries.fetch_max(entry, Ordering::SeqCst);
        self.entries.wake_all();
    }

    /// Waits until there are more entries than so many, at most for a time; it may come back earlier.
    pub(crate) fn nap<T: Wait>(&self, threads: &T, entries: u64, time: Duration) {
        self.entries
            .park_timeout(threads, (entries & 0xffff_ffff) as u32, time);
    }

    /// Notes that the caller's connection is to end.
    pub(crate) fn leave(&self, caller: u32) {
        self.leaving.fetch_or(bit_of(caller), Ordering::SeqCst);
    }

    /// Notes that the caller's connection isn't to end.
    pub(crate) fn stay(&self, caller: u32) {
        self.leaving.fetch_and(!bit_of(caller), Ordering::SeqCst);
    }

    /// Whether the caller's connection is to end.
    pub(crate) fn leaves(&self, caller: u32) -> bool {
        self.leaving.load(Ordering::SeqCst) & bit_of(caller) != 0
    }
}
