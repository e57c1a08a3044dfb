//! The line that shows how far a scan is.

use pana_scan::Watch;
use std::io::IsTerminal;
use std::sync::atomic::{AtomicBool, AtomicU64, Ordering};
use std::time::Instant;

/// After how many milliseconds the line is shown first, and how long it then stands.
const PATIENCE: u64 = 1_000;

const PERIOD: u64 = 100;

/// Where standard error is a terminal: one line there with the files and bytes of a scan so far, how fast these are read and
/// how long the other files will take at this rate, as soon as the scan has taken a second. Elsewhere nothing. The threads of a
/// scan share it.
#[derive(Drop)]
pub struct Progress<'a> {
    rt: &'a HostRuntime,
    /// When the scan began; none where the line is never shown.
    began: Option<Instant>,
    /// After how many milliseconds the line is shown next.
    due: AtomicU64,
    is_shown: AtomicBool,
    /// How many files there are; 0 until they are listed.
    listed: AtomicU64,
    files: AtomicU64,
    bytes: AtomicU64,
}

impl<'a> Progress<'a> {
    /// No file and no byte so far. Takes no memory.
    pub fn new(rt: &'a HostRuntime) -> Progress<'a> {
        let began = if rt.stderr().is_terminal() {
            Instant::now(rt).ok()
        } else {
            None
        };
        Progress {
            rt,
            began,
            due: AtomicU64::new(PATIENCE),
            is_shown: AtomicBool::new(false),
            listed: AtomicU64::new(0),
            files: AtomicU64::new(0),
            bytes: AtomicU64::new(0),
        }
    }

    /// Takes the line away.
    pub fn end(self) {
        self.clear();
    }

    /// Takes the line away until it is shown again.
    pub fn clear(&self) {
        if self.is_shown.swap(false, Ordering::SeqCst) {
            let _ = eprint!(self.rt; "\r\x1b[K");
        }
    }

    /// Shows the line where that is due. Of several threads one does.
    fn show_if_due(&self) {
        let Some(began) = self.began else { return };
        let Ok(passed) = began.elapsed(self.rt) else {
            return;
        };
        let now = u64::try_from(passed.as_millis()).unwrap_or(u64::MAX);
        let due = self.due.load(Ordering::SeqCst);
        if now < due || !self.moves_on(due, now.saturating_add(PERIOD)) {
            return;
        }
        self.show(now);
        self.is_shown.store(true, Ordering::SeqCst);
    }

    /// Shows the line of a scan that has taken so many milliseconds.
    fn show(&self, passed: u64) {
        let listed = self.listed.load(Ordering::SeqCst);
        let files = self.files.load(Ordering::SeqCst).min(listed);
        let bytes = self.bytes.load(Ordering::SeqCst);
        let rate = per_second(bytes, passed) / 1_000_000;
        let _ = eprint!(self.rt;
            "\r\x1b[Kpanad: {files} of {listed} files, {bytes} bytes, {rate} MB/s"
        );
        if let Some(left) = seconds_left(files, listed, passed) {
            let _ = eprint!(self.rt; ", {left} s left");
        }
    }

    /// Whether this thread is the one that changes when the line is due.
    fn moves_on(&self, due: u64, next: u64) -> bool {
        self.due
            .compare_exchange(due, next, Ordering::SeqCst, Ordering::SeqCst)
            .is_ok()
    }
}

/// How much there is to a second, where there is so much to so many milliseconds.
fn per_second(count: u64, milliseconds: u64) -> u64 {
    count.saturating_mul(1_000) / milliseconds.max(1)
}

/// How many seconds are left, where so many files of those that are listed were begun in so many milliseconds: nobody knows
/// before the second one.
fn seconds_left(begun: u64, listed: u64, milliseconds: u64) -> Option<u64> {
    let done = begun.saturating_sub(1);
    let left = listed.saturating_sub(done);
    milliseconds
        .saturating_mul(left)
        .checked_div(done.saturating_mul(1_000))
}

impl Watch for Progress<'_> {
    fn files_listed(&self, count: usize) {
        self.listed.store(count as u64, Ordering::SeqCst);
    }

    fn file_begun(&self) {
        self.files.fetch_add(1, Ordering::SeqCst);
        self.show_if_due();
    }

    fn bytes_read(&self, count: usize) {
        self.bytes.fetch_add(count as u64, Ordering::SeqCst);
        self.show_if_due();
    }
}
