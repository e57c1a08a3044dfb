//! What no clause says: that sessions are served where memory is there, and at the same time.

use pana_daemon::{Connection, DaemonFault, Door, Folder, Look, Post, Supervisor, attend};
use pana_hall::Hall;
use pana_track::FolderEnd;
use std::alloc::{AllocError, Global};
use std::marker::Sync;
use std::sync::Wait;
use std::sync::atomic::{AtomicBool, AtomicU64, Ordering};
use std::test::Fail;
use std::thread;
use std::thread::Threads;
use std::time::{Clock, Duration};

const REGISTER: &str = "{\"by\":\"a\",\"do\":\"register\",\"device\":\"a\",\"path\":\"f\"}\n";

const FAMILIES: &str = "{\"by\":\"a\",\"do\":\"families\"}\n";

const FAMILIES_TWICE: &str =
    "{\"by\":\"a\",\"do\":\"families\"}\n{\"by\":\"a\",\"do\":\"families\"}\n";

/// A supervisor that holds the calls of one session until another had an answer, for ten seconds at the most.
#[derive(Drop)]
struct Holding<'a, T> {
    rt: &'a T,
    session: u32,
    released: AtomicBool,
    late: AtomicBool,
}

impl<T: Clock> Supervisor for Holding<'_, T> {
    fn before(&self, session: u32, _nth: u64) {
        if session != self.session {
            return;
        }
        for _ in 0..10_000 {
            if self.released.load(Ordering::SeqCst) {
                return;
            }
            thread::sleep(self.rt, Duration::from_millis(1));
        }
        self.late.store(true, Ordering::SeqCst);
    }

    fn after(&self, session: u32, _nth: u64) {
        if session != self.session {
            self.released.store(true, Ordering::SeqCst);
        }
    }
}

/// A supervisor that counts the calls of sessions 1 and 2, and notes a question with another session or number.
#[derive(Drop)]
struct Counting {
    first: AtomicU64,
    second: AtomicU64,
    wrong: AtomicBool,
}

impl Counting {
    /// The count of the session's calls.
    fn count(&self, session: u32) -> Option<&AtomicU64> {
        match session {
            1 => Some(&self.first),
            2 => Some(&self.second),
            _ => None,
        }
    }
}

impl Supervisor for Counting {
    fn before(&self, session: u32, nth: u64) {
        match self.count(session) {
            Some(count) if count.fetch_add(1, Ordering::SeqCst) == nth.wrapping_sub(1) => {}
            _ => self.wrong.store(true, Ordering::SeqCst),
        }
    }

    fn after(&self, session: u32, nth: u64) {
        match self.count(session) {
            Some(count) if count.load(Ordering::SeqCst) == nth => {}
            _ => self.wrong.store(true, Ordering::SeqCst),
        }
    }
}

/// A door with one connection, whose lines are known beforehand and whose answers are dropped.
#[derive(Drop)]
pub(crate) struct Prepared<'a> {
    alloc: Global,
    lines: Option<&'a str>,
}

impl<'a> Door for Prepared<'a> {
    type Reader = &'a [u8];

    type Writer = Vec<u8>;

    fn next(&mut self) -> Option<Connection<&'a [u8], Vec<u8>>> {
        let lines = self.lines.take()?;
        Some(Connection {
            reader: lines.as_bytes(),
            writer: Vec::new(self.alloc),
        })
    }
}

/// A folder that is never scanned.
#[derive(Drop)]
pub(crate) struct NoFolder;

impl Folder for NoFolder {
    fn next<R: Threads + Sync>(&mut self, _threads: &R) -> Option<Look> {
        None
    }

    fn note_end(&mut self, _end: &FolderEnd) {}
}

/// A post at a door with these lines.
pub(crate) fn post<'a>(alloc: Global, lines: &'a str) -> Post<'a, Prepared<'a>, NoFolder> {
    Post::Door(Prepared {
        alloc,
        lines: Some(lines),
    })
}

/// Two sessions with these lines, each in a thread of its own: how many requests they made, of which one
/// is to settle for each group of lines.
fn serve_two<T: Threads + Wait + Sync, G: Supervisor + Sync>(
    rt: &T,
    alloc: Global,
    supervisor: &G,
    first: &str,
    second: &str,
) -> Result<u64, Fail> {
    let posts: Vec<Post<'_, _, NoFolder>> = vec![in alloc;
        post(alloc, first),
        post(alloc, second),
    ]?;
    let hall = Hall::new(alloc)?;
    let begin = || -> Result<(), DaemonFault> { Ok(()) };
    match attend(rt, alloc, supervisor, hall, posts, begin) {
        Ok(ended) => Ok(ended.requests),
        Err(_) => Err(Fail::from(AllocError)),
    }
}

/// Two sessions, of which one is held until the other had its reply: whether both were answered in time.
fn held_session_is_answered<T: Threads + Wait + Clock + Sync>(
    rt: &T,
    alloc: Global,
    held: u32,
) -> Result<bool, Fail> {
    let supervisor = Holding {
        rt,
        session: held,
        released: AtomicBool::new(false),
        late: AtomicBool::new(false),
    };
    let requests = serve_two(rt, alloc, &supervisor, REGISTER, FAMILIES)?;
    Ok(requests == 4 && !supervisor.late.load(Ordering::SeqCst))
}

#[test]
fn two_sessions_at_once(rt: HostRuntime) -> Result<(), Fail> {
    assert!(rt; held_session_is_answered(&rt, rt.alloc(), 1)?);
    assert!(rt; held_session_is_answered(&rt, rt.alloc(), 2)?);
    Ok(())
}

#[test]
fn supervisor_is_asked_by_session_and_number(rt: HostRuntime) -> Result<(), Fail> {
    let alloc = rt.alloc();
    let supervisor = Counting {
        first: AtomicU64::new(0),
        second: AtomicU64::new(0),
        wrong: AtomicBool::new(false),
    };
    let requests = serve_two(&rt, alloc, &supervisor, REGISTER, FAMILIES_TWICE)?;
    assert_eq!(rt; requests, 5);
    assert_eq!(rt; supervisor.first.load(Ordering::SeqCst), 1);
    assert_eq!(rt; supervisor.second.load(Ordering::SeqCst), 2);
    assert!(rt; !supervisor.wrong.load(Ordering::SeqCst));
    Ok(())
}
