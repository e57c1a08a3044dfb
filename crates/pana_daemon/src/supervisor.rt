//! Who is asked before and after each call.

use std::sync::Wait;

/// Whom each caller asks before a call is handed to the desk, and after its answer has come, outside the caller's turn.
///
/// It can hold callers back, and has no part in what they call.
pub trait Supervisor {
    /// Before the caller's nth call, counted from 1. Callers are numbered from 1, in the order of their posts.
    fn before(&self, caller: u32, nth: u64);

    /// After the answer to the caller's nth call.
    fn after(&self, caller: u32, nth: u64);

    /// After the caller's nth call was made and has no answer, and whether later calls may have answers.
    fn unanswered(&self, _caller: u32, _nth: u64, _may_recover: bool) {}

    /// Before a call of the caller that waits for this entry: comes back once the journal is known to have it, at the latest after
    /// so many seconds, and sooner where all sessions are to end or where the wait keeps others waiting.
    fn wait<T: Wait>(&self, _rt: &T, _caller: u32, _entry: u64, _seconds: u64) {}

    /// After an answer by which the journal has this entry.
    fn note(&self, _entry: u64) {}

    /// Before the first read of a connection that the caller is to serve, and after a wait of the caller's whose answer has entries:
    /// the connection isn't to end.
    fn stay(&self, _caller: u32) {}

    /// Whether the caller's connection is to end, since its wait kept others waiting.
    fn makes_way(&self, _caller: u32) -> bool {
        false
    }

    /// Whether connections are to be taken at all: asked once, when all is ready for the first one.
    fn opens<T: Wait>(&self, _rt: &T) -> bool {
        true
    }

    /// After no connection could be taken, for a reason that may pass.
    fn not_taken(&self) {}

    /// Whether no further connection is to be taken.
    fn is_closing(&self) -> bool {
        false
    }

    /// Whether the sessions that are open are to end.
    fn is_over(&self) -> bool {
        false
    }
}

/// A supervisor that lets all pass.
#[derive(Clone, Copy)]
pub struct IdleSupervisor;

impl Supervisor for IdleSupervisor {
    fn before(&self, _caller: u32, _nth: u64) {}

    fn after(&self, _caller: u32, _nth: u64) {}
}
