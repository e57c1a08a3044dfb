use crate::finished_call::FinishedCall;
use std::collections::LinkedList;

/// A pass that a seat speaks for: its number, the state that its desk was opened with, the calls that it made, and what it
/// had seen when it was handed back.
/// No value of it is made.
pub struct Account<S, C, R> {
    pub number: u32,
    pub begun: S,
    pub mine: LinkedList<FinishedCall<S, C, R>>,
    pub seen: LinkedList<FinishedCall<S, C, R>>,
}

/// How far a seat is with a call: none is on its way; the test found that calls are left; it has drawn this ticket; the
/// turn is its own. No value of it is made.
pub enum Stage {
    Idle,
    Tested,
    Drawn(u64),
    Turn,
}

/// What a seat knows: the passes that it speaks for, the history that it has seen, what the note that it met last had
/// seen, and how far it is with a call. No value of it is made.
pub struct View<S, C, R> {
    pub accounts: LinkedList<Account<S, C, R>>,
    pub seen: LinkedList<FinishedCall<S, C, R>>,
    pub met: LinkedList<FinishedCall<S, C, R>>,
    pub stage: Stage,
}
