//! What is asked at the desk, and what comes of it.

ghost use Rattle.std.specs.Prelude.{◌≡◌, ◌≤◌, IfOk, [], length, vec_capacity};

use pana_calls::{Answer, Message};
use std::alloc::{AllocError, Global};
use std::marker::Model;

/// Calls that are made one after another by one request, and room for their answers. To contracts it is the calls.
#[derive(Drop)]
pub struct CallList {
    pub(crate) calls: Vec<Message>,
    pub(crate) answers: Vec<Answer>,
}

impl Model for CallList {
    ghost use Rattle.std.specs.Prelude.{◌≡◌, ◌≤◌, List, [], length, vec_capacity};
    ghost use Rattle.pana_calls.specs.declared.message.Message.{Message};

    ghost Value = { List Message };

    ghost view = { λ list. list.calls.items };

    ghost invariant = { λ list. (list.answers.items ≡ []) × (length list.calls.items ≤ vec_capacity list.answers) };
}

/// Room for the answers to so many calls. Fails only where memory runs out.
pub(crate) fn room_for(alloc: Global, calls: &[Message]) -> Result<Vec<Answer>, AllocError>
    ensures empty { IfOk result (λ room. room.items ≡ []) }
    ensures room { IfOk result (λ room. length calls.now ≤ vec_capacity room) }
{
    Vec::with_capacity(alloc, calls.len())
}

/// What is asked of the session that all share.
#[derive(Drop)]
pub enum Request {
    /// To make this call of a device.
    Make(Message),
    /// To make these calls, one after another.
    MakeAll(CallList),
    /// To keep what the calls so far have made.
    Settle,
}

/// What has come of a request.
#[derive(Drop)]
pub enum Response {
    /// The call was made, and this is its answer.
    Answer(Answer),
    /// The calls of the list were made, and these are their answers. Or these are the answers to the first of them, the next ones have
    /// none, and whether later requests may have answers.
    Answers {
        answers: Vec<Answer>,
        stopped: Option<bool>,
    },
    /// All is kept.
    Settled,
    /// The call has no answer, or what waits can't be kept; and whether later requests may have answers.
    Nothing {
        recovers: bool,
    },
}

impl Response {
    ghost use Rattle.std.specs.Prelude.{◌≡◌};
    ghost use Rattle.pana_daemon.specs.Desk.{is_nothing, is_passing};

    /// Whether nothing has come of it.
    pub(crate) fn is_nothing(&self) -> bool
        ensures { result ≡ is_nothing self.now }
    {
        matches!(
            self,
            Response::Nothing { .. }
                | Response::Answers {
                    stopped: Some(_),
                    ..
                }
        )
    }

    /// Whether nothing has come of it, though later requests may have answers.
    pub(crate) fn is_passing(&self) -> bool
        ensures { result ≡ is_passing self.now }
    {
        match self {
            Response::Answers {
                stopped: Some(recovers),
                ..
            } => *recovers,
            Response::Nothing { recovers } => *recovers,
            _ => false,
        }
    }
}
