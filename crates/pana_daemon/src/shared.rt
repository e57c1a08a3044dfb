//! The session that all at a desk share.

use crate::request::{CallList, Request, Response};
use pana_calls::{Message, NoAnswer, Session};
use pana_turn::Machine;
use std::marker::Model;

/// A session as the machine of a desk: its callers' requests are made of it, one at a time. To contracts it is the session.
#[derive(Drop)]
pub struct Shared<S> {
    session: S,
}

impl<S> Model for Shared<S> {
    ghost Value = { S };

    ghost view = { λ shared. shared.session };
}

impl<S> Shared<S> {
    ghost use Rattle.std.specs.Prelude.{◌≡◌};

    /// The session, before others share it. Takes no memory.
    pub fn new(session: S) -> Shared<S>
        ensures { result ≡ session }
    {
        Shared { session }
    }

    /// The session, which nobody shares any more. Takes no memory.
    pub fn into_session(self) -> S
        ensures { result ≡ self }
    {
        let Shared { session } = self;
        session
    }
}

impl<S: Session + Drop> Shared<S> {
    ghost use Rattle.pana_daemon.specs.Desk.{RequestSteps};
    ghost use Rattle.pana_daemon.specs.declared.request.Request.TheVariants.{MakeAll};

    /// Makes the calls of a list.
    fn make_all(&mut self, list: CallList) -> Response
        ensures { RequestSteps S.step S.fails S.settles S.breaks_off self.old (MakeAll list) result self.new }
    {
        let CallList { calls, mut answers } = list;
        match self.session.call_all(calls, &mut answers) {
            Ok(()) => Response::Answers {
                answers,
                stopped: None,
            },
            Err(NoAnswer) => Response::Answers {
                answers,
                stopped: Some(self.session.may_recover()),
            },
        }
    }
}

impl<S: Session + Drop> Machine for Shared<S> {
    type Call = Request;

    type Reply = Response;

    ghost use Rattle.pana_daemon.specs.Desk.{RequestSteps};

    ghost step = { RequestSteps S.step S.fails S.settles S.breaks_off };

    fn make(&mut self, request: Request) -> Response {
        match request {
            Request::Make(Message { by, call }) => match self.session.call(&by, call) {
                Ok(answer) => Response::Answer(answer),
                Err(NoAnswer) => Response::Nothing {
                    recovers: self.session.may_recover(),
                },
            },
            Request::MakeAll(list) => self.make_all(list),
            Request::Settle => match self.session.settle() {
                Ok(()) => Response::Settled,
                Err(NoAnswer) => Response::Nothing {
                    recovers: self.session.may_recover(),
                },
            },
        }
    }

    fn is_slow(&self) -> bool {
        self.session.is_slow()
    }

    /// To settle alone comes to the disk. So the calls that have come meanwhile are made before the next one settles, and are
    /// kept together.
    fn takes_long(request: &Request) -> bool {
        matches!(request, Request::Settle)
    }
}
