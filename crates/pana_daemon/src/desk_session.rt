//! A session whose calls are made at a desk.

ghost use Rattle.std.specs.Prelude.{◌≡◌, ◌+◌, ◌≤◌, ◌<◌, ◌++◌, length, vec_capacity, vec_len};

use crate::request::{CallList, Request, Response, room_for};
use crate::shared::Shared;
use crate::supervisor::Supervisor;
use crate::waiting::{awaited_by, has_entries, made_by};
use pana_calls::{Answer, Call, Message, NoAnswer, Session};
use pana_copies::DeviceName;
use pana_turn::{Desk, Pass};
use std::alloc::Global;
use std::marker::Model;
use std::sync::Wait;

/// A session by a pass of a desk. To contracts it is the pass, and no list of calls of which some are yet to be shown.
#[derive(Drop)]
pub struct DeskSession<'a, S: Session + Drop, T, G> {
    rt: &'a T,
    desk: &'a Desk<Shared<S>>,
    supervisor: &'a G,
    caller: u32,
    calls: u64,
    /// Where room for the answers to a list of calls comes from, which is made by one request; none where each call is.
    lists: Option<Global>,
    /// Whether nothing has come of a request that it made.
    unanswered: bool,
    /// Whether nothing has come of its last request, though later ones may have answers.
    may_recover: bool,
    pass: Pass<Shared<S>>,
}

impl<'a, S: Session + Drop, T, G> Model for DeskSession<'a, S, T, G> {
    ghost use Rattle.std.specs.Prelude.{◌≡◌, true, is_some};
    ghost use Rattle.pana_daemon.specs.Session.{MayRecover, SessionView, at_rest, lacks_answer};

    ghost Value = { SessionView S };

    ghost view = { λ session. at_rest session.pass };

    ghost invariant = { λ session. (session.pass.desk ≡ session.desk.now.id) × (session.unanswered ≡ lacks_answer session.pass) × (session.may_recover ≡ true → MayRecover (at_rest session.pass))
        × (is_some session.lists ≡ true → S.keeps_together ≡ true) };
}

impl<'a, S: Session + Drop, T, G> DeskSession<'a, S, T, G> {
    ghost use Rattle.std.specs.Prelude.{◌≡◌, false, true, is_some};
    ghost use Rattle.pana_daemon.specs.Session.{at_rest, lacks_answer};

    /// A session of this caller by a pass of the desk, of whose requests so far something has come. Where the session that all share
    /// keeps together what several calls make, a list of them may be made by one request, with room for their answers from `lists`.
    /// Takes no memory.
    pub fn new(
        rt: &'a T,
        desk: &'a Desk<Shared<S>>,
        supervisor: &'a G,
        caller: u32,
        pass: Pass<Shared<S>>,
        lists: Option<Global>,
    ) -> DeskSession<'a, S, T, G>
        requires desk { pass.desk ≡ desk.now.id }
        requires answered { lacks_answer pass ≡ false }
        requires together { is_some lists ≡ true → S.keeps_together ≡ true }
        ensures { result ≡ at_rest pass }
    {
        DeskSession {
            rt,
            desk,
            supervisor,
            caller,
            calls: 0,
            lists,
            unanswered: false,
            may_recover: false,
            pass,
        }
    }

    /// Whether nothing has come of a request that it made.
    pub(crate) fn lacks_answer(&self) -> bool
        ensures { result ≡ lacks_answer self.now.pass }
    {
        self.unanswered
    }

    /// The pass. Takes no memory.
    pub fn into_pass(self) -> Pass<Shared<S>>
        ensures { self.entry ≡ at_rest result }
    {
        let DeskSession {
            rt: _,
            desk: _,
            supervisor: _,
            caller: _,
            calls: _,
            lists: _,
            unanswered: _,
            may_recover: _,
            pass,
        } = self;
        pass
    }
}

/// Waits for the entry that the call waits for, and returns whether it waits for one.
fn wait_for<T: Wait, G: Supervisor>(rt: &T, supervisor: &G, caller: u32, call: &Call) -> bool {
    match awaited_by(call) {
        Some((entry, seconds)) => {
            supervisor.wait(rt, caller, entry, seconds);
            true
        }
        None => false,
    }
}

/// Whether a call of these waits for an entry.
fn any_waits(calls: &[Message]) -> bool {
    calls
        .iter()
        .any(|message| awaited_by(&message.call).is_some())
}

/// Has the supervisor note the entry that a call has made, if it has.
fn note<G: Supervisor>(supervisor: &G, answer: &Answer) {
    if let Some(entry) = made_by(answer) {
        supervisor.note(entry);
    }
}

/// Adds answers to others, and has the supervisor note the entries that their calls have made.
fn add_all<G: Supervisor>(supervisor: &G, given: Vec<Answer>, answers: &mut Vec<Answer>)
    requires room { vec_len answers.old + length given.items ≤ vec_capacity answers.old }
    ensures { answers.new.items ≡ answers.old.items ++ given.items }
{
    for answer in given {
        note(supervisor, &answer);
        answers.push_reserved(answer);
    }
}

impl<S: Session + Drop, T: Wait, G: Supervisor> DeskSession<'_, S, T, G> {
    ghost use Rattle.std.specs.Prelude.{◌≡◌, IfOk, OnErr, OnOk, true};
    ghost use Rattle.pana_calls.specs.Session.{AddsAll, AddsSome};
    ghost use Rattle.pana_daemon.specs.Desk.{RequestSteps, is_nothing};
    ghost use Rattle.pana_daemon.specs.Session.{AsksNone, AsksOne, GetNone, MakesCall};

    /// Makes one request at the desk, and returns what has come of it. The supervisor is asked where that is nothing.
    fn request(&mut self, request: Request) -> Result<Response, NoAnswer>
        ensures response { IfOk result (λ response. AsksOne (RequestSteps S.step S.fails S.settles S.breaks_off) self.old request response self.new) }
        ensures none { OnErr result (AsksNone (RequestSteps S.step S.fails S.settles S.breaks_off) self.old self.new) }
    {
        let Ok(response) = self.desk.call(self.rt, &mut self.pass, request) else {
            self.may_recover = false;
            return Err(NoAnswer);
        };
        self.may_recover = response.is_passing();
        if response.is_nothing() {
            self.unanswered = true;
            self.supervisor
                .unanswered(self.caller, self.calls, self.may_recover);
        }
        Ok(response)
    }

    /// Makes calls one after another, each by a request of its own, and adds their answers.
    fn call_each(&mut self, calls: Vec<Message>, answers: &mut Vec<Answer>) -> Result<(), NoAnswer>
        requires room { vec_len answers.old + length calls.items ≤ vec_capacity answers.old }
        ensures step { OnOk result (AddsAll (MakesCall (RequestSteps S.step S.fails S.settles S.breaks_off) S.keeps_together) self.old calls.items answers.old.items answers.new.items self.new) }
        ensures fails { OnErr result (AddsSome (MakesCall (RequestSteps S.step S.fails S.settles S.breaks_off) S.keeps_together) (GetNone (RequestSteps S.step S.fails S.settles S.breaks_off) S.keeps_together) self.old calls.items answers.old.items answers.new.items self.new) }
    {
        for Message { by, call } in calls {
            let answer = self.call(&by, call)?;
            answers.push_reserved(answer);
        }
        Ok(())
    }

    /// Makes the calls of a list by one request, and adds their answers.
    fn call_list(&mut self, list: CallList, answers: &mut Vec<Answer>) -> Result<(), NoAnswer>
        requires together { S.keeps_together ≡ true }
        requires some { 0 < length list }
        requires room { vec_len answers.old + length list ≤ vec_capacity answers.old }
        ensures step { OnOk result (AddsAll (MakesCall (RequestSteps S.step S.fails S.settles S.breaks_off) S.keeps_together) self.old list answers.old.items answers.new.items self.new) }
        ensures fails { OnErr result (AddsSome (MakesCall (RequestSteps S.step S.fails S.settles S.breaks_off) S.keeps_together) (GetNone (RequestSteps S.step S.fails S.settles S.breaks_off) S.keeps_together) self.old list answers.old.items answers.new.items self.new) }
    {
        self.calls = self.calls.saturating_add(1);
        self.supervisor.before(self.caller, self.calls);
        match self.request(Request::MakeAll(list))? {
            Response::Answers {
                answers: given,
                stopped,
            } => {
                add_all(self.supervisor, given, answers);
                if stopped.is_some() {
                    return Err(NoAnswer);
                }
                self.supervisor.after(self.caller, self.calls);
                Ok(())
            }
            Response::Answer(_) => unreachable!(),
            Response::Settled => unreachable!(),
            Response::Nothing { .. } => unreachable!(),
        }
    }
}

impl<S: Session + Drop, T: Wait, G: Supervisor> Session for DeskSession<'_, S, T, G> {
    ghost use Rattle.std.specs.Prelude.{◌≡◌, true, IfOk, OnOk, OnErr};
    ghost use Rattle.pana_daemon.specs.Desk.{RequestSteps};
    ghost use Rattle.pana_daemon.specs.Session.{BreaksOff, GetNone, GetsNone, MakesCall, MayRecover, Settles, requests_seen};

    ghost step = { MakesCall (RequestSteps S.step S.fails S.settles S.breaks_off) S.keeps_together };

    ghost moment = { requests_seen };

    ghost fails = { GetNone (RequestSteps S.step S.fails S.settles S.breaks_off) S.keeps_together };

    ghost keeps_together = { S.keeps_together };

    ghost settles = { Settles (RequestSteps S.step S.fails S.settles S.breaks_off) };

    ghost breaks_off = { BreaksOff (RequestSteps S.step S.fails S.settles S.breaks_off) };

    /// Makes the call at the desk, between the supervisor's questions. One that waits for an entry waits before it comes to the
    /// desk, so that it takes no turn meanwhile.
    fn call(&mut self, by: &DeviceName, call: Call) -> Result<Answer, NoAnswer>
        ensures step { IfOk result (λ answer. MakesCall (RequestSteps S.step S.fails S.settles S.breaks_off) S.keeps_together self.old by.now call answer self.new) }
        ensures fails { OnErr result (GetsNone (RequestSteps S.step S.fails S.settles S.breaks_off) S.keeps_together self.old by.now call self.new) }
    {
        self.calls = self.calls.saturating_add(1);
        self.supervisor.before(self.caller, self.calls);
        let waits = wait_for(self.rt, self.supervisor, self.caller, &call);
        let message = Message {
            by: by.copy_of(),
            call,
        };
        match self.request(Request::Make(message))? {
            Response::Answer(answer) => {
                self.supervisor.after(self.caller, self.calls);
                note(self.supervisor, &answer);
                if waits && has_entries(&answer) {
                    self.supervisor.stay(self.caller);
                }
                Ok(answer)
            }
            Response::Nothing { .. } => Err(NoAnswer),
            Response::Answers { .. } => unreachable!(),
            Response::Settled => unreachable!(),
        }
    }

    /// Makes the calls by one request, so that other callers' come before them or behind them, where the session that all share keeps
    /// together what they make. Where there is a single one, where one waits for an entry, or where there is no room for their answers,
    /// each is made by a request of its own.
    fn call_all(&mut self, calls: Vec<Message>, answers: &mut Vec<Answer>) -> Result<(), NoAnswer> {
        let Some(alloc) = self.lists else {
            return self.call_each(calls, answers);
        };
        if calls.len() < 2 || any_waits(calls.as_slice()) {
            return self.call_each(calls, answers);
        }
        let Ok(room) = room_for(alloc, calls.as_slice()) else {
            return self.call_each(calls, answers);
        };
        let list = CallList {
            calls,
            answers: room,
        };
        self.call_list(list, answers)
    }

    /// Has the session that all share settle, at the desk.
    fn settle(&mut self) -> Result<(), NoAnswer>
        ensures settles { OnOk result (Settles (RequestSteps S.step S.fails S.settles S.breaks_off) self.old self.new) }
        ensures breaks_off { OnErr result (BreaksOff (RequestSteps S.step S.fails S.settles S.breaks_off) self.old self.new) }
    {
        match self.request(Request::Settle)? {
            Response::Settled => Ok(()),
            Response::Nothing { .. } => Err(NoAnswer),
            Response::Answer(_) => unreachable!(),
            Response::Answers { .. } => unreachable!(),
        }
    }

    /// Whether a list of calls is made by one request.
    fn keeps_together(&self) -> bool
        ensures { result ≡ true → S.keeps_together ≡ true }
    {
        self.lists.is_some()
    }

    /// Whether calls may have answers again, where nothing has come of the last request; not where no further one may be made.
    fn may_recover(&self) -> bool
        ensures { result ≡ true → MayRecover self.now }
    {
        self.may_recover
    }
}
