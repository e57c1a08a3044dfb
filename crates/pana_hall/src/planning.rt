//! What a call's entries are to be: checked, with all memory that they take, before they are made.
ghost use Rattle.std.specs.Prelude.{◌≡◌, ◌++◌, IfOk, IfErr};
ghost use Rattle.pana_calls.specs.declared.call.Call.TheVariants as calls;
ghost use Rattle.pana_hall.specs.declared.decision.Decision.TheVariants.{Both, One};
ghost use Rattle.pana_hall.specs.{Permit.Permits, Permit.journal_after, Prepared.AnswersAt, Prepared.Prepares, Prepared.entries_of, inner.State.IsHeld};
ghost use Rattle.pana_hall.specs.inner.Next.{AreTwo, IsNext, IsSecond};
ghost use Rattle.pana_hall.specs.inner.Plan.{IsPlanOf, IsPlanned, Refuses, plan_view};

use crate::decision::Decision;
use crate::next::Next;
use crate::state::State;
use pana_calls::{Call, Cause, Query, Reply, Sighting};
use pana_copies::DeviceName;
use pana_journal::Report;
use std::alloc::Global;

/// The next entry of a journal, the one behind it, if there are two, and the reply once they are made.
// The second is rare, so it takes no room where there is none.
#[derive(Drop)]
pub struct Plan {
    pub next: Next,
    pub second: Option<Box<Next>>,
    pub reply: Reply,
}

impl State {
    fn plan_one(&mut self, alloc: Global, by: &DeviceName, report: Report) -> Result<Plan, Reply>
        requires { IsHeld self.old }
        ensures journal { self.new.journal.entries ≡ self.old.journal.entries }
        ensures kept { IsHeld self.new }
        ensures planned { IfOk result (IsPlanned self.new) }
        ensures plan { IfOk result (λ plan. IsPlanOf self.old.journal.entries by.now (One report) plan) }
        ensures refused { IfErr result (Refuses self.old.journal.entries by.now (One report)) }
    {
        let kind = report.kind();
        match self.prepare(alloc, by, report) {
            Ok(next) => {
                let entry = next.entry.number;
                Ok(Plan {
                    next,
                    second: None,
                    reply: Reply::Did { kind, entry },
                })
            }
            Err(cause) => Err(Reply::Refused(cause)),
        }
    }

    fn plan_two(
        &mut self,
        alloc: Global,
        by: &DeviceName,
        first: Report,
        second: Report,
    ) -> Result<Plan, Reply>
        requires kept { IsHeld self.old }
        requires two { AreTwo self.old.journal.entries first second }
        ensures journal { self.new.journal.entries ≡ self.old.journal.entries }
        ensures kept { IsHeld self.new }
        ensures planned { IfOk result (IsPlanned self.new) }
        ensures plan { IfOk result (λ plan. IsPlanOf self.old.journal.entries by.now (Both first second) plan) }
        ensures refused { IfErr result (Refuses self.old.journal.entries by.now (Both first second)) }
    {
        let kind = second.kind();
        match self.prepare_two(alloc, by, first, second) {
            Ok((next, second)) => {
                let entry = second.entry.number;
                match Box::new(alloc, second) {
                    Ok(second) => Ok(Plan {
                        next,
                        second: Some(second),
                        reply: Reply::Did { kind, entry },
                    }),
                    Err(_) => {
                        drop(next);
                        Err(Reply::Refused(Cause::OutOfMemory))
                    }
                }
            }
            Err(cause) => Err(Reply::Refused(cause)),
        }
    }

    // So that the call of a report doesn't make room for what only sightings need.
    #[inline(never)]
    fn plan_sighting(
        &mut self,
        alloc: Global,
        by: &DeviceName,
        sighting: Sighting,
    ) -> Result<Plan, Reply>
        requires { IsHeld self.old }
        ensures journal { self.new.journal.entries ≡ self.old.journal.entries }
        ensures kept { IsHeld self.new }
        ensures planned { IfOk result (IsPlanned self.new) }
        ensures prepares { IfOk result (λ plan. Prepares self.old.journal.entries by.now (calls.Sighting sighting) (plan_view self.old.journal.entries plan)) }
        ensures reply { IfErr result (λ reply. AnswersAt self.old.journal.entries by.now (calls.Sighting sighting) reply) }
    {
        match self.decide(alloc, sighting) {
            Ok(Decision::Known(copy)) => Err(Reply::Known { copy }),
            Ok(Decision::One(report)) => self.plan_one(alloc, by, report),
            Ok(Decision::Both(first, second)) => self.plan_two(alloc, by, first, second),
            Err(_) => Err(Reply::Refused(Cause::OutOfMemory)),
        }
    }

    #[tactic(auto, unfolding(crate::specs::Permit::Permits, crate::specs::Permit::journal_after, crate::specs::Refusal::refusal))]
    fn plan_report(&mut self, alloc: Global, by: &DeviceName, report: Report) -> Result<Plan, Reply>
        requires { IsHeld self.old }
        ensures journal { self.new.journal.entries ≡ self.old.journal.entries }
        ensures kept { IsHeld self.new }
        ensures planned { IfOk result (IsPlanned self.new) }
        ensures prepares { IfOk result (λ plan. Prepares self.old.journal.entries by.now (calls.Report report) (plan_view self.old.journal.entries plan)) }
        ensures reply { IfErr result (λ reply. AnswersAt self.old.journal.entries by.now (calls.Report report) reply) }
    {
        match self.prepare(alloc, by, report) {
            Ok(next) => {
                let entry = next.entry.number;
                Ok(Plan {
                    next,
                    second: None,
                    reply: Reply::Done { entry },
                })
            }
            Err(cause) => Err(Reply::Refused(cause)),
        }
    }

    #[inline(never)]
    #[tactic(auto, unfolding(crate::specs::Permit::Permits, crate::specs::Permit::journal_after, crate::specs::Refusal::refusal))]
    fn reply_to(&self, alloc: Global, by: &DeviceName, query: &Query) -> Reply
        requires { IsHeld self.now }
        ensures { AnswersAt self.now.journal.entries by.now (calls.Query query.now) result }
    {
        if let Some(cause) = self.query_refusal(query) {
            return Reply::Refused(cause);
        }
        match self.answer(alloc, query) {
            Ok(reply) => reply,
            Err(_) => Reply::Refused(Cause::OutOfMemory),
        }
    }

    /// What is to be done of a device's call, with all memory that it takes. The journal stays as it is.
    ///
    /// # Errors
    ///
    /// The reply, where the call makes no entry: it is refused, or known, or a query that is answered.
    pub fn plan(&mut self, alloc: Global, by: &DeviceName, call: Call) -> Result<Plan, Reply>
        requires { IsHeld self.old }
        ensures journal { self.new.journal.entries ≡ self.old.journal.entries }
        ensures kept { IsHeld self.new }
        ensures planned { IfOk result (IsPlanned self.new) }
        ensures prepares { IfOk result (λ plan. Prepares self.old.journal.entries by.now call (plan_view self.old.journal.entries plan)) }
        ensures reply { IfErr result (λ reply. AnswersAt self.old.journal.entries by.now call reply) }
    {
        match call {
            Call::Report(report) => self.plan_report(alloc, by, report),
            Call::Sighting(sighting) => self.plan_sighting(alloc, by, sighting),
            Call::Query(query) => {
                let reply = self.reply_to(alloc, by, &query);
                drop(query);
                Err(reply)
            }
        }
    }

    /// Makes a device's report the next entry of the journal, unless it is refused, and returns the reply: `plan` and `commit_all`,
    /// and no plan is made.
    #[inline(never)]
    #[tactic(auto, unfolding(crate::specs::Permit::Permits, crate::specs::Permit::journal_after, crate::specs::Refusal::refusal))]
    pub fn report(&mut self, alloc: Global, by: &DeviceName, report: Report) -> Reply
        requires { IsHeld self.old }
        ensures permitted { Permits self.old.journal.entries by.now (calls.Report report) result }
        ensures journal { self.new.journal.entries ≡ journal_after self.old.journal.entries by.now (calls.Report report) result }
        ensures kept { IsHeld self.new }
    {
        match self.record(alloc, by, report) {
            Ok(entry) => Reply::Done { entry },
            Err(cause) => Reply::Refused(cause),
        }
    }

    /// Makes the entries that were planned the next ones of the journal, and returns the reply. Takes no memory.
    pub fn commit_all(&mut self, plan: Plan) -> Reply
        requires kept { IsHeld self.old }
        requires planned { IsPlanned self.old plan }
        ensures journal { self.new.journal.entries ≡ self.old.journal.entries ++ entries_of (plan_view self.old.journal.entries plan) }
        ensures kept { IsHeld self.new }
        ensures reply { result ≡ plan.reply }
    {
        let Plan {
            next,
            second,
            reply,
        } = plan;
        let _ = self.commit(next);
        if let Some(second) = second {
            let _ = self.commit(Box::into_inner(second));
        }
        reply
    }

    /// Does what a device's call says, unless it is refused, and returns the reply.
    // Apart, so that a report doesn't pay for a plan's locals.
    #[inline(never)]
    pub fn plan_and_commit(&mut self, alloc: Global, by: &DeviceName, call: Call) -> Reply
        requires { IsHeld self.old }
        ensures permitted { Permits self.old.journal.entries by.now call result }
        ensures journal { self.new.journal.entries ≡ journal_after self.old.journal.entries by.now call result }
        ensures kept { IsHeld self.new }
    {
        match self.plan(alloc, by, call) {
            Ok(plan) => self.commit_all(plan),
            Err(reply) => reply,
        }
    }
}
