//! A hall whose next entries are prepared.
ghost use Rattle.std.specs.Prelude.{◌≡◌, [], ◌++◌, IfErr, IfOk, option_copied};

use crate::hall::Hall;
use crate::planning::Plan;
use crate::state::State;
use pana_calls::{Call, Reply};
use pana_copies::DeviceName;
use pana_journal::Entry;
use std::alloc::Global;
use std::marker::Model;
use std::mem;

/// A hall, and a call whose entries are to be its next: nothing stands against it, and it has all memory that it takes. So
/// whoever keeps the hall's journal elsewhere can write the entries there first, and then `commit`, which can't fail. To
/// contracts it is the journal, the entries, and the reply to the call.
#[derive(Drop)]
pub struct Prepared {
    alloc: Global,
    state: State,
    plan: Plan,
}

impl Model for Prepared {
    ghost use Rattle.pana_hall.specs.Prepared.{PreparedView};
    ghost use Rattle.pana_hall.specs.inner.Plan.{IsPlanned, plan_view};
    ghost use Rattle.pana_hall.specs.inner.State.{IsHeld};

    ghost Value = { PreparedView };

    ghost view = { λ it. plan_view it.state.journal.entries it.plan };

    ghost invariant = { λ it. IsHeld it.state × IsPlanned it.state it.plan };
}

/// A hall, and the reply that a call gets without an entry: it is refused, or known, or a query that is answered.
#[derive(Drop)]
pub struct Unprepared {
    pub hall: Hall,
    pub reply: Reply,
}

impl Hall {
    ghost use Rattle.pana_hall.specs.Prepared.{AnswersAt, Prepares};

    /// Takes the hall, and leaves a new one with the empty journal. Takes no memory.
    pub fn take_all(&mut self) -> Hall
        ensures taken { result ≡ self.old }
        ensures left { self.new ≡ [] }
    {
        let left = Hall {
            alloc: self.alloc,
            state: State::new(self.alloc),
        };
        mem::replace(self, left)
    }

    /// Checks a device's call, and takes the memory for its entries. The journal stays as it is until `commit`.
    ///
    /// # Errors
    ///
    /// The hall as it was, and the reply, where the call makes no entry: `apply` may reply so, and changes nothing.
    pub fn prepare(mut self, by: &DeviceName, call: Call) -> Result<Prepared, Unprepared>
        ensures ok { IfOk result (Prepares self by.now call) }
        ensures hall { IfErr result (λ it. it.hall ≡ self) }
        ensures reply { IfErr result (λ it. AnswersAt self by.now call it.reply) }
    {
        match self.state.plan(self.alloc, by, call) {
            Ok(plan) => Ok(Prepared {
                alloc: self.alloc,
                state: self.state,
                plan,
            }),
            Err(reply) => Err(Unprepared { hall: self, reply }),
        }
    }
}

impl Prepared {
    ghost use Rattle.pana_hall.specs.Prepared.{entries_of};

    /// The entry that is to be the next. Takes no memory.
    pub fn entry(&self) -> &Entry
        ensures { result.now ≡ self.now.entry }
    {
        &self.plan.next.entry
    }

    /// The entry behind it, if there are two. Takes no memory.
    pub fn second(&self) -> Option<&Entry>
        ensures { option_copied result ≡ self.now.second }
    {
        match &self.plan.second {
            Some(next) => Some(&next.entry),
            None => None,
        }
    }

    /// Makes the entries the next ones of the hall's journal, and returns it with the reply. Takes no memory.
    pub fn commit(self) -> (Hall, Reply)
        ensures hall { result.0 ≡ self.journal ++ entries_of self }
        ensures reply { result.1 ≡ self.reply }
    {
        let Prepared {
            alloc,
            mut state,
            plan,
        } = self;
        let reply = state.commit_all(plan);
        (Hall { alloc, state }, reply)
    }

    /// The hall without the entries. Takes no memory.
    pub fn cancel(self) -> Hall
        ensures { result ≡ self.journal }
    {
        let Prepared { alloc, state, plan } = self;
        drop(plan);
        Hall { alloc, state }
    }
}
