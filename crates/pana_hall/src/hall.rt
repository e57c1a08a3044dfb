ghost use Rattle.std.specs.Prelude.{◌≡◌, ◌≤◌, [], length, IfOk, OnErr};
ghost use Rattle.pana_journal.specs.Entries.{entry_at};
ghost use Rattle.pana_hall.specs.{Accepted.IsAccepted, Permit.Permits, Permit.journal_after, Refusal.refusal, Run.RunsTo};

use crate::state::State;
use pana_calls::{Call, Cause, Reply};
use pana_copies::DeviceName;
use pana_journal::{KeptEntry, Report};
use std::alloc::{AllocError, Global};
use std::collections::VecDeque;
use std::marker::Model;

/// All the copies of all the files, and the journal that they come from. To contracts it is its journal.
///
/// It keeps a family of stamps for each file and the place of each living copy, and no set of updates.
#[derive(Drop)]
pub struct Hall {
    pub(crate) alloc: Global,
    pub(crate) state: State,
}

impl Model for Hall {
    ghost use Rattle.std.specs.Prelude.{List};
    ghost use Rattle.pana_journal.specs.declared.entry.Entry.{Entry};
    ghost use Rattle.pana_hall.specs.inner.State.{IsHeld};

    ghost Value = { List Entry };

    ghost view = { λ hall. hall.state.journal.entries };

    ghost invariant = { λ hall. IsHeld hall.state };
}

impl Hall {
    ghost use Rattle.pana_calls.specs.declared.call.Call.TheVariants as calls;

    /// A hall with no copy and the empty journal. Fails only where memory runs out.
    pub fn new(alloc: Global) -> Result<Hall, AllocError>
        ensures { IfOk result (λ hall. hall ≡ []) }
    {
        Ok(Hall {
            alloc,
            state: State::new(alloc),
        })
    }

    /// Takes one call of a device and returns its reply: a report is refused, or is the next entry of the journal; of a sighting
    /// is done what it comes to, by reports, or it is known, or refused; a query is refused or answered, and changes nothing. A
    /// refused call changes nothing.
    pub fn apply(&mut self, by: &DeviceName, call: Call) -> Reply
        ensures permitted { Permits self.old by.now call result }
        ensures journal { self.new ≡ journal_after self.old by.now call result }
    {
        match call {
            Call::Report(report) => self.state.report(self.alloc, by, report),
            call => self.state.plan_and_commit(self.alloc, by, call),
        }
    }

    /// Why a device's report is refused whatever memory there is: `apply` refuses it for this cause. Where there is none,
    /// `apply` takes the report, unless memory runs out. Changes nothing, and takes no memory.
    #[tactic(auto, unfolding(crate::specs::Refusal::refusal))]
    pub fn refusal(&self, by: &DeviceName, report: &Report) -> Option<Cause>
        ensures { result ≡ refusal self.now by.now (calls.Report report.now) }
    {
        self.state.report_refusal(by, report)
    }

    /// The journal's entry with this number, if there is one. Takes no memory.
    pub fn entry(&self, number: u64) -> Option<KeptEntry<'_>>
        ensures { result ≡ entry_at self.now number }
    {
        self.state.journal.entry(number)
    }

    /// How many entries the journal has, at most 1,000,000. Takes no memory.
    pub fn length(&self) -> u64
        ensures length { result ≡ length self.now }
        ensures within { length self.now ≤ 1000000 }
        ensures accepted { IsAccepted 8 self.now }
    {
        self.state.journal.length()
    }

    /// Takes calls of devices in order, and returns their replies: a run, where the hall was new. Fails only where
    /// memory runs out for the list of replies, before the first call, and then changes nothing.
    pub fn apply_all(
        &mut self,
        mut calls: VecDeque<(DeviceName, Call)>,
    ) -> Result<Vec<Reply>, AllocError>
        ensures ok { IfOk result (λ replies. RunsTo self.old calls.items replies.items self.new) }
        ensures err { OnErr result (self.new ≡ self.old) }
    {
        let mut replies = Vec::with_capacity(self.alloc, calls.len())?;
        while let Some((by, call)) = calls.pop_front() {
            replies.push_reserved(self.apply(&by, call));
        }
        Ok(replies)
    }
}
