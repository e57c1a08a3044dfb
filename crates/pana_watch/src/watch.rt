//! A watch of a session's journal.
ghost use Rattle.std.specs.Prelude.{◌≡◌, IfErr, IfOk, OnErr};
ghost use Rattle.pana_calls.specs.Session.{one};
ghost use Rattle.pana_watch.specs.Watch.{Looks, LooksInVain, Takes, TakesNone};

use crate::family_change::FamilyChange;
use crate::pages::are_numbered;
use crate::watch_fault::WatchFault;
use indexmap::IndexMap;
use pana_calls::{Call, Query, Session};
use pana_copies::DeviceName;
use pana_journal::EntryList;

/// For how many seconds an answer may wait for an entry.
const SECONDS: u64 = 30;

/// Which entry is shown next, and which families are known as split.
#[derive(Drop)]
pub struct Watch {
    pub(crate) next: u64,
    /// Whether each family that was looked at is split.
    pub(crate) known: IndexMap<u64, bool>,
}

impl Watch {
    /// The next entries, as soon as there is one; none where none has come for 30 seconds, or others wait for the daemon.
    ///
    /// # Errors
    ///
    /// `NoAnswer` where the question has no answer, or what comes aren't the next entries. The watch is as it was.
    pub fn take<S: Session>(
        &mut self,
        session: &mut S,
        by: &DeviceName,
    ) -> Result<EntryList, WatchFault>
        ensures ok { IfOk result (λ entries. Takes S.step by.now self.old session.old entries self.new session.new) }
        ensures same { OnErr result (self.new ≡ self.old) }
        ensures fails { OnErr result (TakesNone S.step by.now (one S.fails) self.old.next session.old session.new) }
    {
        let query = Query::JournalAwaited {
            entry: self.next,
            seconds: SECONDS,
        };
        let answer = session.call(by, Call::Query(query))?;
        let Some(entries) = answer.into_journal() else {
            return Err(WatchFault::NoAnswer);
        };
        let Some(next) = self.next.checked_add(entries.as_slice().len() as u64) else {
            return Err(WatchFault::NoAnswer);
        };
        if !are_numbered(self.next, entries.as_slice()) {
            return Err(WatchFault::NoAnswer);
        }
        self.next = next;
        Ok(entries)
    }

    /// What has become of a family since the watch last knew of it, by its board.
    ///
    /// # Errors
    ///
    /// `NoAnswer` where the question has no answer, or none that has a board; `OutOfMemory`. The watch is as it was.
    pub fn look<S: Session>(
        &mut self,
        session: &mut S,
        by: &DeviceName,
        family: u64,
    ) -> Result<Option<FamilyChange>, WatchFault>
        ensures ok { IfOk result (λ change. Looks S.step by.now self.old session.old family change self.new session.new) }
        ensures fails { IfErr result (λ fault. (fault ≡ WatchFault.NoAnswer) → LooksInVain S.step by.now (one S.fails) family session.old session.new) }
    {
        let answer = session.call(by, Call::Query(Query::Board { family }))?;
        let Some(board) = answer.into_board() else {
            return Err(WatchFault::NoAnswer);
        };
        let is = board.split;
        drop(board);
        let was = self.known.get(&family).copied().unwrap_or(false);
        let Ok(_) = self.known.insert(family, is) else {
            return Err(WatchFault::OutOfMemory);
        };
        Ok(FamilyChange::of(family, was, is))
    }
}
