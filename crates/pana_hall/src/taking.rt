//! A journal's entries, taken one after another into a new hall.
ghost use Rattle.std.specs.Prelude.{◌≡◌, ◌+◌, ◌-◌, [], ◌∷◌, ◌++◌, length, take, IfOk, IfErr, OnOk, OnErr};

use crate::hall::Hall;
use crate::load_fault::{LoadCause, LoadFault};
use crate::state::State;
use pana_calls::Cause;
use pana_journal::{Entry, EntryList};
use std::alloc::Global;

impl Hall {
    ghost use Rattle.pana_hall.specs.Accepted.{IsAccepted};
    ghost use Rattle.pana_hall.specs.Load.{IsLoadFault, Stops, StopsAt};

    /// A new hall that has taken these entries in order, each by the device that reported it.
    ///
    /// # Errors
    ///
    /// The first entry that isn't the next one: `OutOfOrder` where its number isn't its position, or else the cause
    /// with which its report is refused. The entries of a hall's own journal have none but `OutOfMemory`.
    pub fn load(alloc: Global, entries: EntryList) -> Result<Hall, LoadFault>
        ensures ok { IfOk result (λ hall. hall ≡ entries) }
        ensures fault { IfErr result (IsLoadFault entries) }
    {
        let mut hall = Hall {
            alloc,
            state: State::new(alloc),
        };
        hall.take_entries(entries)?;
        Ok(hall)
    }

    /// Takes the next entries of a journal in order, each by the device that reported it.
    ///
    /// # Errors
    ///
    /// The first entry that isn't the next one, as `load` returns it, with its position in the whole journal. The hall
    /// then has the entries before it.
    pub fn take_entries(&mut self, entries: EntryList) -> Result<(), LoadFault>
        ensures ok { OnOk result (self.new ≡ self.old ++ entries) }
        ensures fault { IfErr result (StopsAt (self.old ++ entries)) }
        ensures before { IfErr result (λ fault. self.new ≡ take (fault.at - 1) (self.old ++ entries)) }
    {
        let mut rest = entries.into_vec().into_iter();
        while let Some(entry) = rest.next() {
            self.take(entry)?;
        }
        Ok(())
    }

    /// Takes the next entry of a journal. An entry that isn't the next one changes nothing.
    #[tactic(auto, unfolding(crate::specs::Permit::Permits, crate::specs::Refusal::refusal))]
    fn take(&mut self, entry: Entry) -> Result<(), LoadFault>
        ensures ok { OnOk result (self.new ≡ self.old ++ entry ∷ []) }
        ensures accepted { IsAccepted 8 self.old }
        ensures same { OnErr result (self.new ≡ self.old) }
        ensures fault { IfErr result (λ fault. (fault.at ≡ length self.old + 1) × Stops self.old entry fault.cause) }
    {
        let at = self.length() + 1;
        if entry.number != at {
            drop(entry);
            return Err(LoadFault {
                at,
                cause: LoadCause::OutOfOrder,
            });
        }
        let Entry { by, report, .. } = entry;
        match self.state.record(self.alloc, &by, report) {
            Ok(_) => Ok(()),
            Err(cause) => Err(LoadFault {
                at,
                cause: LoadCause::Refused(cause),
            }),
        }
    }
}
