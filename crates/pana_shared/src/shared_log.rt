ghost use Rattle.std.specs.Prelude.{◌≡◌, ◌≢◌, ◌≤◌, ℕ, Bool, IsTrue, [], length, IfOk, IfErr};
ghost use Rattle.pana_shared.specs.Log.{LogView, HasSome, IsAt, IsHeard, IsUnread, MayAppend, Appends, Reads};

use crate::read_fault::ReadFault;
use crate::record::Record;

/// What has come of an append.
#[derive(Drop)]
pub enum Appended {
    /// The records were put.
    Put,
    /// These stand there, or these and more behind them. They may be the group's own, where an answer was lost on the way.
    Taken(Vec<Record>),
    /// What keeps the log takes no more, and the records won't be put.
    Full,
    /// Nothing is known of it: they may have been put, or be put later.
    Unknown,
}

/// A log of records, which others append to as well. Records stay as they were put.
///
/// Each clause speaks of logs that are known. Of one that a system keeps nothing is known.
pub trait SharedLog {
    ghost is_known: { Bool };

    /// The log's records, who writes by this handle, and what may still come of its appends.
    ghost seen: { Self → LogView };

    /// How many more times it may give no answer: for a log that is known there is an end.
    ghost silences: { Self → ℕ } = { λ s. 0 };

    /// The writer's number. Takes no memory.
    fn writer(&self) -> u64
        ensures { IsTrue is_known → result ≡ (seen self.now).writer };

    /// Appends records, all or none, where the log has just so many.
    fn append(&mut self, at: u64, group: &[Record]) -> Appended
        requires { IsTrue is_known → MayAppend (seen self.old) at group.now }
        ensures came { IsTrue is_known → Appends (seen self.old) at group.now result (seen self.new) }
        ensures some { HasSome result }
        ensures heard { IsTrue is_known → IsHeard result (silences self.old) (silences self.new) };

    /// The records behind the first so many, or some of the next of them; none where there is none.
    fn read(&mut self, from: u64) -> Result<Vec<Record>, ReadFault>
        ensures grows { IsTrue is_known → Reads (seen self.old) (seen self.new) }
        ensures part { IfOk result (λ page. IsTrue is_known → page.items ≢ [] → IsAt from page.items (seen self.new).records) }
        ensures all { IfOk result (λ page. IsTrue is_known → page.items ≡ [] → length (seen self.old).records ≤ from) }
        ensures heard { IfOk result (λ page. IsTrue is_known → silences self.new ≤ silences self.old) }
        // What a log has that is known are records, so nothing in it is foreign.
        ensures unread { IfErr result (λ fault. IsTrue is_known → IsUnread fault (silences self.old) (silences self.new)) };

    /// Whether it is time to read on, for who does so only now and then. Takes no memory, and asks nobody.
    fn is_due(&self) -> bool {
        true
    }
}
