//! What each of two copies of a file knows that the other lacks.
ghost use Rattle.std.specs.Prelude.{◌≡◌, ◌++◌, [], ◌∷◌, IfOk, OnOk};
ghost use Rattle.pana_hall.specs.Accepted.{IsAccepted};
ghost use Rattle.pana_hall.specs.Family.{families};
ghost use Rattle.pana_history.specs.Lacking.{lacking};
ghost use Rattle.pana_history.specs.inner.Alone.{IsFit, alone, known_alone};
ghost use Rattle.pana_history.specs.inner.Sources.{sources_before};

use crate::families::family_entries;
use crate::sources::{reaches, sources_before};
use pana_journal::{Entry, EntryList};
use std::alloc::{AllocError, Global};

/// The updates that one copy knows and another lacks, and the other way round.
pub struct Difference {
    /// What the first knows and the second lacks, in order.
    pub first: Vec<Entry>,
    /// What the second knows and the first lacks, in order.
    pub second: Vec<Entry>,
}

impl Drop for Difference {
    fn drop(self) {
        let Difference {
            first: _,
            second: _,
        } = self;
    }
}

impl Difference {
    /// No updates. Takes no memory.
    fn none(alloc: Global) -> Difference
        ensures first { result.first.items ≡ [] }
        ensures second { result.second.items ≡ [] }
    {
        Difference {
            first: Vec::new(alloc),
            second: Vec::new(alloc),
        }
    }

    /// Puts an entry behind those of the copy that knows it alone.
    fn take(
        &mut self,
        entry: Entry,
        is_in_first: bool,
        is_in_second: bool,
    ) -> Result<(), AllocError>
        ensures first { OnOk result (self.new.first.items ≡ self.old.first.items ++ alone entry is_in_first is_in_second) }
        ensures second { OnOk result (self.new.second.items ≡ self.old.second.items ++ alone entry is_in_second is_in_first) }
    {
        if is_in_first && !is_in_second {
            self.first.push(entry)?;
        } else if is_in_second && !is_in_first {
            self.second.push(entry)?;
        } else {
            drop(entry);
        }
        Ok(())
    }
}

/// The sources of two copies, at one moment.
#[derive(Drop)]
struct TwoSources {
    first: Vec<u64>,
    second: Vec<u64>,
}

impl TwoSources {
    /// The copies themselves, which live at the end.
    fn of(alloc: Global, a: u64, b: u64) -> Result<TwoSources, AllocError>
        ensures first { IfOk result (λ sources. sources.first.items ≡ a ∷ []) }
        ensures second { IfOk result (λ sources. sources.second.items ≡ b ∷ []) }
    {
        let first = vec![in alloc; a]?;
        let second = vec![in alloc; b]?;
        Ok(TwoSources { first, second })
    }

    /// The sources before an entry, by these after it.
    fn before(self, alloc: Global, entry: &Entry) -> Result<TwoSources, AllocError>
        ensures first { IfOk result (λ before. before.first.items ≡ sources_before entry.now self.first.items) }
        ensures second { IfOk result (λ before. before.second.items ≡ sources_before entry.now self.second.items) }
    {
        let TwoSources { first, second } = self;
        let first = sources_before(alloc, entry, first)?;
        let second = sources_before(alloc, entry, second)?;
        Ok(TwoSources { first, second })
    }
}

/// What each of two living copies of a family knows that the other lacks, by the journal, which is one that refuses none of its
/// entries, as that of a hall.
///
/// It takes memory for the family's entries, and for a number for each entry of the journal. Fails only where memory runs out.
pub fn difference_between(
    alloc: Global,
    journal: EntryList,
    family: u64,
    a: u64,
    b: u64,
) -> Result<Difference, AllocError>
    requires accepted { IsAccepted 8 journal }
    requires a { families journal a ≡ family }
    requires b { families journal b ≡ family }
    ensures first { IfOk result (λ difference. difference.first.items ≡ lacking journal family a b) }
    ensures second { IfOk result (λ difference. difference.second.items ≡ lacking journal family b a) }
{
    let entries = family_entries(alloc, journal, family)?;
    compare(alloc, entries, a, b)
}

/// The same, by the family's entries alone: from the last one back it follows where the knowledge of each copy comes from.
fn compare(alloc: Global, mut entries: Vec<Entry>, a: u64, b: u64) -> Result<Difference, AllocError>
    requires { IsFit entries.items }
    ensures first { IfOk result (λ difference. difference.first.items ≡ known_alone entries.items a b) }
    ensures second { IfOk result (λ difference. difference.second.items ≡ known_alone entries.items b a) }
{
    let mut sources = TwoSources::of(alloc, a, b)?;
    let mut found = Difference::none(alloc);
    while let Some(entry) = entries.pop() {
        let is_in_first = reaches(&entry.report, sources.first.as_slice());
        let is_in_second = reaches(&entry.report, sources.second.as_slice());
        sources = match sources.before(alloc, &entry) {
            Ok(before) => before,
            Err(fault) => {
                drop(entry);
                return Err(fault);
            }
        };
        found.take(entry, is_in_first, is_in_second)?;
    }
    found.first.reverse();
    found.second.reverse();
    Ok(found)
}
