//! What a hall keeps.
ghost use Rattle.pana_hall.specs.{Family.families, Living.copy_in, Living.living, inner.Kept.IsWithin, inner.Kept.family_of, inner.Listed.listed, inner.State.IsHeld};
ghost use Rattle.std.specs.Prelude.{◌≡◌, [], is_some};

use crate::contents::Contents;
use crate::families::Families;
use crate::listed_family::ListedFamily;
use pana_copies::CopyTable;
use pana_journal::Journal;
use std::alloc::Global;

/// A journal, the families that it has begun, where the living copies are kept, and what they hold.
pub struct State {
    pub journal: Journal,
    pub families: Families,
    pub copies: CopyTable,
    pub contents: Contents,
}

impl Drop for State {
    fn drop(self) {
        let State {
            journal: _,
            families: _,
            copies: _,
            contents: _,
        } = self;
    }
}

impl State {
    /// No copy, and the empty journal. Takes no memory.
    #[tactic(auto, unfolding(crate::specs::Living::copies_of))]
    pub fn new(alloc: Global) -> State
        ensures journal { result.journal.entries ≡ [] }
        ensures kept { IsHeld result }
    {
        State {
            journal: Journal::new(alloc),
            families: Families::new(alloc),
            copies: CopyTable::new(alloc),
            contents: Contents::new(alloc),
        }
    }

    /// The family of an entry that the journal has. Takes no memory.
    pub fn family(&self, entry: u64) -> &ListedFamily
        requires kept { IsHeld self.now }
        requires has { IsWithin self.now.journal.entries entry }
        ensures { listed result.now ≡ family_of self.now.journal.entries (families self.now.journal.entries entry) }
    {
        self.families.of_entry(entry).unwrap()
    }

    /// Whether the copy lives. Its family says so, which a report of the copy reads too. Takes no memory.
    #[tactic(auto, using(crate::proofs::Answered::has_living, crate::proofs::Answered::none_living))]
    pub fn lives(&self, copy: u64) -> bool
        requires { IsHeld self.now }
        ensures { result ≡ is_some (copy_in (living self.now.journal.entries) copy) }
    {
        match self.families.of_entry(copy) {
            Some(it) => it.has(copy),
            None => false,
        }
    }
}
