//! How the copies of a family relate to one of them, and what that makes of it.
ghost use Rattle.std.specs.Prelude.{◌≡◌, count_by, find, map};
ghost use Rattle.pana_event.specs.declared.rel.Rel.TheVariants as rels;
ghost use Rattle.pana_family.specs.{Rows.copy_rows, Updates.has};
ghost use Rattle.pana_rel.specs.Board.{is_rel};
ghost use Rattle.pana_hall.specs.{Status.state_of, inner.Listed.listed};
ghost use Rattle.pana_hall.specs.inner.Relatives.{counts_in, first_number, relates_so, replaces};

use crate::listed_family::ListedFamily;
use pana_calls::CopyState;
use pana_event::Rel;
use pana_rel::Counts;
use smallvec::SmallVec;
use std::slice;

/// A copy, and how it relates to another of its family.
#[derive(Clone, Copy)]
pub struct Relative {
    pub copy: u64,
    pub rel: Rel,
}

impl Default for Relative {
    fn default() -> Relative {
        Relative {
            copy: 0,
            rel: Rel::Equal,
        }
    }
}

/// The relatives of a copy. Those of most copies have room in the list itself.
pub type Relatives = SmallVec<Relative, 8>;

impl ListedFamily {
    /// The numbers of the living copies, by rising number. Takes no memory; O(1).
    pub fn living(&self) -> &[u64]
        ensures { result.now ≡ map (λ row. row.copy) (copy_rows (listed self.now).rows) }
    {
        match self {
            ListedFamily::New(entry) => slice::from_ref(entry),
            ListedFamily::Changed(it) => it.family().living(),
        }
    }
}

/// Whether the relation is the one that is wanted.
pub fn is_rel(rel: Rel, wanted: Rel) -> bool
    ensures { result ≡ is_rel rel wanted }
{
    rel == wanted
}

/// Whether it is another copy than the one with the number, and relates so to that.
pub fn relates(it: &Relative, wanted: Rel, copy: u64) -> bool
    ensures { result ≡ relates_so wanted copy it.now }
{
    it.copy != copy && is_rel(it.rel, wanted)
}

fn count(relatives: &[Relative], wanted: Rel, copy: u64) -> u64
    ensures { result ≡ count_by (relates_so wanted copy) relatives.now }
{
    relatives
        .iter()
        .filter(|it| relates(it, wanted, copy))
        .count() as u64
}

/// How many of them are newer than the copy, older, equal to it and in conflict with it.
pub fn counts_of(relatives: &[Relative], copy: u64) -> Counts
    ensures { result ≡ counts_in relatives.now copy }
{
    Counts {
        above: count(relatives, Rel::Newer, copy),
        below: count(relatives, Rel::Older, copy),
        equal: count(relatives, Rel::Equal, copy),
        conflict: count(relatives, Rel::Conflict, copy),
    }
}

/// The state of a copy with these counts.
pub fn state_of(counts: Counts) -> CopyState
    ensures { result ≡ state_of counts }
{
    if counts.above > 0 {
        CopyState::Obsolete
    } else if counts.conflict > 0 {
        CopyState::Conflict
    } else {
        CopyState::Newest
    }
}

fn has(numbers: &[u64], number: u64) -> bool
    ensures { result ≡ has numbers.now number }
{
    numbers.contains(&number)
}

fn replaces(it: &Relative, copy: u64, newest: &[u64]) -> bool
    ensures { result ≡ replaces newest.now copy it.now }
{
    relates(it, Rel::Newer, copy) && has(newest, it.copy)
}

/// The first of these newest copies that is newer than the copy.
pub fn first_newest(relatives: &[Relative], copy: u64, newest: &[u64]) -> Option<u64>
    ensures { result ≡ first_number (replaces newest.now copy) relatives.now }
{
    for it in relatives {
        if replaces(it, copy, newest) {
            return Some(it.copy);
        }
    }
    None
}

/// The first that is in conflict with the copy.
pub fn first_in_conflict(relatives: &[Relative], copy: u64) -> Option<u64>
    ensures { result ≡ first_number (relates_so rels.Conflict copy) relatives.now }
{
    for it in relatives {
        if relates(it, Rel::Conflict, copy) {
            return Some(it.copy);
        }
    }
    None
}
