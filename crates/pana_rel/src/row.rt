//! The relations of one copy to all.
ghost use Rattle.std.specs.Prelude.{◌≡◌, ◌+◌, ◌<◌, ◌≤◌, ◌++◌, [], ◌∷◌, OnOk, IfOk, count_by, length, slice_index_or, slice_set};
ghost use Rattle.std.specs.List.{insert, remove};
ghost use Rattle.pana_event.specs.declared.rel.Rel.TheVariants.{Equal, Older, Newer};
ghost use Rattle.pana_rel.specs.Board.{is_rel};
ghost use Rattle.pana_rel.specs.inner.Square.{AreCounted};

use crate::counts::Counts;
use pana_event::Rel;
use smallvec::SmallVec;
use std::alloc::{AllocError, Global};
use std::marker::Model;

/// How many relations are counted at once: no more than a byte counts, so that the processor counts many at a time, and so many
/// that none is left over there.
const MOST_AT_ONCE: usize = 192;

/// How many of a few relations are of each kind, but of Conflict.
#[derive(Clone, Copy)]
struct FewKinds {
    older: u8,
    newer: u8,
    equal: u8,
}

/// Counts them, each kind by itself, so that the processor does it for many at a time.
fn kinds_of_few(rels: &[Rel]) -> FewKinds
    requires { length rels.now ≤ 255 }
    ensures older { result.older ≡ count_by (λ rel. is_rel rel Older) rels.now }
    ensures newer { result.newer ≡ count_by (λ rel. is_rel rel Newer) rels.now }
    ensures equal { result.equal ≡ count_by (λ rel. is_rel rel Equal) rels.now }
{
    let mut older: u8 = 0;
    let mut newer: u8 = 0;
    let mut equal: u8 = 0;
    for rel in rels {
        older += u8::from(*rel == Rel::Older);
        newer += u8::from(*rel == Rel::Newer);
        equal += u8::from(*rel == Rel::Equal);
    }
    FewKinds {
        older,
        newer,
        equal,
    }
}

/// The relations of a copy to all copies in order, itself among them, a byte each. Up to 16 stand in the row itself, and more in an
/// allocation.
#[derive(Drop)]
pub(crate) struct Row {
    rels: SmallVec<Rel, 16>,
}

impl Model for Row {
    ghost use Rattle.pana_rel.specs.inner.Square.{Relations};

    ghost Value = { Relations };

    ghost view = { λ row. record { items = row.rels.items; room = row.rels.capacity } };
}

impl Row {
    /// A row without relations, with room for so many or more. Takes no memory for up to 16.
    pub(crate) fn with_room(alloc: Global, room: usize) -> Result<Row, AllocError>
        ensures items { IfOk result (λ row. row.items ≡ []) }
        ensures room { IfOk result (λ row. room ≤ row.room) }
    {
        Ok(Row {
            rels: SmallVec::with_capacity(alloc, room)?,
        })
    }

    /// A row without relations. Takes no memory; O(1).
    pub(crate) fn empty(alloc: Global) -> Row
        ensures { result.items ≡ [] }
    {
        Row {
            rels: SmallVec::new(alloc),
        }
    }

    /// The relations. Takes no memory; O(1).
    pub(crate) fn as_slice(&self) -> &[Rel]
        ensures { result.now ≡ self.now.items }
    {
        self.rels.as_slice()
    }

    /// How many relations there are. Takes no memory; O(1).
    pub(crate) fn len(&self) -> usize
        ensures { result ≡ length self.now.items }
    {
        self.as_slice().len()
    }

    /// The relation to the copy at a place. Takes no memory; O(1).
    pub(crate) fn get(&self, at: usize) -> Rel
        requires { at < length self.now.items }
        ensures { result ≡ slice_index_or self.now.items at Equal }
    {
        self.rels[at]
    }

    /// Puts another relation to the copy at a place. Takes no memory; O(1).
    pub(crate) fn set(&mut self, at: usize, rel: Rel)
        requires { at < length self.old.items }
        ensures items { self.new.items ≡ slice_set self.old.items at rel }
        ensures room { self.new.room ≡ self.old.room }
    {
        self.rels[at] = rel;
    }

    /// Puts as many other relations in the place of these, and Equal to the copy at a place. Takes no memory.
    pub(crate) fn set_all(&mut self, rels: &[Rel], at: usize)
        requires long { length self.old.items ≡ length rels.now }
        requires within { at < length rels.now }
        ensures items { self.new.items ≡ slice_set rels.now at Equal }
        ensures room { self.new.room ≡ self.old.room }
    {
        self.rels.as_mut_slice().copy_from_slice(rels);
        self.rels[at] = Rel::Equal;
    }

    /// Makes room for one more relation. What fails changes no relation.
    pub(crate) fn reserve(&mut self) -> Result<(), AllocError>
        ensures items { self.new.items ≡ self.old.items }
        ensures room { OnOk result (length self.new.items < self.new.room) }
        ensures more { self.old.room ≤ self.new.room }
    {
        self.rels.reserve(1)
    }

    /// Puts relations at the end, in room that was made. Takes no memory.
    pub(crate) fn extend(&mut self, rels: &[Rel])
        requires { length self.old.items + length rels.now ≤ self.old.room }
        ensures items { self.new.items ≡ self.old.items ++ rels.now }
        ensures room { self.old.room ≤ self.new.room }
    {
        self.rels.extend_from_slice(rels).unwrap();
    }

    /// Puts a relation in before those from a place on, in room that was made. Takes no memory; moves those.
    pub(crate) fn insert(&mut self, at: usize, rel: Rel)
        requires room { length self.old.items < self.old.room }
        requires within { at ≤ length self.old.items }
        ensures items { self.new.items ≡ insert self.old.items at rel }
        ensures room { self.old.room ≤ self.new.room }
    {
        self.rels.insert(at, rel).unwrap();
    }

    /// Takes the relation to the copy at a place out. Takes no memory; moves those behind it.
    pub(crate) fn remove(&mut self, at: usize)
        requires { at < length self.old.items }
        ensures items { self.new.items ≡ remove self.old.items at }
        ensures room { self.old.room ≤ self.new.room }
    {
        self.rels.remove(at);
    }

    /// Takes all relations out. Takes no memory.
    pub(crate) fn clear(&mut self)
        ensures items { self.new.items ≡ [] }
        ensures room { self.old.room ≤ self.new.room }
    {
        self.rels.clear();
    }

    /// How many other copies are newer than the one whose row this is, older, equal and in conflict. Takes no memory; visits the
    /// relations once.
    pub(crate) fn counts(&self) -> Counts
        requires itself { 0 < count_by (λ rel. is_rel rel Equal) self.now.items }
        ensures { AreCounted self.now.items result }
    {
        let mut rest = self.as_slice();
        let mut older: u64 = 0;
        let mut newer: u64 = 0;
        let mut equal: u64 = 0;
        while !rest.is_empty() {
            let (few, others) = rest.split_at(rest.len().min(MOST_AT_ONCE));
            let kinds = kinds_of_few(few);
            older += u64::from(kinds.older);
            newer += u64::from(kinds.newer);
            equal += u64::from(kinds.equal);
            rest = others;
        }
        let conflict = self.len() as u64 - older - newer - equal;
        Counts {
            above: older,
            below: newer,
            equal: equal - 1,
            conflict,
        }
    }
}
