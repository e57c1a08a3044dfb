//! Stamps: an id and what its owner knows.
ghost use Rattle.std.specs.Prelude.{◌≡◌, ◌+◌, ◌^◌, ◌<◌, ◌↔◌, false, max, IfOk, OnErr, IsErrOf, IsTrue};
ghost use Rattle.pana_event.specs.Event.{greatest, leaf};
ghost use Rattle.pana_event.specs.Join.{IsJoin, joined};
ghost use Rattle.pana_event.specs.Relation.{IsRelation, tested_relation};
ghost use Rattle.pana_id.specs.Id.{Id, IsNormal, IsParted, IsSum, SharesNoPoint, is_single, is_zero, one_id, parts, sum_of};
ghost use Rattle.pana_stamp.specs.Fill.{fill as fill_of};
ghost use Rattle.pana_stamp.specs.Grow.{grow as grow_of};
ghost use Rattle.pana_stamp.specs.Raised.{IsRaised};

use crate::filling::filled;
use crate::growing::grow;
use pana_event::{EventTree, Rel};
use pana_id::{IdFault, IdTree};
use std::alloc::{AllocError, Global};
use std::mem;

/// The stamp of a copy: the id says which points are its own, the event which updates it knows.
pub struct Stamp {
    id: IdTree,
    event: EventTree,
}

impl Drop for Stamp {
    fn drop(self) {
        let Stamp { id: _, event: _ } = self;
    }
}

impl Stamp {
    /// The first stamp of a family: it owns all points and knows no update. Takes no memory.
    pub fn seed() -> Stamp
        ensures owner { result.id ≡ one_id }
        ensures event { result.event ≡ leaf 0 }
    {
        Stamp {
            id: IdTree::one(),
            event: EventTree::zero(),
        }
    }

    /// The stamp of an id and an event. Takes no memory.
    pub fn new(id: IdTree, event: EventTree) -> Stamp
        ensures owner { result.id ≡ id }
        ensures event { result.event ≡ event }
    {
        Stamp { id, event }
    }

    /// The id. Takes no memory.
    pub fn id(&self) -> &IdTree
        ensures { result.now ≡ self.now.id }
    {
        &self.id
    }

    /// The event. Takes no memory.
    pub fn event_tree(&self) -> &EventTree
        ensures { result.now ≡ self.now.event }
    {
        &self.event
    }

    /// Puts another event in place of the stamp's and returns the old one. The id stays as it is. Takes no memory; O(1).
    pub fn replace_event(&mut self, event: EventTree) -> EventTree
        ensures old { result ≡ self.old.event }
        ensures event { self.new.event ≡ event }
        ensures owner { self.new.id ≡ self.old.id }
    {
        mem::replace(&mut self.event, event)
    }

    /// Puts another id in place of the stamp's and returns the old one. The event stays as it is. Takes no memory; O(1).
    pub fn replace_id(&mut self, id: IdTree) -> IdTree
        ensures old { result ≡ self.old.id }
        ensures owner { self.new.id ≡ id }
        ensures event { self.new.event ≡ self.old.event }
    {
        mem::replace(&mut self.id, id)
    }

    /// The event after an update of the copy: what filling gives where that changes the event, and else the
    /// event grown. The stamp stays as it is.
    ///
    /// # Errors
    ///
    /// `AllocError` where an allocation failed. Allocates at most once a fork that changes and once a level of the
    /// id; visits each node a few times.
    pub fn event(&self, alloc: Global) -> Result<EventTree, AllocError>
        requires owner { is_zero self.now.id ≡ false }
        requires room { greatest self.now.event + 1 < 2 ^ 64 }
        ensures grown { IfOk result (λ new. fill_of self.now.id self.now.event ≡ self.now.event → new ≡ grow_of self.now.id self.now.event) }
        ensures filled { IfOk result (λ new. ¬ (fill_of self.now.id self.now.event ≡ self.now.event) → new ≡ fill_of self.now.id self.now.event) }
        ensures raised { IfOk result (IsRaised self.now.id self.now.event) }
    {
        match filled(alloc, &self.id, &self.event)? {
            Some(event) => Ok(event),
            None => {
                let (grown, _) = grow(alloc, &self.id, &self.event)?;
                Ok(grown)
            }
        }
    }

    /// Two stamps in place of one: the id is divided, by its split, and both know what this one does.
    ///
    /// # Errors
    ///
    /// `TooDeep` exactly where the id has a single 1, at depth 256, and before memory is taken. `OutOfMemory`
    /// where an allocation failed. The stamp stays as it is in any case. Allocates for the two ids,
    /// and both events are in the same memory; visits each node of the id at most twice.
    pub fn fork(&self, alloc: Global) -> Result<(Stamp, Stamp), IdFault>
        ensures ids { IfOk result (λ two. (two.0.id, two.1.id) ≡ parts self.now.id) }
        ensures parted { IfOk result (λ two. IsParted self.now.id two.0.id two.1.id) }
        ensures first_event { IfOk result (λ two. two.0.event ≡ self.now.event) }
        ensures second_event { IfOk result (λ two. two.1.event ≡ self.now.event) }
        ensures too_deep { IsErrOf result IdFault.TooDeep ↔ IsTrue (is_single self.now.id 256) }
    {
        let (first, second) = self.id.split(alloc)?;
        let first_event = self.event.share()?;
        let second_event = self.event.share()?;
        Ok((
            Stamp::new(first, first_event),
            Stamp::new(second, second_event),
        ))
    }

    /// One stamp in place of two: it owns what either owns, and knows what either knows. The ids are added
    /// by their sum, the events joined.
    ///
    /// # Errors
    ///
    /// `AllocError` where an allocation failed; both stamps stay as they are in any case. Allocates at most once
    /// a pair of the ids and once a fork of the events; visits each node once.
    pub fn join(alloc: Global, first: &Stamp, second: &Stamp) -> Result<Stamp, AllocError>
        requires { SharesNoPoint first.now.id second.now.id }
        ensures owner { IfOk result (λ stamp. stamp.id ≡ sum_of first.now.id second.now.id) }
        ensures summed { IfOk result (λ stamp. IsSum stamp.id first.now.id second.now.id) }
        ensures event { IfOk result (λ stamp. stamp.event ≡ joined first.now.event second.now.event) }
        ensures levels { IfOk result (λ stamp. IsJoin first.now.event second.now.event stamp.event) }
        ensures greatest { IfOk result (λ stamp. greatest stamp.event ≡ max (greatest first.now.event) (greatest second.now.event)) }
    {
        let event = EventTree::join(alloc, &first.event, &second.event)?;
        match IdTree::sum(alloc, &first.id, &second.id) {
            Ok(id) => Ok(Stamp::new(id, event)),
            Err(_) => Err(AllocError),
        }
    }

    /// The id, where the event is wanted no more. Takes no memory; lets the event go, and visits each node of it that no other event has.
    pub fn into_id(self) -> IdTree
        ensures { result ≡ self.id }
    {
        let Stamp { id, event: _ } = self;
        id
    }

    /// Divides the id in place, by `IdTree::split_off`: leaves its first part here and returns the second. The event
    /// stays as it is.
    ///
    /// # Errors
    ///
    /// `TooDeep` exactly where the id has a single 1, at depth 256, and before memory is taken. `OutOfMemory`
    /// where an allocation failed. The stamp is then as it was. Takes at most a box a pair on the way to where the
    /// id is divided, and two more; visits at most one pair of the id a level.
    pub fn split_off(&mut self, alloc: Global) -> Result<IdTree, IdFault>
        ensures ids { IfOk result (λ second. (self.new.id, second) ≡ parts self.old.id) }
        ensures parted { IfOk result (λ second. IsParted self.old.id self.new.id second) }
        ensures event { self.new.event ≡ self.old.event }
        ensures err { OnErr result (self.new.id ≡ self.old.id) }
        ensures too_deep { IsErrOf result IdFault.TooDeep ↔ IsTrue (is_single self.old.id 256) }
    {
        self.id.split_off(alloc)
    }

    /// How what the first stamp's copy knows relates to what the second's does. The ids don't count. Takes no
    /// memory; visits each node of the events at most twice.
    pub fn compare(first: &Stamp, second: &Stamp) -> Rel
        ensures relation { IsRelation first.now.event second.now.event result }
        ensures same { (result ≡ Rel.Equal) ↔ (first.now.event ≡ second.now.event) }
        ensures test { result ≡ tested_relation first.now.event second.now.event }
    {
        first.event.compare(&second.event)
    }
}
