//! The stamps and rows that reports make.
ghost use Rattle.std.specs.Prelude.{◌≡◌, ◌+◌, ◌^◌, ◌<◌, false, IfOk};
ghost use Rattle.pana_id.specs.Id.{is_zero, is_single};
ghost use Rattle.pana_event.specs.Event.{greatest};
ghost use Rattle.pana_family.specs.{Change.with_event, Rows.stamp, inner.Making.CanJoin};
ghost use Rattle.pana_family.specs.After.{first_part, joined_stamp, second_part, updated, updated_stamp};

use crate::row::StampRow;
use pana_event::EventTree;
use pana_id::{IdFault, IdTree};
use pana_stamp::Stamp;
use std::alloc::{AllocError, Global};
use std::mem;

/// The same id once more, for a row that takes another's place.
pub fn copy_of(alloc: Global, id: &IdTree) -> Result<IdTree, AllocError>
    ensures { IfOk result (λ copy. copy ≡ id.now) }
{
    let node = id.node().copy_of(alloc)?;
    Ok(IdTree::of_node(node))
}

/// The event of a stamp after an update.
pub fn updated_event(alloc: Global, stamp: &Stamp) -> Result<EventTree, AllocError>
    requires owner { is_zero stamp.now.id ≡ false }
    requires room { greatest stamp.now.event + 1 < 2 ^ 64 }
    ensures { IfOk result (λ event. event ≡ updated stamp.now.id stamp.now.event) }
{
    let event = stamp.event(alloc)?;
    Ok(event)
}

/// Gives a row another event and touch, and returns the former ones. Takes no memory.
pub fn renew(row: &mut StampRow, event: EventTree, touch: u64) -> (EventTree, u64)
    ensures copy { row.new.copy ≡ row.old.copy }
    ensures holder { row.new.holder ≡ row.old.holder }
    ensures id { row.new.stamp.id ≡ row.old.stamp.id }
    ensures event { row.new.stamp.event ≡ event }
    ensures touch { row.new.touch ≡ touch }
    ensures old { result ≡ (row.old.stamp.event, row.old.touch) }
    ensures row { row.new ≡ with_event event touch row.old }
{
    let former = row.stamp.replace_event(event);
    let since = mem::replace(&mut row.touch, touch);
    (former, since)
}

/// The two parts of a stamp, which both know what it does.
pub fn halves(alloc: Global, stamp: &Stamp) -> Result<(Stamp, Stamp), AllocError>
    requires { is_single stamp.now.id 256 ≡ false }
    ensures { IfOk result (λ two. two ≡ (first_part stamp.now, second_part stamp.now)) }
{
    match stamp.fork(alloc) {
        Ok((first, second)) => Ok((first, second)),
        Err(IdFault::TooDeep) => unreachable!(),
        Err(IdFault::OutOfMemory) => Err(AllocError),
    }
}

/// The same, of a stamp that is divided in place: no part of its id is copied.
pub fn into_halves(alloc: Global, stamp: Stamp) -> Result<(Stamp, Stamp), AllocError>
    requires { is_single stamp.id 256 ≡ false }
    ensures { IfOk result (λ two. two ≡ (first_part stamp, second_part stamp)) }
{
    let mut first = stamp;
    match first.split_off(alloc) {
        Ok(id) => {
            let second = stamp_of(id, first.event_tree())?;
            Ok((first, second))
        }
        Err(IdFault::TooDeep) => unreachable!(),
        Err(IdFault::OutOfMemory) => Err(AllocError),
    }
}

/// The stamp of this id that knows the event.
pub fn stamp_of(id: IdTree, event: &EventTree) -> Result<Stamp, AllocError>
    ensures { IfOk result (λ new. new ≡ stamp id event.now) }
{
    match event.share() {
        Ok(event) => Ok(Stamp::new(id, event)),
        Err(fault) => {
            drop(id);
            Err(fault)
        }
    }
}

/// The stamp that owns and knows what two do.
pub fn joined_stamp(alloc: Global, a: &Stamp, b: &Stamp) -> Result<Stamp, AllocError>
    requires { CanJoin a.now b.now }
    ensures joined { IfOk result (λ stamp. stamp ≡ joined_stamp a.now b.now) }
    ensures some { IfOk result (λ stamp. is_zero stamp.id ≡ false) }
{
    let stamp = Stamp::join(alloc, a, b)?;
    Ok(stamp)
}

/// The stamp after an update of all that it owns.
pub fn updated_stamp(alloc: Global, stamp: Stamp) -> Result<Stamp, AllocError>
    requires owner { is_zero stamp.id ≡ false }
    requires room { greatest stamp.event + 1 < 2 ^ 64 }
    ensures { IfOk result (λ new. new ≡ updated_stamp stamp) }
{
    let mut stamp = stamp;
    match updated_event(alloc, &stamp) {
        Ok(event) => {
            drop(stamp.replace_event(event));
            Ok(stamp)
        }
        Err(fault) => {
            drop(stamp);
            Err(fault)
        }
    }
}
