//! Filling: raising points that an id owns as far as the event gets simpler.
ghost use Rattle.std.specs.Prelude.{◌≡◌, ◌+◌, ◌^◌, ◌<◌, max, IfOk, IfSome, IfNone};
ghost use Rattle.pana_event.specs.Event.{IsNormal, IsOpen, fork, greatest, leaf, least, norm};
ghost use Rattle.pana_event.specs.Shape.{tree as event_of};
ghost use Rattle.pana_id.specs.{Id.pair, Node.single, Node.tree as id_of};
ghost use Rattle.pana_id.specs.declared.node.Node.TheVariants as ids;
ghost use Rattle.pana_stamp.specs.Fill.{IsFilled, fill as fill_of};
ghost use Rattle.pana_stamp.specs.Raised.{IsRaised};
ghost use Rattle.pana_stamp.specs.inner.Renewed.{Differs, filled_beside, new_or};

use pana_event::{EventTree, Node};
use pana_id::{Halves as IdHalves, IdTree, Node as IdNode};
use std::alloc::{AllocError, Global};

/// The event filled for an id: it lowers no level, changes points that the id owns alone, and raises none
/// above the greatest level. Where it changes nothing, the event can only grow.
///
/// By the fill of Interval Tree Clocks.
///
/// # Errors
///
/// `AllocError` where an allocation failed. Allocates at most once a fork that changes; visits each node at most once.
pub fn fill(alloc: Global, id: &IdTree, event: &EventTree) -> Result<EventTree, AllocError>
    ensures tree { IfOk result (λ new. new ≡ fill_of id.now event.now) }
    ensures filled { IfOk result (IsFilled id.now event.now) }
    ensures raised { IfOk result (λ new. ¬ (new ≡ event.now) → IsRaised id.now event.now new) }
{
    // whose contract says that the event is sound
    let _ = event.node();
    match filled(alloc, id, event)? {
        Some(new) => Ok(new),
        None => {
            let same = event.share()?;
            Ok(same)
        }
    }
}

/// The event filled for an id, unless that changes nothing.
///
/// # Errors
///
/// Those of `fill`.
pub(crate) fn filled(
    alloc: Global,
    id: &IdTree,
    event: &EventTree,
) -> Result<Option<EventTree>, AllocError>
    ensures same { IfOk result (λ new. IfNone new (fill_of id.now event.now ≡ event.now)) }
    ensures tree { IfOk result (λ new. IfSome new (λ new. new ≡ fill_of id.now event.now)) }
    ensures changed { IfOk result (λ new. IfSome new (λ new. ¬ (fill_of id.now event.now ≡ event.now))) }
    ensures raised { IfOk result (λ new. IfSome new (λ new. IsRaised id.now event.now new)) }
{
    let root = id.node();
    let event_root = event.node();
    match fill_node(alloc, root, event_root)? {
        Some(node) => Ok(Some(EventTree::of_node(node))),
        None => Ok(None),
    }
}

/// The node of the filled event, unless filling changes nothing. The greatest level is looked for only in halves under a
/// 1, which aren't walked otherwise, and the least is the own number of a filled half: so each node is visited at most once.
#[cycle(walk)]
fn fill_node(alloc: Global, id: &IdNode, event: &Node) -> Result<Option<Node>, AllocError>
    requires normal { IsNormal (event_of event.now) }
    requires fits { greatest (event_of event.now) < 2 ^ 64 }
    ensures tree { IfOk result (λ new. new_or new (event_of event.now) ≡ fill_of (id_of id.now) (event_of event.now)) }
    ensures changed { IfOk result (Differs (event_of event.now)) }
{
    match id {
        IdNode::Zero => Ok(None),
        IdNode::One => Ok(leaf_for(event, event.greatest())),
        IdNode::Single(number) => fill_single(alloc, *number, event),
        IdNode::Pair(ids) => fill_halves(alloc, ids, event),
    }
}

/// The same for the id of the place with this number.
#[cycle(one_place)]
fn fill_single(alloc: Global, number: u64, event: &Node) -> Result<Option<Node>, AllocError>
    requires normal { IsNormal (event_of event.now) }
    requires fits { greatest (event_of event.now) < 2 ^ 64 }
    ensures tree { IfOk result (λ new. new_or new (event_of event.now) ≡ fill_of (id_of (ids.Single number)) (event_of event.now)) }
    ensures changed { IfOk result (Differs (event_of event.now)) }
{
    match event {
        Node::Leaf(_) => Ok(None),
        Node::Fork(base, halves) => fill_half(alloc, number, *base, &halves.left, &halves.right),
    }
}

/// The same for the fork of a number and two halves.
#[cycle(one_place)]
fn fill_half(
    alloc: Global,
    number: u64,
    base: u64,
    left: &Node,
    right: &Node,
) -> Result<Option<Node>, AllocError>
    requires normal { IsNormal (fork base (event_of left.now) (event_of right.now)) }
    requires fits { greatest (fork base (event_of left.now) (event_of right.now)) < 2 ^ 64 }
    ensures tree { IfOk result (λ new. new_or new (fork base (event_of left.now) (event_of right.now)) ≡ fill_of (id_of (ids.Single number)) (fork base (event_of left.now) (event_of right.now))) }
    ensures changed { IfOk result (Differs (fork base (event_of left.now) (event_of right.now))) }
{
    if number % 2 == 0 {
        let filled = fill_place(alloc, number / 2, left, right)?;
        with_halves(alloc, base, left, filled, right, None)
    } else {
        let filled = fill_place(alloc, number / 2, right, left)?;
        with_halves(alloc, base, left, None, right, filled)
    }
}

/// A half of an event, filled for the id of the place with this number in that half, beside the other half, unless that changes
/// nothing.
#[cycle(one_place)]
fn fill_place(
    alloc: Global,
    place: u64,
    event: &Node,
    other: &Node,
) -> Result<Option<Node>, AllocError>
    requires normal { IsNormal (event_of event.now) × IsNormal (event_of other.now) }
    requires fits { greatest (event_of event.now) < 2 ^ 64 }
    ensures tree { IfOk result (λ new. new_or new (event_of event.now) ≡ filled_beside (single 64 place) (event_of event.now) (event_of other.now)) }
    ensures changed { IfOk result (Differs (event_of event.now)) }
{
    if place == 0 {
        let level = event.greatest().max(other.least());
        return Ok(leaf_for(event, level));
    }
    fill_single(alloc, place - 1, event)
}

/// The same for the id with these halves.
#[cycle(walk)]
#[tactic(auto, using(crate::proofs::Fills::fill_limits))]
fn fill_halves(alloc: Global, ids: &IdHalves, event: &Node) -> Result<Option<Node>, AllocError>
    requires normal { IsNormal (event_of event.now) }
    requires fits { greatest (event_of event.now) < 2 ^ 64 }
    ensures tree { IfOk result (λ new. new_or new (event_of event.now) ≡ fill_of (pair (id_of ids.now.left) (id_of ids.now.right)) (event_of event.now)) }
    ensures changed { IfOk result (Differs (event_of event.now)) }
{
    match event {
        Node::Leaf(_) => Ok(None),
        Node::Fork(number, halves) => match (&ids.left, &ids.right) {
            (IdNode::One, id) => {
                let right = fill_node(alloc, id, &halves.right)?;
                let level = halves.left.greatest().max(least_of(&right, &halves.right));
                let left = leaf_for(&halves.left, level);
                with_halves(alloc, *number, &halves.left, left, &halves.right, right)
            }
            (id, IdNode::One) => {
                let left = fill_node(alloc, id, &halves.left)?;
                let level = halves.right.greatest().max(least_of(&left, &halves.left));
                let right = leaf_for(&halves.right, level);
                with_halves(alloc, *number, &halves.left, left, &halves.right, right)
            }
            (left_id, right_id) => {
                let left = fill_node(alloc, left_id, &halves.left)?;
                let right = fill_node(alloc, right_id, &halves.right)?;
                with_halves(alloc, *number, &halves.left, left, &halves.right, right)
            }
        },
    }
}

/// The leaf of a level in place of an event, unless the event is that leaf.
fn leaf_for(event: &Node, level: u64) -> Option<Node>
    ensures tree { new_or result (event_of event.now) ≡ leaf level }
    ensures changed { Differs (event_of event.now) result }
{
    match event {
        Node::Leaf(number) if *number == level => None,
        _ => Some(Node::Leaf(level)),
    }
}

/// The least level of an event, or of the one that takes its place.
fn least_of(new: &Option<Node>, event: &Node) -> u64
    requires { IsNormal (new_or new.now (event_of event.now)) }
    ensures { result ≡ least (new_or new.now (event_of event.now)) }
{
    match new {
        Some(node) => node.least(),
        None => event.least(),
    }
}

/// An event, or the one that takes its place.
fn or_shared(new: Option<Node>, event: &Node) -> Result<Node, AllocError>
    ensures { IfOk result (λ node. event_of node ≡ new_or new (event_of event.now)) }
{
    match new {
        Some(node) => Ok(node),
        None => event.share(),
    }
}

/// The normal form of a number over two halves, of which some have others in their place, unless nothing changes.
fn with_halves(
    alloc: Global,
    number: u64,
    left: &Node,
    new_left: Option<Node>,
    right: &Node,
    new_right: Option<Node>,
) -> Result<Option<Node>, AllocError>
    requires halves { IsOpen (event_of left.now) (event_of right.now) }
    requires fits { number + max (greatest (new_or new_left (event_of left.now))) (greatest (new_or new_right (event_of right.now))) < 2 ^ 64 }
    requires left { Differs (event_of left.now) new_left }
    requires right { Differs (event_of right.now) new_right }
    ensures tree { IfOk result (λ new. new_or new (fork number (event_of left.now) (event_of right.now)) ≡ norm number (new_or new_left (event_of left.now)) (new_or new_right (event_of right.now))) }
    ensures changed { IfOk result (Differs (fork number (event_of left.now) (event_of right.now))) }
{
    match (new_left, new_right) {
        (None, None) => Ok(None),
        (new_left, new_right) => {
            let left = or_shared(new_left, left)?;
            let right = or_shared(new_right, right)?;
            let node = Node::norm_of(alloc, number, left, right)?;
            Ok(Some(node))
        }
    }
}
