//! Growing: one more at the place of an id that costs least.
ghost use Rattle.std.specs.Prelude.{◌≡◌, ◌+◌, ◌^◌, ◌<◌, ◌≤◌, IfOk, false};
ghost use Rattle.pana_event.specs.Event.{greatest, leaf};
ghost use Rattle.pana_event.specs.Shape.{tree as event_of};
ghost use Rattle.pana_id.specs.Id.{depth as depth_of, is_zero, pair};
ghost use Rattle.pana_id.specs.Node.{single, tree as id_of};
ghost use Rattle.pana_id.specs.declared.node.Node.TheVariants as ids;
ghost use Rattle.pana_stamp.specs.Fill.{fill as fill_of};
ghost use Rattle.pana_stamp.specs.Grow.{IsGrown, cost_of, event_if, goes_right as is_right, grow as grow_of, grown_at, left_of, opened_by as opens, right_of};
ghost use Rattle.pana_stamp.specs.Raised.{IsRaised};

use crate::cost::Cost;
use pana_event::{EventTree, Node};
use pana_id::{Halves as IdHalves, IdTree, Node as IdNode};
use std::alloc::{AllocError, Global};

/// The event grown for an id, where filling changes nothing: one more at all points of a place that the id
/// owns whole, and what that cost.
/// Of such places it is the one with the least cost, and of several the rightmost.
///
/// By the grow of Interval Tree Clocks, which leaves a tie open.
///
/// # Errors
///
/// `AllocError` where an allocation failed. Allocates at most once a level of the place. A first walk finds the least
/// cost and takes no memory, a second one grows the place that has it; each visits a node at most once.
pub fn grow(alloc: Global, id: &IdTree, event: &EventTree) -> Result<(EventTree, Cost), AllocError>
    requires owner { is_zero id.now ≡ false }
    requires filled { fill_of id.now event.now ≡ event.now }
    requires room { greatest event.now + 1 < 2 ^ 64 }
    ensures tree { IfOk result (λ two. two.0 ≡ grow_of id.now event.now) }
    ensures cost { IfOk result (λ two. two.1 ≡ cost_of id.now event.now) }
    ensures place { IfOk result (λ two. IsGrown id.now event.now two.0 two.1) }
    ensures raised { IfOk result (λ two. IsRaised id.now event.now two.0) }
{
    match id.node() {
        IdNode::Single(number) => grow_one(alloc, id, event, *number),
        _ => grow_by_cost(alloc, id, event),
    }
}

/// The same, for the id of the place with this number.
fn grow_one(
    alloc: Global,
    id: &IdTree,
    event: &EventTree,
    number: u64,
) -> Result<(EventTree, Cost), AllocError>
    requires one { id.now ≡ id_of (ids.Single number) }
    requires owner { is_zero id.now ≡ false }
    requires filled { fill_of id.now event.now ≡ event.now }
    requires room { greatest event.now + 1 < 2 ^ 64 }
    ensures tree { IfOk result (λ two. two.0 ≡ grow_of id.now event.now) }
    ensures cost { IfOk result (λ two. two.1 ≡ cost_of id.now event.now) }
    ensures place { IfOk result (λ two. IsGrown id.now event.now two.0 two.1) }
    ensures raised { IfOk result (λ two. IsRaised id.now event.now two.0) }
{
    // whose contract says that the id is valid
    let _ = id.node();
    let (node, cost) = grow_single(alloc, number, event.node())?;
    Ok((EventTree::of_node(node), cost))
}

/// The same, for any id.
fn grow_by_cost(
    alloc: Global,
    id: &IdTree,
    event: &EventTree,
) -> Result<(EventTree, Cost), AllocError>
    requires owner { is_zero id.now ≡ false }
    requires filled { fill_of id.now event.now ≡ event.now }
    requires room { greatest event.now + 1 < 2 ^ 64 }
    ensures tree { IfOk result (λ two. two.0 ≡ grow_of id.now event.now) }
    ensures cost { IfOk result (λ two. two.1 ≡ cost_of id.now event.now) }
    ensures place { IfOk result (λ two. IsGrown id.now event.now two.0 two.1) }
    ensures raised { IfOk result (λ two. IsRaised id.now event.now two.0) }
{
    let root = id.node();
    let event_root = event.node();
    let cost = least_cost(root, event_root);
    match grow_at(alloc, root, event_root, cost.opened, cost.levels)? {
        Some(node) => Ok((EventTree::of_node(node), cost)),
        None => unreachable!(),
    }
}

/// The event grown for the id of one place, which is where it grows, and what that costs. Allocates once a level of the place.
#[cycle(one_place)]
fn grow_single(alloc: Global, number: u64, event: &Node) -> Result<(Node, Cost), AllocError>
    requires { greatest (event_of event.now) + 1 < 2 ^ 64 }
    ensures tree { IfOk result (λ two. event_of two.0 ≡ grow_of (id_of (ids.Single number)) (event_of event.now)) }
    ensures cost { IfOk result (λ two. two.1 ≡ cost_of (id_of (ids.Single number)) (event_of event.now)) }
{
    let zero = Node::Leaf(0);
    let (left, right) = halves_of(event, &zero);
    let opened = opened_by(event);
    if number % 2 == 0 {
        let (grown, cost) = grow_place(alloc, number / 2, left)?;
        let other = right.share()?;
        let fork = Node::fork_of(alloc, event.number(), grown, other)?;
        Ok((fork, cost.one_up(opened)))
    } else {
        let (grown, cost) = grow_place(alloc, number / 2, right)?;
        let other = left.share()?;
        let fork = Node::fork_of(alloc, event.number(), other, grown)?;
        Ok((fork, cost.one_up(opened)))
    }
}

/// The same for the place with this number.
#[cycle(one_place)]
fn grow_place(alloc: Global, place: u64, event: &Node) -> Result<(Node, Cost), AllocError>
    requires { greatest (event_of event.now) + 1 < 2 ^ 64 }
    ensures tree { IfOk result (λ two. event_of two.0 ≡ grow_of (single 64 place) (event_of event.now)) }
    ensures cost { IfOk result (λ two. two.1 ≡ cost_of (single 64 place) (event_of event.now)) }
{
    if place == 0 {
        let leaf = Node::Leaf(event.number() + 1);
        let cost = Cost {
            opened: 0,
            levels: 0,
        };
        return Ok((leaf, cost));
    }
    grow_single(alloc, place - 1, event)
}

/// The least cost at which the event grows for the id. Takes no memory; visits each node at most once.
#[cycle(walk)]
fn least_cost(id: &IdNode, event: &Node) -> Cost
    requires { depth_of (id_of id.now) ≤ 256 }
    ensures value { result ≡ cost_of (id_of id.now) (event_of event.now) }
    ensures opened { result.opened ≤ depth_of (id_of id.now) }
    ensures levels { result.levels ≤ depth_of (id_of id.now) }
{
    match id {
        IdNode::Zero | IdNode::One => Cost {
            opened: 0,
            levels: 0,
        },
        IdNode::Single(number) => least_cost_in(&IdHalves::of_single(*number), event),
        IdNode::Pair(ids) => least_cost_in(ids, event),
    }
}

/// The same for the id with these halves.
#[cycle(walk)]
fn least_cost_in(ids: &IdHalves, event: &Node) -> Cost
    requires { depth_of (pair (id_of ids.now.left) (id_of ids.now.right)) ≤ 256 }
    ensures value { result ≡ cost_of (pair (id_of ids.now.left) (id_of ids.now.right)) (event_of event.now) }
    ensures opened { result.opened ≤ depth_of (pair (id_of ids.now.left) (id_of ids.now.right)) }
    ensures levels { result.levels ≤ depth_of (pair (id_of ids.now.left) (id_of ids.now.right)) }
{
    let zero = Node::Leaf(0);
    let (left_event, right_event) = halves_of(event, &zero);
    let left = least_cost(&ids.left, left_event);
    let right = least_cost(&ids.right, right_event);
    let opened = opened_by(event);
    if goes_right(&ids.left, &ids.right, left, right) {
        right.one_up(opened)
    } else {
        left.one_up(opened)
    }
}

/// The event grown at the last 1 of the id that costs just so much, if there is one: the right half is tried
/// first, and only the half that grows is built anew. Visits each node at most once.
#[cycle(grow)]
fn grow_at(
    alloc: Global,
    id: &IdNode,
    event: &Node,
    opened: u32,
    levels: u32,
) -> Result<Option<Node>, AllocError>
    requires { greatest (event_of event.now) + 1 < 2 ^ 64 }
    ensures { IfOk result (λ node. event_if node ≡ grown_at (id_of id.now) (event_of event.now) opened levels) }
{
    match id {
        IdNode::Zero => Ok(None),
        IdNode::One => {
            if opened == 0 && levels == 0 {
                Ok(Some(Node::Leaf(event.number() + 1)))
            } else {
                Ok(None)
            }
        }
        IdNode::Single(number) => {
            let ids = IdHalves::of_single(*number);
            grow_half(alloc, &ids, event, opened, levels)
        }
        IdNode::Pair(ids) => grow_half(alloc, ids, event, opened, levels),
    }
}

/// The same for the id with these halves.
#[cycle(grow)]
#[tactic(auto, using(crate::proofs::Halves::half_limits))]
fn grow_half(
    alloc: Global,
    ids: &IdHalves,
    event: &Node,
    opened: u32,
    levels: u32,
) -> Result<Option<Node>, AllocError>
    requires { greatest (event_of event.now) + 1 < 2 ^ 64 }
    ensures { IfOk result (λ node. event_if node ≡ grown_at (pair (id_of ids.now.left) (id_of ids.now.right)) (event_of event.now) opened levels) }
{
    let by = opened_by(event);
    if opened < by || levels == 0 {
        return Ok(None);
    }
    let zero = Node::Leaf(0);
    let (left, right) = halves_of(event, &zero);
    if let Some(grown) = grow_at(alloc, &ids.right, right, opened - by, levels - 1)? {
        let kept = left.share()?;
        let fork = Node::fork_of(alloc, event.number(), kept, grown)?;
        return Ok(Some(fork));
    }
    if let Some(grown) = grow_at(alloc, &ids.left, left, opened - by, levels - 1)? {
        let kept = right.share()?;
        let fork = Node::fork_of(alloc, event.number(), grown, kept)?;
        return Ok(Some(fork));
    }
    Ok(None)
}

/// Whether growth goes right, where the halves have these ids and costs.
fn goes_right(left_id: &IdNode, right_id: &IdNode, left: Cost, right: Cost) -> bool
    ensures { result ≡ is_right (id_of left_id.now) (id_of right_id.now) left right }
{
    left_id.is_zero() || !(right_id.is_zero() || left.is_below(right))
}

/// The number of leaves that are opened by a step into a half of the event.
fn opened_by(event: &Node) -> u32
    ensures value { result ≡ opens (event_of event.now) }
    ensures bound { result ≤ 1 }
{
    match event {
        Node::Leaf(_) => 1,
        Node::Fork(_, _) => 0,
    }
}

/// The halves of the event, where a leaf is taken as a fork of two leaves 0.
fn halves_of<'a>(event: &'a Node, zero: &'a Node) -> (&'a Node, &'a Node)
    requires { event_of zero.now ≡ leaf 0 }
    ensures left { event_of result.0.now ≡ left_of (event_of event.now) }
    ensures right { event_of result.1.now ≡ right_of (event_of event.now) }
{
    match event {
        Node::Leaf(_) => (zero, zero),
        Node::Fork(_, halves) => (&halves.left, &halves.right),
    }
}
