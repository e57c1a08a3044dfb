//! The join of two events: the greater level at every point. It has the halves of either in common where it can.
ghost use Rattle.std.specs.Prelude.{◌≡◌, ◌+◌, ◌^◌, ◌<◌, IfOk, IfSome};
ghost use Rattle.pana_event.specs.Event.{IsNormal, greatest, leaf, lift, number};
ghost use Rattle.pana_event.specs.Join.{join_of, joined, raised};
ghost use Rattle.pana_event.specs.inner.Joining.{IsJoined, IsOneOf, is_first, is_second, reversed, whole_of};
ghost use Rattle.pana_event.specs.Shape.{tree};

use crate::node::Node;
use std::alloc::{AllocError, Global};

/// What the join of two events is.
#[derive(Drop)]
enum Joined {
    /// The first event.
    First,
    /// The second event.
    Second,
    /// Both, which are the same.
    Both,
    /// An event that had to be made.
    New(Node),
}

impl Joined {
    fn is_first(&self) -> bool
        ensures { result ≡ is_first self.now }
    {
        match self {
            Joined::First | Joined::Both => true,
            Joined::Second | Joined::New(_) => false,
        }
    }

    fn is_second(&self) -> bool
        ensures { result ≡ is_second self.now }
    {
        match self {
            Joined::Second | Joined::Both => true,
            Joined::First | Joined::New(_) => false,
        }
    }

    /// What the join is where the second event stands first.
    fn reversed(self) -> Joined
        ensures { result ≡ reversed self }
    {
        match self {
            Joined::First => Joined::Second,
            Joined::Second => Joined::First,
            joined => joined,
        }
    }

    /// What the join of two forks is, where those of their halves are these. None where it has to be made.
    fn whole_of(left: &Joined, right: &Joined) -> Option<Joined>
        ensures { result ≡ whole_of left.now right.now }
    {
        let is_first = left.is_first() && right.is_first();
        let is_second = left.is_second() && right.is_second();
        match (is_first, is_second) {
            (true, true) => Some(Joined::Both),
            (true, false) => Some(Joined::First),
            (false, true) => Some(Joined::Second),
            (false, false) => None,
        }
    }

    /// The node of the join of these two events.
    #[tactic(auto, using(crate::proofs::Levels::own_numbers))]
    fn into_node(
        self,
        first: &Node,
        base: u64,
        second: &Node,
        second_base: u64,
    ) -> Result<Node, AllocError>
        requires joined { IsJoined base (tree first.now) second_base (tree second.now) self }
        requires first { base + greatest (tree first.now) < 2 ^ 64 }
        requires second { second_base + greatest (tree second.now) < 2 ^ 64 }
        ensures { IfOk result (λ node. tree node ≡ join_of base (tree first.now) second_base (tree second.now)) }
    {
        match self {
            Joined::First | Joined::Both => first.lifted(base),
            Joined::Second => second.lifted(second_base),
            Joined::New(node) => Ok(node),
        }
    }
}

/// The join of a leaf of this level with a normal event, which is lifted by `base`. Builds anew what the leaf raises,
/// and visits nothing else.
#[tactic(auto, using(crate::proofs::Joins::greatest_joins, crate::proofs::Levels::own_numbers, crate::proofs::Shares::raised_lifts))]
fn raised(alloc: Global, level: u64, event: &Node, base: u64) -> Result<Node, AllocError>
    requires normal { IsNormal (tree event.now) }
    requires fits { base + greatest (tree event.now) < 2 ^ 64 }
    ensures { IfOk result (λ node. tree node ≡ raised level base (tree event.now)) }
{
    if level <= base + event.number() {
        return event.lifted(base);
    }
    match event {
        Node::Leaf(_) => Ok(Node::Leaf(level)),
        Node::Fork(number, halves) => {
            let least = base + *number;
            let left = raised(alloc, level - least, &halves.left, 0)?;
            let right = raised(alloc, level - least, &halves.right, 0)?;
            Node::norm_of(alloc, least, left, right)
        }
    }
}

/// What the join is of a leaf of this level, as the first, with a normal event, which is lifted by `base`.
fn join_leaf(alloc: Global, level: u64, event: &Node, base: u64) -> Result<Joined, AllocError>
    requires normal { IsNormal (tree event.now) }
    requires fits { base + greatest (tree event.now) < 2 ^ 64 }
    ensures { IfOk result (IsOneOf (leaf level) (lift (tree event.now) base) (raised level base (tree event.now))) }
{
    match event {
        Node::Leaf(number) if base + *number == level => return Ok(Joined::Both),
        _ => {}
    }
    if level <= base + event.number() {
        return Ok(Joined::Second);
    }
    match raised(alloc, level, event, base)? {
        Node::Leaf(_) => Ok(Joined::First),
        node => Ok(Joined::New(node)),
    }
}

/// What the join is of two normal events, which are lifted by these bases.
#[tactic(auto, using(crate::proofs::Joins::greatest_joins, crate::proofs::Shares::whole_joins))]
fn join_nodes(
    alloc: Global,
    first: &Node,
    base: u64,
    second: &Node,
    second_base: u64,
) -> Result<Joined, AllocError>
    requires first_normal { IsNormal (tree first.now) }
    requires second_normal { IsNormal (tree second.now) }
    requires first { base + greatest (tree first.now) < 2 ^ 64 }
    requires second { second_base + greatest (tree second.now) < 2 ^ 64 }
    ensures { IfOk result (IsJoined base (tree first.now) second_base (tree second.now)) }
{
    match (first, second) {
        (Node::Leaf(m), _) => join_leaf(alloc, base + *m, second, second_base),
        (Node::Fork(_, _), Node::Leaf(n)) => {
            let joined = join_leaf(alloc, second_base + *n, first, base)?;
            Ok(joined.reversed())
        }
        (Node::Fork(m, halves), Node::Fork(n, others)) => {
            let lifted = base + *m;
            let other_lifted = second_base + *n;
            let common = lifted.min(other_lifted);
            let above = lifted - common;
            let other_above = other_lifted - common;
            let left = join_nodes(alloc, &halves.left, above, &others.left, other_above)?;
            let right = join_nodes(alloc, &halves.right, above, &others.right, other_above)?;
            if let Some(whole) = Joined::whole_of(&left, &right) {
                return Ok(whole);
            }
            let left = left.into_node(&halves.left, above, &others.left, other_above)?;
            let right = right.into_node(&halves.right, above, &others.right, other_above)?;
            let node = Node::norm_of(alloc, common, left, right)?;
            Ok(Joined::New(node))
        }
    }
}

/// The join of two normal events, in normal form.
///
/// # Errors
///
/// `AllocError` where an allocation failed, or halves have too many owners. Allocates at most once a fork of either, and
/// only where the join is neither's; visits each node at most once.
pub fn join(alloc: Global, first: &Node, second: &Node) -> Result<Node, AllocError>
    requires first_normal { IsNormal (tree first.now) }
    requires second_normal { IsNormal (tree second.now) }
    requires first { greatest (tree first.now) < 2 ^ 64 }
    requires second { greatest (tree second.now) < 2 ^ 64 }
    ensures { IfOk result (λ node. tree node ≡ joined (tree first.now) (tree second.now)) }
{
    let joined = join_nodes(alloc, first, 0, second, 0)?;
    joined.into_node(first, 0, second, 0)
}
