//! Event trees in normal form.
ghost use Rattle.std.specs.Prelude.{◌≡◌, ◌^◌, ◌<◌, ◌≤◌, ◌↔◌, max, length, IfOk, IsTrue};
ghost use Rattle.pana_event.specs.Event.{IsGreatestLevel, IsLeastLevel, IsNormal, depth, greatest, leaf, least, level};
ghost use Rattle.pana_event.specs.Join.{IsJoin, joined};
ghost use Rattle.pana_event.specs.Order.{IsBelow, is_leq};
ghost use Rattle.pana_event.specs.Relation.{IsRelation, tested_relation};
ghost use Rattle.pana_event.specs.Shape.{tree};

use crate::joining::join;
use crate::node::Node;
use crate::rel::Rel;
use std::alloc::{AllocError, Global};
use std::marker::Model;

/// An event tree in normal form, at most 256 deep, with every level a `u64`. Contracts see it as an `Event`.
pub struct EventTree {
    node: Node,
}

impl Drop for EventTree {
    fn drop(self) {
        let EventTree { node: _ } = self;
    }
}

impl Model for EventTree {
    ghost use Rattle.pana_event.specs.Event.{Event, IsSound};
    ghost use Rattle.pana_event.specs.Code.{event_code};

    ghost Value = { Event };

    ghost coded = { event_code };

    ghost use Rattle.pana_event.specs.Shape.{tree};

    ghost view = { λ a. tree a.node };

    ghost invariant = { λ a. IsSound (tree a.node) };
}

impl EventTree {
    /// The event with level 0 everywhere. Takes no memory.
    pub fn zero() -> EventTree
        ensures { result ≡ leaf 0 }
    {
        EventTree {
            node: Node::Leaf(0),
        }
    }

    /// The tree of a node that is normal and within the limits. Takes no memory; O(1).
    pub fn of_node(node: Node) -> EventTree
        requires normal { IsNormal (tree node) }
        requires shallow { depth (tree node) ≤ 256 }
        requires fits { greatest (tree node) < 2 ^ 64 }
        ensures { result ≡ tree node }
    {
        EventTree { node }
    }

    /// The root, for those who walk the tree. Takes no memory; O(1).
    pub fn node(&self) -> &Node
        ensures same { tree result.now ≡ self.now }
        ensures normal { IsNormal self.now }
        ensures shallow { depth self.now ≤ 256 }
        ensures fits { greatest self.now < 2 ^ 64 }
    {
        &self.node
    }

    /// The least level. Takes no memory; O(1), since it is the root's own number.
    pub fn least(&self) -> u64
        ensures value { result ≡ least self.now }
        ensures level { IsLeastLevel self.now result }
    {
        self.node.least()
    }

    /// The greatest level. Takes no memory; visits each node once.
    pub fn greatest(&self) -> u64
        ensures value { result ≡ greatest self.now }
        ensures level { IsGreatestLevel self.now result }
    {
        self.node.greatest()
    }

    /// The level at a point of 256 choices, where `false` goes left and `true` right. Takes no memory; O(depth).
    pub fn level(&self, point: &[bool]) -> u64
        requires { length point.now ≡ 256 }
        ensures { result ≡ level self.now point.now }
    {
        self.node.level(point)
    }

    /// Whether this event is below the other or the same. Takes no memory; visits each node at most once.
    pub fn leq(&self, other: &EventTree) -> bool
        ensures levels { IsTrue result ↔ IsBelow self.now other.now }
        ensures test { result ≡ is_leq self.now other.now }
    {
        self.node.is_below(0, &other.node, 0)
    }

    /// How this event relates to the other. Takes no memory; visits each node at most twice.
    pub fn compare(&self, other: &EventTree) -> Rel
        ensures relation { IsRelation self.now other.now result }
        ensures same { (result ≡ Rel.Equal) ↔ (self.now ≡ other.now) }
        ensures test { result ≡ tested_relation self.now other.now }
    {
        // whose contract says that both are normal
        let _ = self.node();
        let _ = other.node();
        match (self.leq(other), other.leq(self)) {
            (true, true) => Rel::Equal,
            (true, false) => Rel::Older,
            (false, true) => Rel::Newer,
            (false, false) => Rel::Conflict,
        }
    }

    /// The join of two events: the greater level at every point, whatever the order of the two.
    ///
    /// # Errors
    ///
    /// `AllocError` where an allocation failed, or halves have too many owners. Allocates at most once a fork of either, and
    /// only where the join is neither's; visits each node at most once.
    pub fn join(
        alloc: Global,
        first: &EventTree,
        second: &EventTree,
    ) -> Result<EventTree, AllocError>
        ensures tree { IfOk result (λ join. join ≡ joined first.now second.now) }
        ensures turned { IfOk result (λ join. join ≡ joined second.now first.now) }
        ensures levels { IfOk result (IsJoin first.now second.now) }
        ensures greatest { IfOk result (λ join. greatest join ≡ max (greatest first.now) (greatest second.now)) }
    {
        let node = join(alloc, &first.node, &second.node)?;
        Ok(EventTree { node })
    }

    /// The same event once more, in the same memory. Takes no memory; O(1).
    ///
    /// # Errors
    ///
    /// `AllocError` where its halves have too many owners.
    pub fn share(&self) -> Result<EventTree, AllocError>
        ensures { IfOk result (λ event. event ≡ self.now) }
    {
        let node = self.node.share()?;
        Ok(EventTree { node })
    }
}
