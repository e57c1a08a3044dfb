//! The nodes of event trees, for those who walk or build one: normal or not, with no limits of their own.
ghost use Rattle.std.specs.Prelude.{◌≡◌, ◌+◌, ◌^◌, ◌<◌, ◌≤◌, max, IfOk};
ghost use Rattle.pana_event.specs.Event.{IsNormal, are_same_leaf, depth, fork, greatest, least, level, lift, norm, number, sink};
ghost use Rattle.pana_event.specs.Order.{is_below};
ghost use Rattle.pana_event.specs.Shape.{tree};

use std::alloc::{AllocError, Global};
use std::sync::Arc;

/// An event tree: levels of points, each a list of choices between left and right.
#[cycle(node)]
#[derive(Drop)]
pub enum Node {
    /// The same level at every point.
    Leaf(u64),
    /// The levels of the two halves, each lifted by the number. Events may have the halves in common.
    Fork(u64, Arc<Halves, Global>),
}

/// The left and the right half of a fork.
#[cycle(node)]
#[derive(Drop)]
pub struct Halves {
    pub left: Node,
    pub right: Node,
}

impl Node {
    /// The own number of the root. Takes no memory; O(1).
    pub fn number(&self) -> u64
        ensures { result ≡ number (tree self.now) }
    {
        match self {
            Node::Leaf(number) => *number,
            Node::Fork(number, _) => *number,
        }
    }

    /// The least level of an event in normal form, which is the own number of its root. Takes no memory; O(1).
    #[tactic(auto, using(crate::proofs::Levels::least_levels))]
    pub fn least(&self) -> u64
        requires { IsNormal (tree self.now) }
        ensures { result ≡ least (tree self.now) }
    {
        self.number()
    }

    /// The level at a point, where `false` goes left and `true` right. Takes no memory; O(depth).
    pub fn level(&self, point: &[bool]) -> u64
        requires { greatest (tree self.now) < 2 ^ 64 }
        ensures value { result ≡ level (tree self.now) point.now }
        ensures bound { result ≤ greatest (tree self.now) }
    {
        match self {
            Node::Leaf(number) => *number,
            Node::Fork(number, halves) => match point {
                [] => *number,
                [false, rest @ ..] => *number + halves.left.level(rest),
                [true, rest @ ..] => *number + halves.right.level(rest),
            },
        }
    }

    /// The greatest level. Takes no memory; visits each node once.
    pub fn greatest(&self) -> u64
        requires { greatest (tree self.now) < 2 ^ 64 }
        ensures { result ≡ greatest (tree self.now) }
    {
        match self {
            Node::Leaf(number) => *number,
            Node::Fork(number, halves) => {
                let left = halves.left.greatest();
                *number + left.max(halves.right.greatest())
            }
        }
    }

    /// The same event once more, in the same memory. Takes no memory; O(1).
    ///
    /// # Errors
    ///
    /// `AllocError` where its halves have too many owners.
    pub fn share(&self) -> Result<Node, AllocError>
        ensures { IfOk result (λ node. tree node ≡ tree self.now) }
    {
        match self {
            Node::Leaf(number) => Ok(Node::Leaf(*number)),
            Node::Fork(number, halves) => Ok(Node::Fork(*number, Arc::try_clone(halves)?)),
        }
    }

    /// A fork, in normal form or not.
    ///
    /// # Errors
    ///
    /// `AllocError` where an allocation failed. Allocates once.
    pub fn fork_of(alloc: Global, number: u64, left: Node, right: Node) -> Result<Node, AllocError>
        ensures { IfOk result (λ node. tree node ≡ fork number (tree left) (tree right)) }
    {
        let halves = Arc::new(alloc, Halves { left, right })?;
        Ok(Node::Fork(number, halves))
    }

    /// The normal form of a number over two halves that are in normal form: two equal leaves become one, and
    /// of two others what both own numbers have in common moves up. It changes own numbers alone, in O(1).
    ///
    /// # Errors
    ///
    /// `AllocError` where an allocation failed. Allocates at most once.
    pub fn norm_of(
        alloc: Global,
        number: u64,
        mut left: Node,
        mut right: Node,
    ) -> Result<Node, AllocError>
        requires { number + max (greatest (tree left)) (greatest (tree right)) < 2 ^ 64 }
        ensures { IfOk result (λ node. tree node ≡ norm number (tree left) (tree right)) }
    {
        if left.is_same_leaf(&right) {
            left.lift(number);
            return Ok(left);
        }
        let common = left.number().min(right.number());
        left.sink(common);
        right.sink(common);
        Node::fork_of(alloc, number + common, left, right)
    }

    /// Whether the event is below another, where both are in normal form; they are lifted by `base` and
    /// `other_base`. Takes no memory; visits each node at most once.
    pub fn is_below(&self, base: u64, other: &Node, other_base: u64) -> bool
        requires first { base + greatest (tree self.now) < 2 ^ 64 }
        requires second { other_base + greatest (tree other.now) < 2 ^ 64 }
        ensures { result ≡ is_below base (tree self.now) other_base (tree other.now) }
    {
        match (self, other) {
            (Node::Leaf(m), _) => base + *m <= other_base + other.number(),
            (Node::Fork(m, halves), Node::Leaf(n)) => {
                let lifted = base + *m;
                lifted <= other_base + *n
                    && halves.left.is_below(lifted, other, other_base)
                    && halves.right.is_below(lifted, other, other_base)
            }
            (Node::Fork(m, halves), Node::Fork(n, others)) => {
                let lifted = base + *m;
                let other_lifted = other_base + *n;
                lifted <= other_lifted
                    && halves.left.is_below(lifted, &others.left, other_lifted)
                    && halves.right.is_below(lifted, &others.right, other_lifted)
            }
        }
    }

    /// The event with every level higher by so much, with its halves in common. Takes no memory; O(1).
    ///
    /// # Errors
    ///
    /// `AllocError` where its halves have too many owners.
    pub(crate) fn lifted(&self, by: u64) -> Result<Node, AllocError>
        requires { number (tree self.now) + by < 2 ^ 64 }
        ensures { IfOk result (λ node. tree node ≡ lift (tree self.now) by) }
    {
        let mut node = self.share()?;
        node.lift(by);
        Ok(node)
    }

    fn is_same_leaf(&self, other: &Node) -> bool
        ensures { result ≡ are_same_leaf (tree self.now) (tree other.now) }
    {
        match (self, other) {
            (Node::Leaf(m), Node::Leaf(n)) => m == n,
            _ => false,
        }
    }

    fn lift(&mut self, by: u64)
        requires { number (tree self.old) + by < 2 ^ 64 }
        ensures { tree self.new ≡ lift (tree self.old) by }
    {
        match self {
            Node::Leaf(number) => *number += by,
            Node::Fork(number, _) => *number += by,
        }
    }

    fn sink(&mut self, by: u64)
        requires { by ≤ number (tree self.old) }
        ensures { tree self.new ≡ sink (tree self.old) by }
    {
        match self {
            Node::Leaf(number) => *number -= by,
            Node::Fork(number, _) => *number -= by,
        }
    }
}
