ghost use Rattle.std.specs.Prelude.{◌≡◌, ◌+◌, ◌&&◌, ◌<◌, ◌≤◌, ◌^◌, length, IfOk, IfSome, IsTrue, OnErr, OnOk};
ghost use Rattle.pana_id.specs.Id.{pair, zero_id, norm, depth as depth_of, has as owns, is_zero as zero_test, is_one as one_test, parts, sum_of, are_disjoint, is_single};
ghost use Rattle.pana_id.specs.Node.{single, tree};
ghost use Rattle.pana_id.specs.declared.node.Node.TheVariants as nodes;

use std::alloc::{AllocError, Global};
use std::mem;

/// The tree of an id, in any form.
///
/// Only an `IdTree` promises normal form and a limit. This type is for code that walks or builds ids.
#[cycle(node)]
#[derive(Drop)]
pub enum Node {
    /// Owns no point.
    Zero,
    /// Owns all points.
    One,
    /// Owns the points of one place below the root, by the number of the place: `single` of the definitions. It takes no box.
    Single(u64),
    /// Lays one id on each half of the points.
    Pair(Box<Halves>),
}

/// The ids on the two halves of the points.
#[cycle(node)]
#[derive(Drop)]
pub struct Halves {
    pub left: Node,
    pub right: Node,
}

/// The largest number of a place that has places below it with numbers of their own, and one more.
const MOST_NUMBER: u64 = 1 << 62;

/// The number of the place whose points the pair of two ids owns, where it has one.
fn number_of(left: &Node, right: &Node) -> Option<u64>
    ensures { IfSome result (λ number. tree (nodes.Single number) ≡ pair (tree left.now) (tree right.now)) }
{
    match (left, right) {
        (Node::One, Node::Zero) => Some(0),
        (Node::Zero, Node::One) => Some(1),
        (Node::Single(number), Node::Zero) if *number < MOST_NUMBER => Some(2 * *number + 2),
        (Node::Zero, Node::Single(number)) if *number < MOST_NUMBER => Some(2 * *number + 3),
        _ => None,
    }
}

fn are_zero(left: &Node, right: &Node) -> bool
    ensures { result ≡ (zero_test (tree left.now) && zero_test (tree right.now)) }
{
    left.is_zero() && right.is_zero()
}

fn are_one(left: &Node, right: &Node) -> bool
    ensures { result ≡ (one_test (tree left.now) && one_test (tree right.now)) }
{
    left.is_one() && right.is_one()
}

impl Halves {
    /// The halves of the id that owns the points of the place with this number below the root. Takes no memory.
    pub fn of_single(number: u64) -> Halves
        ensures { pair (tree result.left) (tree result.right) ≡ tree (nodes.Single number) }
    {
        let half = Node::of_place(number / 2);
        if number % 2 == 0 {
            Halves {
                left: half,
                right: Node::Zero,
            }
        } else {
            Halves {
                left: Node::Zero,
                right: half,
            }
        }
    }

    #[cycle(deep)]
    fn depth(&self) -> u32
        requires { depth_of (pair (tree self.now.left) (tree self.now.right)) < 2 ^ 32 }
        ensures { result ≡ depth_of (pair (tree self.now.left) (tree self.now.right)) }
    {
        self.left.depth().max(self.right.depth()) + 1
    }

    #[cycle(owning)]
    fn has(&self, point: &[bool]) -> bool
        requires { depth_of (pair (tree self.now.left) (tree self.now.right)) ≤ length point.now }
        ensures { result ≡ owns (pair (tree self.now.left) (tree self.now.right)) point.now }
    {
        if point[0] {
            self.right.has(&point[1..])
        } else {
            self.left.has(&point[1..])
        }
    }

    #[cycle(apart)]
    fn is_disjoint(&self, other: &Halves) -> bool
        ensures { result ≡ are_disjoint (pair (tree self.now.left) (tree self.now.right)) (pair (tree other.now.left) (tree other.now.right)) }
    {
        self.left.is_disjoint(&other.left) && self.right.is_disjoint(&other.right)
    }

    #[cycle(single)]
    fn is_single_at(&self, at: u32) -> bool
        ensures { result ≡ is_single (pair (tree self.now.left) (tree self.now.right)) at }
    {
        match (&self.left, &self.right) {
            (Node::Zero, id) => at > 0 && id.is_single_at(at - 1),
            (id, Node::Zero) => at > 0 && id.is_single_at(at - 1),
            _ => false,
        }
    }

    #[cycle(divide)]
    fn split(&self, alloc: Global) -> Result<(Node, Node), AllocError>
        ensures { IfOk result (λ two. (tree two.0, tree two.1) ≡ parts (pair (tree self.now.left) (tree self.now.right))) }
    {
        match (&self.left, &self.right) {
            (Node::Zero, id) => {
                let (first, second) = id.split(alloc)?;
                let first = Node::pair_of(alloc, Node::Zero, first)?;
                let second = Node::pair_of(alloc, Node::Zero, second)?;
                Ok((first, second))
            }
            (id, Node::Zero) => {
                let (first, second) = id.split(alloc)?;
                let first = Node::pair_of(alloc, first, Node::Zero)?;
                let second = Node::pair_of(alloc, second, Node::Zero)?;
                Ok((first, second))
            }
            (left, right) => {
                let first = Node::pair_of(alloc, left.copy_of(alloc)?, Node::Zero)?;
                let second = Node::pair_of(alloc, Node::Zero, right.copy_of(alloc)?)?;
                Ok((first, second))
            }
        }
    }

    #[cycle(add)]
    fn sum(alloc: Global, first: &Halves, second: &Halves) -> Result<Node, AllocError>
        requires { IsTrue (are_disjoint (pair (tree first.now.left) (tree first.now.right)) (pair (tree second.now.left) (tree second.now.right))) }
        ensures { IfOk result (λ node. tree node ≡ sum_of (pair (tree first.now.left) (tree first.now.right)) (pair (tree second.now.left) (tree second.now.right))) }
    {
        let left = Node::sum(alloc, &first.left, &second.left)?;
        let right = Node::sum(alloc, &first.right, &second.right)?;
        Node::norm_of(alloc, left, right)
    }

    /// The sum of the id with these halves and another.
    #[cycle(add)]
    fn sum_with(&self, alloc: Global, whole: &Node, other: &Node) -> Result<Node, AllocError>
        requires whole { pair (tree self.now.left) (tree self.now.right) ≡ tree whole.now }
        requires apart { IsTrue (are_disjoint (pair (tree self.now.left) (tree self.now.right)) (tree other.now)) }
        ensures { IfOk result (λ node. tree node ≡ sum_of (pair (tree self.now.left) (tree self.now.right)) (tree other.now)) }
    {
        match other {
            Node::Zero => whole.copy_of(alloc),
            Node::One => unreachable!(),
            Node::Single(number) => Halves::sum(alloc, self, &Halves::of_single(*number)),
            Node::Pair(halves) => Halves::sum(alloc, self, halves),
        }
    }

    /// Leaves the halves of the first part here and returns the second part.
    #[cycle(divide_off)]
    fn split_off(&mut self, alloc: Global) -> Result<Node, AllocError>
        ensures ok { IfOk result (λ second. (pair (tree self.new.left) (tree self.new.right), tree second) ≡ parts (pair (tree self.old.left) (tree self.old.right))) }
        ensures err { OnErr result (pair (tree self.new.left) (tree self.new.right) ≡ pair (tree self.old.left) (tree self.old.right)) }
    {
        // The box is taken first, so that nothing was changed where memory runs out.
        let empty = Halves {
            left: Node::Zero,
            right: Node::Zero,
        };
        let mut second = Box::new(alloc, empty)?;
        match self.split_into(alloc, &mut second) {
            Ok(()) => Ok(Node::of_box(second)),
            Err(fault) => Err(fault),
        }
    }

    /// Leaves the halves of the first part here, and those of the second in these, which are 0.
    #[cycle(divide_off)]
    fn split_into(&mut self, alloc: Global, second: &mut Halves) -> Result<(), AllocError>
        requires { (tree second.old.left ≡ zero_id) × (tree second.old.right ≡ zero_id) }
        ensures ok { OnOk result ((pair (tree self.new.left) (tree self.new.right), pair (tree second.new.left) (tree second.new.right)) ≡ parts (pair (tree self.old.left) (tree self.old.right))) }
        ensures err { OnErr result (pair (tree self.new.left) (tree self.new.right) ≡ pair (tree self.old.left) (tree self.old.right)) }
    {
        match (&self.left, &self.right) {
            (Node::Zero, _) => {
                second.right = self.right.split_off(alloc)?;
                Ok(())
            }
            (_, Node::Zero) => {
                second.left = self.left.split_off(alloc)?;
                Ok(())
            }
            _ => {
                second.right = mem::replace(&mut self.right, Node::Zero);
                Ok(())
            }
        }
    }
}

impl Node {
    /// The id that owns the points of the place with this number. Takes no memory.
    fn of_place(number: u64) -> Node
        ensures { tree result ≡ single 64 number }
    {
        if number == 0 {
            Node::One
        } else {
            Node::Single(number - 1)
        }
    }

    /// The pair of these halves in their box, or without it where it owns the points of one place that has a number. Takes no
    /// memory.
    fn of_box(halves: Box<Halves>) -> Node
        ensures { tree result ≡ pair (tree halves.value.left) (tree halves.value.right) }
    {
        match number_of(&halves.left, &halves.right) {
            Some(number) => Node::Single(number),
            None => Node::Pair(halves),
        }
    }

    /// The pair of two ids as it stands. Takes one box, or none where it owns the points of one place that has a number.
    pub fn pair_of(alloc: Global, left: Node, right: Node) -> Result<Node, AllocError>
        ensures { IfOk result (λ node. tree node ≡ pair (tree left) (tree right)) }
    {
        if let Some(number) = number_of(&left, &right) {
            return Ok(Node::Single(number));
        }
        Ok(Node::Pair(Box::new(alloc, Halves { left, right })?))
    }

    /// The pair of two ids, with (0,0) written 0 and (1,1) written 1.
    /// Takes at most one box.
    pub fn norm_of(alloc: Global, left: Node, right: Node) -> Result<Node, AllocError>
        ensures { IfOk result (λ node. tree node ≡ norm (tree left) (tree right)) }
    {
        if are_zero(&left, &right) {
            return Ok(Node::Zero);
        }
        if are_one(&left, &right) {
            return Ok(Node::One);
        }
        Node::pair_of(alloc, left, right)
    }

    /// The same tree once more. Takes at most a box a pair, and visits each node once.
    pub fn copy_of(&self, alloc: Global) -> Result<Node, AllocError>
        ensures { IfOk result (λ node. tree node ≡ tree self.now) }
    {
        match self {
            Node::Zero => Ok(Node::Zero),
            Node::One => Ok(Node::One),
            Node::Single(number) => Ok(Node::Single(*number)),
            Node::Pair(halves) => {
                let left = halves.left.copy_of(alloc)?;
                let right = halves.right.copy_of(alloc)?;
                Node::pair_of(alloc, left, right)
            }
        }
    }

    /// Whether this is 0. Takes no memory, and looks at one node.
    pub fn is_zero(&self) -> bool
        ensures { result ≡ zero_test (tree self.now) }
    {
        match self {
            Node::Zero => true,
            Node::Single(_) => false,
            Node::One | Node::Pair(_) => false,
        }
    }

    /// Whether this is 1. Takes no memory, and looks at one node.
    fn is_one(&self) -> bool
        ensures { result ≡ one_test (tree self.now) }
    {
        match self {
            Node::One => true,
            Node::Single(_) => false,
            Node::Zero | Node::Pair(_) => false,
        }
    }

    /// The number of pairs on the longest way to a leaf.
    /// Takes no memory, and visits each node once.
    #[cycle(deep)]
    pub(crate) fn depth(&self) -> u32
        requires { depth_of (tree self.now) < 2 ^ 32 }
        ensures { result ≡ depth_of (tree self.now) }
    {
        match self {
            Node::Zero | Node::One => 0,
            Node::Single(number) => Halves::of_single(*number).depth(),
            Node::Pair(halves) => halves.depth(),
        }
    }

    /// Whether the id owns a point; `false` in the point is left.
    /// Takes no memory, and visits one node a level.
    #[cycle(owning)]
    pub(crate) fn has(&self, point: &[bool]) -> bool
        requires { depth_of (tree self.now) ≤ length point.now }
        ensures { result ≡ owns (tree self.now) point.now }
    {
        match self {
            Node::Zero => false,
            Node::One => true,
            Node::Single(number) => Halves::of_single(*number).has(point),
            Node::Pair(halves) => halves.has(point),
        }
    }

    /// Whether no point is owned by both, where the trees are normal.
    /// Takes no memory, and visits each node of the two trees at most once.
    #[cycle(apart)]
    pub(crate) fn is_disjoint(&self, other: &Node) -> bool
        ensures { result ≡ are_disjoint (tree self.now) (tree other.now) }
    {
        match (self, other) {
            (Node::Zero, _) => true,
            (_, Node::Zero) => true,
            (Node::Pair(a), Node::Pair(b)) => a.is_disjoint(b),
            (Node::Pair(a), Node::Single(b)) => a.is_disjoint(&Halves::of_single(*b)),
            (Node::Single(a), Node::Pair(b)) => Halves::of_single(*a).is_disjoint(b),
            (Node::Single(a), Node::Single(b)) => {
                Halves::of_single(*a).is_disjoint(&Halves::of_single(*b))
            }
            _ => false,
        }
    }

    /// Whether the id has a single 1, at this depth, and no pair of two 0.
    /// Takes no memory, and visits at most one pair a level.
    #[cycle(single)]
    pub fn is_single_at(&self, at: u32) -> bool
        ensures { result ≡ is_single (tree self.now) at }
    {
        match self {
            Node::Zero => false,
            Node::One => at == 0,
            Node::Single(number) => Halves::of_single(*number).is_single_at(at),
            Node::Pair(halves) => halves.is_single_at(at),
        }
    }

    /// The two parts of the id. Takes boxes, and visits each node at most once.
    #[cycle(divide)]
    pub(crate) fn split(&self, alloc: Global) -> Result<(Node, Node), AllocError>
        ensures { IfOk result (λ two. (tree two.0, tree two.1) ≡ parts (tree self.now)) }
    {
        match self {
            Node::Zero => Ok((Node::Zero, Node::Zero)),
            Node::One => {
                let first = Node::pair_of(alloc, Node::One, Node::Zero)?;
                let second = Node::pair_of(alloc, Node::Zero, Node::One)?;
                Ok((first, second))
            }
            Node::Single(number) => Halves::of_single(*number).split(alloc),
            Node::Pair(halves) => halves.split(alloc),
        }
    }

    /// The sum of two ids with no point in common.
    /// Takes boxes, and visits each node of the two trees at most once.
    #[cycle(add)]
    pub(crate) fn sum(alloc: Global, left: &Node, right: &Node) -> Result<Node, AllocError>
        requires { IsTrue (are_disjoint (tree left.now) (tree right.now)) }
        ensures { IfOk result (λ node. tree node ≡ sum_of (tree left.now) (tree right.now)) }
    {
        match left {
            Node::Zero => right.copy_of(alloc),
            Node::One => match right {
                Node::Zero => Ok(Node::One),
                _ => unreachable!(),
            },
            Node::Single(number) => Halves::of_single(*number).sum_with(alloc, left, right),
            Node::Pair(halves) => halves.sum_with(alloc, left, right),
        }
    }

    /// Leaves the first part of the id here and returns the second. The halves of a pair are moved, and none is
    /// copied. Takes at most one box a pair on the way to where the id is divided, and two more; what fails leaves the id as
    /// it was.
    #[cycle(divide_off)]
    pub(crate) fn split_off(&mut self, alloc: Global) -> Result<Node, AllocError>
        ensures ok { IfOk result (λ second. (tree self.new, tree second) ≡ parts (tree self.old)) }
        ensures err { OnErr result (tree self.new ≡ tree self.old) }
    {
        match mem::replace(self, Node::Zero) {
            Node::Pair(mut halves) => {
                let second = halves.split_off(alloc);
                *self = Node::of_box(halves);
                second
            }
            id => match id.split(alloc) {
                Ok((first, second)) => {
                    *self = first;
                    Ok(second)
                }
                Err(fault) => {
                    *self = id;
                    Err(fault)
                }
            },
        }
    }
}
