ghost use Rattle.std.specs.Prelude.{◌≡◌, ◌≤◌, ◌↔◌, not, length, IfOk, OnErr, IsTrue, IsErrOf, IsOkUnless};
ghost use Rattle.pana_id.specs.Id.{zero_id, one_id, depth as depth_of, has as owns, is_zero as zero_test, parts, sum_of, are_disjoint, is_single, IsNormal, Id, IsValid, SharesNoPoint, IsParted, IsSum};
ghost use Rattle.pana_id.specs.Node.{tree};

use crate::id_fault::IdFault;
use crate::node::Node;
use std::alloc::Global;
use std::marker::Model;

/// An id tree. Every id that a call gives is in normal form and at most 256 deep.
///
/// It isn't `Clone`: an id that was divided belongs to its parts, and no point has two owners.
#[derive(Drop)]
pub struct IdTree {
    node: Node,
}

impl Model for IdTree {
    ghost use Rattle.pana_id.specs.Id.{Id, IsValid};
    ghost use Rattle.pana_id.specs.Stored.{id_code};

    ghost Value = { Id };

    ghost coded = { id_code };

    ghost use Rattle.pana_id.specs.Node.{tree};

    ghost view = { λ a. tree a.node };

    ghost invariant = { λ a. IsValid (tree a.node) };
}

const MAX_DEPTH: u32 = 256;

impl IdTree {
    /// The id that owns no point. Takes no memory.
    pub fn zero() -> IdTree
        ensures { result ≡ zero_id }
    {
        IdTree { node: Node::Zero }
    }

    /// The id that owns all points. Takes no memory.
    pub fn one() -> IdTree
        ensures { result ≡ one_id }
    {
        IdTree { node: Node::One }
    }

    /// The id of a tree that is normal and at most 256 deep. Takes no memory.
    pub fn of_node(node: Node) -> IdTree
        requires normal { IsNormal (tree node) }
        requires within { depth_of (tree node) ≤ 256 }
        ensures { result ≡ tree node }
    {
        IdTree { node }
    }

    /// The tree of the id. Takes no memory.
    pub fn node(&self) -> &Node
        ensures same { tree result.now ≡ self.now }
        ensures valid { IsValid self.now }
    {
        &self.node
    }

    /// Whether the id owns no point. Takes no memory, and looks at one node.
    pub fn is_zero(&self) -> bool
        ensures { result ≡ zero_test self.now }
    {
        self.node.is_zero()
    }

    /// The number of pairs on the longest way to a leaf.
    /// Takes no memory, and visits each node once.
    pub fn depth(&self) -> u32
        ensures { result ≡ depth_of self.now }
    {
        self.node.depth()
    }

    /// Whether the id owns a point of 256 choices; `false` in it is left.
    /// Takes no memory, and visits one node a level.
    pub fn has(&self, point: &[bool]) -> bool
        requires { length point.now ≡ 256 }
        ensures { result ≡ owns self.now point.now }
    {
        self.node.has(point)
    }

    /// Whether no point is owned by both.
    /// Takes no memory, and visits each node of the two trees at most once.
    pub fn disjoint(left: &IdTree, right: &IdTree) -> bool
        ensures points { IsTrue result ↔ SharesNoPoint left.now right.now }
        ensures test { result ≡ are_disjoint left.now right.now }
    {
        left.node.is_disjoint(&right.node)
    }

    /// Whether both parts of the id stay within the limit: false exactly where the id has a single 1, at depth 256.
    /// Takes no memory, and visits at most one pair a level.
    pub fn splits(&self) -> bool
        ensures { result ≡ not (is_single self.now 256) }
    {
        !self.node.is_single_at(MAX_DEPTH)
    }

    /// Divides the id into two parts, by the split of Interval Tree Clocks. Each point that the id
    /// owns is then owned by exactly one part, and neither part is 0 where the id isn't.
    ///
    /// `TooDeep` comes exactly where the id has a single 1, at depth 256, and before memory is taken.
    /// `OutOfMemory` comes where an allocation failed. The id stays as it is in any case.
    /// Takes at most two boxes a pair of the id and two more, and visits each node at most twice.
    pub fn split(&self, alloc: Global) -> Result<(IdTree, IdTree), IdFault>
        ensures trees { IfOk result (λ two. two ≡ parts self.now) }
        ensures parted { IfOk result (λ two. IsParted self.now two.0 two.1) }
        ensures too_deep { IsErrOf result IdFault.TooDeep ↔ IsTrue (is_single self.now 256) }
    {
        if !self.splits() {
            return Err(IdFault::TooDeep);
        }
        let (first, second) = self.node.split(alloc)?;
        Ok((IdTree { node: first }, IdTree { node: second }))
    }

    /// The sum of two ids with no point in common, by the sum of Interval Tree Clocks: it owns what
    /// either owns.
    ///
    /// `OutOfMemory` comes where an allocation failed, and no other error. The two ids stay as they are.
    /// Takes at most a box a pair of the two, and visits each node of them at most once.
    pub fn sum(alloc: Global, left: &IdTree, right: &IdTree) -> Result<IdTree, IdFault>
        requires { SharesNoPoint left.now right.now }
        ensures tree { IfOk result (λ whole. whole ≡ sum_of left.now right.now) }
        ensures summed { IfOk result (λ whole. IsSum whole left.now right.now) }
        ensures only_memory { IsOkUnless result IdFault.OutOfMemory }
    {
        let whole = Node::sum(alloc, &left.node, &right.node)?;
        Ok(IdTree { node: whole })
    }

    /// Divides the id in place: leaves the first part of `split` here and returns the second. The halves of the
    /// tree are moved, and none is copied.
    ///
    /// # Errors
    ///
    /// `TooDeep` exactly where the id has a single 1, at depth 256, and before memory is taken. `OutOfMemory`
    /// where an allocation failed. The id is then as it was. Takes at most a box a pair on the way to where the
    /// id is divided, and two more; visits at most one pair a level.
    pub fn split_off(&mut self, alloc: Global) -> Result<IdTree, IdFault>
        ensures trees { IfOk result (λ second. (self.new, second) ≡ parts self.old) }
        ensures parted { IfOk result (λ second. IsParted self.old self.new second) }
        ensures err { OnErr result (self.new ≡ self.old) }
        ensures too_deep { IsErrOf result IdFault.TooDeep ↔ IsTrue (is_single self.old 256) }
    {
        if !self.splits() {
            return Err(IdFault::TooDeep);
        }
        let second = self.node.split_off(alloc)?;
        Ok(IdTree { node: second })
    }
}
