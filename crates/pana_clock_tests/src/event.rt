use crate::notation::event_text;
use pana_event::{EventTree, Halves, Node};
use std::alloc::{AllocError, Global};
use std::mem::size_of;
use std::test::Fail;

fn leaf(level: u64) -> EventTree {
    EventTree::of_node(Node::Leaf(level))
}

// (0,1,0)
fn left(alloc: Global) -> Result<EventTree, AllocError> {
    let node = Node::fork_of(alloc, 0, Node::Leaf(1), Node::Leaf(0))?;
    Ok(EventTree::of_node(node))
}

// (0,0,1)
fn right(alloc: Global) -> Result<EventTree, AllocError> {
    let node = Node::fork_of(alloc, 0, Node::Leaf(0), Node::Leaf(1))?;
    Ok(EventTree::of_node(node))
}

// (1,0,3)
fn three(alloc: Global) -> Result<EventTree, AllocError> {
    let node = Node::fork_of(alloc, 1, Node::Leaf(0), Node::Leaf(3))?;
    Ok(EventTree::of_node(node))
}

#[test]
fn joins(rt: HostRuntime) -> Result<(), Fail> {
    let alloc = rt.alloc();
    let zero = EventTree::zero();
    let one = leaf(1);
    let two = leaf(2);
    let left = left(alloc)?;
    let right = right(alloc)?;
    let three = three(alloc)?.share()?;
    for (first, second, want) in [
        (&left, &right, "1"),
        (&right, &left, "1"),
        (&two, &three, "(2,0,2)"),
        (&three, &two, "(2,0,2)"),
        (&one, &two, "2"),
        (&left, &three, "(1,0,3)"),
        (&zero, &left, "(0,1,0)"),
    ] {
        let join = EventTree::join(alloc, first, second)?;
        assert_eq!(rt; event_text(alloc, join.node())?.as_str(), want);
    }
    Ok(())
}

// The drop of the deepest tree uses little enough stack.
#[test]
fn deepest(rt: HostRuntime) -> Result<(), Fail> {
    let alloc = rt.alloc();
    let mut node = Node::Leaf(1);
    for _ in 0..256 {
        node = Node::fork_of(alloc, 0, node, Node::Leaf(0))?;
    }
    let copy = node.share()?;
    assert_eq!(rt;
        event_text(alloc, &copy)?.len(),
        event_text(alloc, &node)?.len()
    );
    Ok(())
}

// What a fork costs: one box of two nodes.
#[test]
fn sizes(rt: HostRuntime) {
    assert_eq!(rt; size_of::<Node>(), 24);
    assert_eq!(rt; size_of::<Halves>(), 48);
}
