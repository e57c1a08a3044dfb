use crate::notation::id_text;
use pana_id::{IdFault, IdTree, Node};
use std::mem::size_of;
use std::test::Fail;

#[test]
fn divides_and_joins(rt: HostRuntime) -> Result<(), Fail> {
    let alloc = rt.alloc();
    let (left, right) = IdTree::one().split(alloc)?;
    assert_eq!(rt; id_text(alloc, left.node())?.as_str(), "(1,0)");
    assert_eq!(rt; id_text(alloc, right.node())?.as_str(), "(0,1)");

    let (first, _second) = left.split(alloc)?;
    assert_eq!(rt; id_text(alloc, first.node())?.as_str(), "((1,0),0)");

    assert!(rt; IdTree::disjoint(&first, &right));
    let joined = IdTree::sum(alloc, &first, &right)?;
    assert_eq!(rt; id_text(alloc, joined.node())?.as_str(), "((1,0),1)");

    let (a, b) = joined.split(alloc)?;
    assert_eq!(rt; id_text(alloc, a.node())?.as_str(), "((1,0),0)");
    assert_eq!(rt; id_text(alloc, b.node())?.as_str(), "(0,1)");
    Ok(())
}

#[test]
fn builds_nodes(rt: HostRuntime) -> Result<(), Fail> {
    let alloc = rt.alloc();
    let half = Node::pair_of(alloc, Node::One, Node::Zero)?;
    let copy = half.copy_of(alloc)?;
    let pair = Node::norm_of(alloc, half, copy)?;
    assert_eq!(rt; id_text(alloc, &pair)?.as_str(), "((1,0),(1,0))");
    let one = Node::norm_of(alloc, Node::One, Node::One)?;
    assert_eq!(rt; id_text(alloc, &one)?.as_str(), "1");
    Ok(())
}

// An id of one place takes no box, down to some sixty choices.
#[test]
fn one_place_takes_no_box(rt: HostRuntime) -> Result<(), Fail> {
    let alloc = rt.alloc();
    let (left, right) = IdTree::one().split(alloc)?;
    assert!(rt; matches!(left.node(), Node::Single(0)));
    assert!(rt; matches!(right.node(), Node::Single(1)));
    let (_first, second) = right.split(alloc)?;
    assert!(rt; matches!(second.node(), Node::Single(5)));
    assert_eq!(rt; id_text(alloc, second.node())?.as_str(), "(0,(0,1))");
    assert_eq!(rt; size_of::<Node>(), 16);
    Ok(())
}

// The deepest id is divided, printed and taken back on little enough stack.
#[test]
fn divides_in_place_and_adds_up(rt: HostRuntime) -> Result<(), Fail> {
    let alloc = rt.alloc();
    let mut id = IdTree::one();
    let mut given = Vec::new(alloc);
    for _ in 0..256 {
        given.push(id.split_off(alloc)?)?;
    }
    let deepest = id_text(alloc, id.node())?;
    assert!(rt; matches!(id.split_off(alloc), Err(IdFault::TooDeep)));
    assert_eq!(rt; id_text(alloc, id.node())?.as_str(), deepest.as_str());
    for part in given.into_iter().rev() {
        assert!(rt; IdTree::disjoint(&id, &part));
        id = IdTree::sum(alloc, &id, &part)?;
    }
    assert_eq!(rt; id_text(alloc, id.node())?.as_str(), "1");
    Ok(())
}
