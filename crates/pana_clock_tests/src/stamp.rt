ghost use Rattle.std.specs.Prelude.{◌≡◌, IfOk};
ghost use Rattle.pana_event.specs.Event.{fork, leaf};
ghost use Rattle.pana_id.specs.Id.{one_id, pair, zero_id};

use crate::notation::{event_text, id_text};
use pana_event::{EventTree, Node, Rel};
use pana_id::{IdTree, Node as IdNode};
use pana_stamp::{Cost, Stamp, grow};
use std::alloc::{AllocError, Global};
use std::test::Fail;

// (0,0,1)
fn right(alloc: Global) -> Result<EventTree, AllocError>
    ensures { IfOk result (λ event. event ≡ fork 0 (leaf 0) (leaf 1)) }
{
    let node = Node::fork_of(alloc, 0, Node::Leaf(0), Node::Leaf(1))?;
    Ok(EventTree::of_node(node))
}

#[test]
fn forks_and_joins(rt: HostRuntime) -> Result<(), Fail> {
    let alloc = rt.alloc();
    let (first, second) = Stamp::seed().fork(alloc)?;
    assert_eq!(rt; id_text(alloc, first.id().node())?.as_str(), "(1,0)");
    assert_eq!(rt; id_text(alloc, second.id().node())?.as_str(), "(0,1)");
    let joined = Stamp::join(alloc, &first, &second)?;
    assert_eq!(rt; id_text(alloc, joined.id().node())?.as_str(), "1");
    assert_eq!(rt;
        event_text(alloc, joined.event_tree().node())?.as_str(),
        "0"
    );
    Ok(())
}

#[test]
fn compares_two_copies(rt: HostRuntime) -> Result<(), Fail> {
    let alloc = rt.alloc();
    let (mut laptop, mut usb) = Stamp::seed().fork(alloc)?;
    assert!(rt; Stamp::compare(&usb, &laptop) == Rel::Equal);

    let edited = laptop.event(alloc)?;
    laptop.replace_event(edited);
    assert!(rt; Stamp::compare(&usb, &laptop) == Rel::Older);

    let edited = usb.event(alloc)?;
    usb.replace_event(edited);
    assert!(rt; Stamp::compare(&usb, &laptop) == Rel::Conflict);

    let merged = EventTree::join(alloc, usb.event_tree(), laptop.event_tree())?;
    usb.replace_event(merged);
    assert!(rt; Stamp::compare(&usb, &laptop) == Rel::Newer);
    Ok(())
}

// ((1,0),1)
fn three_quarters(alloc: Global) -> Result<IdTree, AllocError>
    ensures { IfOk result (λ id. id ≡ pair (pair one_id zero_id) one_id) }
{
    let left = IdNode::pair_of(alloc, IdNode::One, IdNode::Zero)?;
    Ok(IdTree::of_node(IdNode::pair_of(alloc, left, IdNode::One)?))
}

// ((1,0),(0,1))
fn outer_quarters(alloc: Global) -> Result<IdTree, AllocError>
    ensures { IfOk result (λ id. id ≡ pair (pair one_id zero_id) (pair zero_id one_id)) }
{
    let left = IdNode::pair_of(alloc, IdNode::One, IdNode::Zero)?;
    let right = IdNode::pair_of(alloc, IdNode::Zero, IdNode::One)?;
    Ok(IdTree::of_node(IdNode::pair_of(alloc, left, right)?))
}

#[test]
fn events(rt: HostRuntime) -> Result<(), Fail> {
    let alloc = rt.alloc();
    let stamp = Stamp::new(IdTree::one(), right(alloc)?);
    assert_eq!(rt;
        event_text(alloc, stamp.event(alloc)?.node())?.as_str(),
        "1"
    );
    let event = Stamp::seed().event(alloc)?;
    assert_eq!(rt; event_text(alloc, event.node())?.as_str(), "1");
    Ok(())
}

#[test]
fn grows(rt: HostRuntime) -> Result<(), Fail> {
    let alloc = rt.alloc();
    let zero = EventTree::zero();

    let (grown, cost) = grow(alloc, &three_quarters(alloc)?, &zero)?;
    assert_eq!(rt; event_text(alloc, grown.node())?.as_str(), "(0,0,1)");
    assert!(rt;
        cost == Cost {
            opened: 1,
            levels: 1
        }
    );

    let (grown, cost) = grow(alloc, &three_quarters(alloc)?, &right(alloc)?)?;
    assert_eq!(rt; event_text(alloc, grown.node())?.as_str(), "(0,0,2)");
    assert!(rt;
        cost == Cost {
            opened: 0,
            levels: 1
        }
    );

    let (grown, cost) = grow(alloc, &outer_quarters(alloc)?, &zero)?;
    assert_eq!(rt; event_text(alloc, grown.node())?.as_str(), "(0,0,(0,0,1))");
    assert!(rt;
        cost == Cost {
            opened: 2,
            levels: 2
        }
    );
    Ok(())
}
