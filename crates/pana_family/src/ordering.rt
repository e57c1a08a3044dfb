//! Whether one stamp's copy knows all that another's does, asked first where it is most likely that it doesn't.
ghost use Rattle.std.specs.Prelude.{◌≡◌, ◌+◌, ◌^◌, ◌<◌, if◌then◌else◌};
ghost use Rattle.pana_event.specs.Event.{greatest};
ghost use Rattle.pana_event.specs.Order.{is_below, is_leq};
ghost use Rattle.pana_event.specs.Relation.{tested_relation};
ghost use Rattle.pana_event.specs.Shape.{tree};
ghost use Rattle.pana_event.specs.declared.rel.Rel.TheVariants.{Equal, Older, Newer, Conflict};

use pana_event::{Node, Rel};
use pana_id::{Halves as IdHalves, Node as IdNode};
use pana_stamp::Stamp;

/// Whether the event is below another, as `is_below` of its node says it, looked at first where the id owns points: there an
/// owner's latest updates are, which others may lack. Takes no memory; visits each node at most once.
#[cycle(order)]
fn is_below_by(id: &IdNode, event: &Node, base: u64, other: &Node, other_base: u64) -> bool
    requires first { base + greatest (tree event.now) < 2 ^ 64 }
    requires second { other_base + greatest (tree other.now) < 2 ^ 64 }
    ensures { result ≡ is_below base (tree event.now) other_base (tree other.now) }
{
    match id {
        IdNode::Zero | IdNode::One => event.is_below(base, other, other_base),
        IdNode::Single(number) => {
            let ids = IdHalves::of_single(*number);
            is_below_in(&ids, event, base, other, other_base)
        }
        IdNode::Pair(ids) => is_below_in(ids, event, base, other, other_base),
    }
}

/// The same for the id with these halves.
#[cycle(order)]
fn is_below_in(ids: &IdHalves, event: &Node, base: u64, other: &Node, other_base: u64) -> bool
    requires first { base + greatest (tree event.now) < 2 ^ 64 }
    requires second { other_base + greatest (tree other.now) < 2 ^ 64 }
    ensures { result ≡ is_below base (tree event.now) other_base (tree other.now) }
{
    match (event, other) {
        (Node::Fork(m, halves), Node::Fork(n, others)) => {
            let lifted = base + *m;
            let other_lifted = other_base + *n;
            if lifted > other_lifted {
                return false;
            }
            if ids.right.is_zero() {
                is_below_by(&ids.left, &halves.left, lifted, &others.left, other_lifted)
                    && halves.right.is_below(lifted, &others.right, other_lifted)
            } else {
                is_below_by(
                    &ids.right,
                    &halves.right,
                    lifted,
                    &others.right,
                    other_lifted,
                ) && halves.left.is_below(lifted, &others.left, other_lifted)
            }
        }
        _ => event.is_below(base, other, other_base),
    }
}

/// Whether the second stamp's copy knows all that the first's does. Takes no memory; visits each node at most once.
pub fn is_leq(first: &Stamp, second: &Stamp) -> bool
    ensures { result ≡ is_leq first.now.event second.now.event }
{
    let event = first.event_tree().node();
    let other = second.event_tree().node();
    is_below_by(first.id().node(), event, 0, other, 0)
}

/// The relation of two copies, of which the first knows no more, and knows all, where this is said.
pub fn relation_of(below: bool, above: bool) -> Rel
    ensures { result ≡ if below then (if above then Equal else Older) else (if above then Newer else Conflict) }
{
    match (below, above) {
        (true, true) => Rel::Equal,
        (true, false) => Rel::Older,
        (false, true) => Rel::Newer,
        (false, false) => Rel::Conflict,
    }
}

/// How the first stamp's copy relates to the second's. Takes no memory; visits each node at most twice.
pub fn compare(first: &Stamp, second: &Stamp) -> Rel
    ensures { result ≡ tested_relation first.now.event second.now.event }
{
    relation_of(is_leq(first, second), is_leq(second, first))
}
