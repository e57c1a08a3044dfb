//! Events in a text: a pass that checks and takes no memory, and a pass that builds.
ghost use Rattle.std.specs.Prelude.{◌≡◌};
ghost use Rattle.pana_event.specs.Shape.{tree};
ghost use Rattle.pana_text.specs.inner.Reading.{Gives, Reads, event_at, fork_closed, leaf_at};
ghost use Rattle.pana_text.specs.inner.Limits.{capped_events, event_kinds, fork_kind, leaf_kind, sum_fitted, max_fitted};

use crate::bytes::{after, fork_number_at, number_at};
use crate::fault::TextFault;
use pana_event::Node;
use std::alloc::Global;

/// What the check keeps of an event.
#[derive(Clone, Copy)]
pub(crate) struct EventKind {
    pub(crate) is_leaf_zero: bool,
    /// Whether the own number is 0.
    pub(crate) from_zero: bool,
    /// Whether each fork in it has a half from 0, and none has two leaves 0.
    pub(crate) is_normal: bool,
    /// The greatest level, `None` where it is above the greatest `u64`.
    pub(crate) greatest: Option<u64>,
}

fn sum_fitted(number: Option<u64>, other: Option<u64>) -> Option<u64>
    ensures { result ≡ sum_fitted number other }
{
    number?.checked_add(other?)
}

fn max_fitted(number: Option<u64>, other: Option<u64>) -> Option<u64>
    ensures { result ≡ max_fitted number other }
{
    Some(number?.max(other?))
}

impl EventKind {
    fn of_leaf(number: Option<u64>) -> EventKind
        ensures { result ≡ leaf_kind number }
    {
        EventKind {
            is_leaf_zero: number == Some(0),
            from_zero: number == Some(0),
            is_normal: true,
            greatest: number,
        }
    }

    fn of_fork(number: Option<u64>, left: EventKind, right: EventKind) -> EventKind
        ensures { result ≡ fork_kind number left right }
    {
        EventKind {
            is_leaf_zero: false,
            from_zero: number == Some(0),
            is_normal: left.is_normal
                && right.is_normal
                && (left.from_zero || right.from_zero)
                && !(left.is_leaf_zero && right.is_leaf_zero),
            greatest: sum_fitted(number, max_fitted(left.greatest, right.greatest)),
        }
    }
}

fn check_leaf(text: &[u8], total: usize) -> Result<(EventKind, &[u8]), TextFault>
    ensures { Reads (λ x. (x.0, x.1.now)) result (leaf_at event_kinds total text.now) }
{
    let (number, rest) = number_at(text, total)?;
    Ok((EventKind::of_leaf(number), rest))
}

/// What is kept of the event that the text begins with, and what follows it. `deeper` more forks may open.
#[tactic(auto, using(crate::proofs::Steps::deeper))]
pub(crate) fn check_event(
    text: &[u8],
    deeper: u32,
    total: usize,
) -> Result<(EventKind, &[u8]), TextFault>
    ensures { Reads (λ x. (x.0, x.1.now)) result (event_at event_kinds total deeper text.now) }
{
    match text {
        [b'(', rest @ ..] => {
            if deeper == 0 {
                return Err(TextFault::TooDeep);
            }
            let (number, rest) = fork_number_at(rest, total)?;
            let (left, rest) = check_event(rest, deeper - 1, total)?;
            let rest = after(rest, b',', total)?;
            let (right, rest) = check_event(rest, deeper - 1, total)?;
            let rest = after(rest, b')', total)?;
            Ok((EventKind::of_fork(number, left, right), rest))
        }
        _ => check_leaf(text, total),
    }
}

/// A number above the greatest `u64` is taken for that.
fn build_leaf(text: &[u8], total: usize) -> Result<(Node, &[u8]), TextFault>
    ensures { Gives (λ x. (tree x.0, x.1.now)) result (leaf_at capped_events total text.now) }
{
    let (number, rest) = number_at(text, total)?;
    Ok((Node::Leaf(number.unwrap_or(u64::MAX)), rest))
}

/// The fork of these parts, after which a parenthesis closes. Takes a box.
/// A number above the greatest `u64` is taken for that.
fn build_fork(
    alloc: Global,
    number: Option<u64>,
    left: Node,
    right: Node,
    rest: &[u8],
    total: usize,
) -> Result<(Node, &[u8]), TextFault>
    ensures { Gives (λ x. (tree x.0, x.1.now)) result (fork_closed capped_events total number (tree left) (tree right, rest.now)) }
{
    let rest = after(rest, b')', total)?;
    let number = number.unwrap_or(u64::MAX);
    Ok((Node::fork_of(alloc, number, left, right)?, rest))
}

/// The event that the text begins with, and what follows it. `deeper` more forks may open. Takes a box a fork.
/// A number above the greatest `u64` is taken for that.
#[tactic(auto, using(crate::proofs::Steps::deeper))]
pub(crate) fn build_event(
    alloc: Global,
    text: &[u8],
    deeper: u32,
    total: usize,
) -> Result<(Node, &[u8]), TextFault>
    ensures { Gives (λ x. (tree x.0, x.1.now)) result (event_at capped_events total deeper text.now) }
{
    match text {
        [b'(', rest @ ..] => {
            if deeper == 0 {
                return Err(TextFault::TooDeep);
            }
            let (number, rest) = fork_number_at(rest, total)?;
            let (left, rest) = build_event(alloc, rest, deeper - 1, total)?;
            let rest = after(rest, b',', total)?;
            let (right, rest) = build_event(alloc, rest, deeper - 1, total)?;
            build_fork(alloc, number, left, right, rest, total)
        }
        _ => build_leaf(text, total),
    }
}
