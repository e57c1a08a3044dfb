//! Ids in a text: a pass that checks and takes no memory, and a pass that builds.
ghost use Rattle.std.specs.Prelude.{◌≡◌};
ghost use Rattle.pana_id.specs.Node.{tree};
ghost use Rattle.pana_text.specs.inner.Reading.{Gives, Reads, id_at, ids};
ghost use Rattle.pana_text.specs.inner.Limits.{id_kinds, one_kind, pair_kind, zero_kind};

use crate::bytes::{after, syntax_at};
use crate::fault::TextFault;
use pana_id::Node;
use std::alloc::Global;

/// What the check keeps of an id.
#[derive(Clone, Copy)]
pub(crate) struct IdKind {
    pub(crate) is_zero: bool,
    pub(crate) is_one: bool,
    /// Whether no pair in it has two 0 or two 1.
    pub(crate) is_normal: bool,
}

impl IdKind {
    fn of_zero() -> IdKind
        ensures { result ≡ zero_kind }
    {
        IdKind {
            is_zero: true,
            is_one: false,
            is_normal: true,
        }
    }

    fn of_one() -> IdKind
        ensures { result ≡ one_kind }
    {
        IdKind {
            is_zero: false,
            is_one: true,
            is_normal: true,
        }
    }

    fn of_pair(left: IdKind, right: IdKind) -> IdKind
        ensures { result ≡ pair_kind left right }
    {
        IdKind {
            is_zero: false,
            is_one: false,
            is_normal: left.is_normal
                && right.is_normal
                && !(left.is_zero && right.is_zero)
                && !(left.is_one && right.is_one),
        }
    }
}

/// What is kept of the id that the text begins with, and what follows it. `deeper` more pairs may open.
#[tactic(auto, using(crate::proofs::Steps::deeper))]
pub(crate) fn check_id(text: &[u8], deeper: u32, total: usize) -> Result<(IdKind, &[u8]), TextFault>
    ensures { Reads (λ x. (x.0, x.1.now)) result (id_at id_kinds total deeper text.now) }
{
    match text {
        [b'0', rest @ ..] => Ok((IdKind::of_zero(), rest)),
        [b'1', rest @ ..] => Ok((IdKind::of_one(), rest)),
        [b'(', rest @ ..] => {
            if deeper == 0 {
                return Err(TextFault::TooDeep);
            }
            let (left, rest) = check_id(rest, deeper - 1, total)?;
            let rest = after(rest, b',', total)?;
            let (right, rest) = check_id(rest, deeper - 1, total)?;
            let rest = after(rest, b')', total)?;
            Ok((IdKind::of_pair(left, right), rest))
        }
        _ => Err(syntax_at(text, total)),
    }
}

/// The id that the text begins with, and what follows it. `deeper` more pairs may open. Takes at most a box a pair.
#[tactic(auto, using(crate::proofs::Steps::deeper))]
pub(crate) fn build_id(
    alloc: Global,
    text: &[u8],
    deeper: u32,
    total: usize,
) -> Result<(Node, &[u8]), TextFault>
    ensures { Gives (λ x. (tree x.0, x.1.now)) result (id_at ids total deeper text.now) }
{
    match text {
        [b'0', rest @ ..] => Ok((Node::Zero, rest)),
        [b'1', rest @ ..] => Ok((Node::One, rest)),
        [b'(', rest @ ..] => {
            if deeper == 0 {
                return Err(TextFault::TooDeep);
            }
            let (left, rest) = build_id(alloc, rest, deeper - 1, total)?;
            let rest = after(rest, b',', total)?;
            let (right, rest) = build_id(alloc, rest, deeper - 1, total)?;
            let rest = after(rest, b')', total)?;
            Ok((Node::pair_of(alloc, left, right)?, rest))
        }
        _ => Err(syntax_at(text, total)),
    }
}
