//! Stamps read from their texts.
ghost use Rattle.std.specs.Prelude.{◌≡◌, IfErr, IfOk, MatchResult, OnOk};
ghost use Rattle.pana_id.specs.Node.{tree as id_of};
ghost use Rattle.pana_id.specs.Id.{Id};
ghost use Rattle.pana_event.specs.Event.{Event};
ghost use Rattle.pana_event.specs.Shape.{tree as event_of};
ghost use Rattle.pana_text.specs.inner.Reading.{Gives, Reads, at_end, ids, stamp_at};
ghost use Rattle.pana_text.specs.Grammar.{Says};
ghost use Rattle.pana_text.specs.Text.{IsTextOf, IsTextOfStamp};
ghost use Rattle.pana_text.specs.inner.Limits.{capped_events, event_kinds, id_kinds, judged_kinds};

use crate::bytes::{after, syntax_at};
use crate::event::{EventKind, build_event, check_event};
use crate::fault::TextFault;
use crate::id::{IdKind, build_id, check_id};
use pana_event::EventTree;
use pana_id::IdTree;
use pana_stamp::Stamp;
use std::alloc::Global;

fn at_end(rest: &[u8], total: usize) -> Result<(), TextFault>
    ensures { Reads (λ _. tt) result (at_end total rest.now) }
{
    match rest {
        [] => Ok(()),
        _ => Err(syntax_at(rest, total)),
    }
}

/// The most pairs, and the most forks, that lie one in another.
const MAX_DEPTH: u32 = 256;

/// What is kept of the two trees of a whole text, which may be `deepest` deep. Takes no memory.
#[tactic(auto, unfolding(crate::specs::inner::Reading::stamp_at))]
fn kinds_of(text: &[u8], deepest: u32) -> Result<(IdKind, EventKind), TextFault>
    ensures { Reads (λ x. x) result (stamp_at id_kinds event_kinds deepest text.now) }
{
    let total = text.len();
    let rest = after(text, b'(', total)?;
    let (id, rest) = check_id(rest, deepest, total)?;
    let rest = after(rest, b',', total)?;
    let (event, rest) = check_event(rest, deepest, total)?;
    let rest = after(rest, b')', total)?;
    at_end(rest, total)?;
    Ok((id, event))
}

/// Reports a form that isn't normal, and else a level that is too large.
fn judge(id: IdKind, event: EventKind) -> Result<(), TextFault>
    ensures { Reads (λ _. tt) result (judged_kinds (id, event)) }
{
    if !(id.is_normal && event.is_normal) {
        return Err(TextFault::NotNormal);
    }
    match event.greatest {
        Some(_) => Ok(()),
        None => Err(TextFault::TooLarge),
    }
}

/// Finds the first fault of a text, in one pass. Takes no memory.
#[tactic(auto, using(crate::proofs::Checked::checks))]
fn check(text: &[u8]) -> Result<(), TextFault>
    ensures ok { OnOk result (IsTextOfStamp text.now) }
    ensures fault { IfErr result (λ fault. Says fault text.now) }
{
    let (id, event) = kinds_of(text, MAX_DEPTH)?;
    judge(id, event)?;
    Ok(())
}

/// The two trees of a whole text, which may be `deepest` deep.
#[tactic(auto, unfolding(crate::specs::inner::Reading::stamp_at))]
fn build(
    alloc: Global,
    text: &[u8],
    deepest: u32,
) -> Result<(pana_id::Node, pana_event::Node), TextFault>
    ensures { Gives (λ x. (id_of x.0, event_of x.1)) result (stamp_at ids capped_events deepest text.now) }
{
    let total = text.len();
    let rest = after(text, b'(', total)?;
    let (id, rest) = build_id(alloc, rest, deepest, total)?;
    let rest = after(rest, b',', total)?;
    let (event, rest) = build_event(alloc, rest, deepest, total)?;
    let rest = after(rest, b')', total)?;
    at_end(rest, total)?;
    Ok((id, event))
}

#[tactic(auto, using(crate::proofs::Checked::builds))]
fn read_bytes(alloc: Global, text: &[u8]) -> Result<Stamp, TextFault>
    ensures found { IfOk result (λ stamp. IsTextOf stamp.id stamp.event text.now) }
    ensures says { IfErr result (λ fault. Says fault text.now) }
{
    check(text)?;
    let (id, event) = build(alloc, text, MAX_DEPTH)?;
    Ok(Stamp::new(IdTree::of_node(id), EventTree::of_node(event)))
}

/// Reads the one text of a stamp.
///
/// # Errors
///
/// `Syntax` or `TooDeep`, whichever comes first from the left; else `NotNormal`; else `TooLarge`. All
/// these come before memory is taken. `OutOfMemory` where an allocation failed.
///
/// Passes the text twice, to check and to build, and takes a box for each pair and each fork.
pub fn read(alloc: Global, text: &str) -> Result<Stamp, TextFault>
    // What is read is the text of the stamp.
    ensures found { IfOk result (λ stamp. IsTextOf stamp.id stamp.event text.now) }
    // The text of a stamp is read as that stamp, unless memory runs out.
    ensures only { (i : Id) (e : Event) → IsTextOf i e text.now → MatchResult result (λ stamp. (stamp.id ≡ i) × (stamp.event ≡ e)) (λ fault. fault ≡ TextFault.OutOfMemory) }
    // By the grammar: a syntax fault is at the first byte that it doesn't have there, and a depth fault where one
    // parenthesis too many opens; the form and the levels are those of the trees that the text spells. That memory ran
    // out is reported of a stamp's text alone. Of each text just one fault says something true (`laws`).
    ensures says { IfErr result (λ fault. Says fault text.now) }
{
    read_bytes(alloc, text.as_bytes())
}
