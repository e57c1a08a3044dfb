//! Trees as texts, in the notation of the clock's paper.

use std::alloc::{AllocError, Global};

/// The text of an id.
#[cycle(ids)]
pub fn id_text(alloc: Global, node: &pana_id::Node) -> Result<String, AllocError> {
    match node {
        pana_id::Node::Zero => format!(in alloc; "0"),
        pana_id::Node::One => format!(in alloc; "1"),
        pana_id::Node::Single(number) => pair_text(alloc, &pana_id::Halves::of_single(*number)),
        pana_id::Node::Pair(halves) => pair_text(alloc, halves),
    }
}

#[cycle(ids)]
fn pair_text(alloc: Global, halves: &pana_id::Halves) -> Result<String, AllocError> {
    let left = id_text(alloc, &halves.left)?;
    let right = id_text(alloc, &halves.right)?;
    format!(in alloc; "({left},{right})")
}

/// The text of an event.
pub fn event_text(alloc: Global, node: &pana_event::Node) -> Result<String, AllocError> {
    match node {
        pana_event::Node::Leaf(level) => format!(in alloc; "{level}"),
        pana_event::Node::Fork(number, halves) => {
            let left = event_text(alloc, &halves.left)?;
            let right = event_text(alloc, &halves.right)?;
            format!(in alloc; "({number},{left},{right})")
        }
    }
}
