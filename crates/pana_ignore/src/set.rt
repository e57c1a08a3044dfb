//! Sets of bytes in the text of a pattern.
ghost use Rattle.std.specs.Prelude.{◌≡◌, ◌+◌, ◌<◌, ◌≤◌, IfOk, IfSome, length, option_map};
ghost use Rattle.pana_ignore.specs.Spelling.{items_behind, set_at};
ghost use Rattle.pana_ignore.specs.declared.set_item.Before.TheVariants.{Start};

use crate::piece::{ByteSet, Piece, SetItem};
use crate::set_item::{Before, item_at};
use pana_list::PlainList;
use std::alloc::{AllocError, Global};

/// The items up to the `]`, and how many bytes they take with it. `None` where the set isn't closed.
fn read_items(alloc: Global, text: &[u8]) -> Result<Option<(PlainList<SetItem>, usize)>, AllocError>
    ensures items { IfOk result (λ found. found ≡ items_behind 0 Start text.now) }
    ensures within { IfOk result (λ found. IfSome found (λ set. set.1 ≤ length text.now)) }
{
    let mut items = Vec::new(alloc);
    let mut before = Before::Start;
    let mut rest = text;
    while let Some((byte, _)) = rest.split_first() {
        if before.closes(*byte) {
            let length = text.len() - rest.len() + 1;
            return Ok(Some((PlainList::from_vec(items), length)));
        }
        let Some(found) = item_at(before, rest) else {
            return Ok(None);
        };
        items.push(found.item)?;
        before = found.next;
        rest = rest.split_at(found.length).1;
    }
    Ok(None)
}

/// The set whose `[` stands before the text, and how many bytes it takes. `None` where it isn't closed.
pub(crate) fn set_at(alloc: Global, text: &[u8]) -> Result<Option<(Piece, usize)>, AllocError>
    ensures set { IfOk result (λ found. found ≡ set_at text.now) }
    ensures some { IfOk result (λ found. IfSome found (λ set. 0 < set.1)) }
    ensures within { IfOk result (λ found. IfSome found (λ set. set.1 ≤ length text.now + 1)) }
{
    let (is_negated, behind) = match text {
        [b'!' | b'^', behind @ ..] => (true, behind),
        _ => (false, text),
    };
    let Some((items, length)) = read_items(alloc, behind)? else {
        return Ok(None);
    };
    let set = ByteSet { is_negated, items };
    Ok(Some((Piece::Set(set), text.len() - behind.len() + 1 + length)))
}
