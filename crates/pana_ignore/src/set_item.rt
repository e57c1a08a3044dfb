//! The items of a set in the text of a pattern.
ghost use Rattle.std.specs.Prelude.{◌≡◌, ◌==◌, ◌+◌, ◌<◌, ◌≤◌, IfSome, IsTrue, drop, length, position};
ghost use Rattle.pana_ignore.specs.Spelling.{byte_at, byte_item, goes_on, range_item, class_item, plain_item, item_at, closes};

use crate::byte_class::ByteClass;
use crate::piece::SetItem;

/// What stands before an item of a set.
#[derive(Clone, Copy)]
pub(crate) enum Before {
    /// Nothing.
    Start,
    /// A byte, from which a `-` leads on.
    After(u8),
    /// A range or a class.
    Apart,
}

/// An item of a set, how many bytes it takes, and what it is to the next.
#[derive(Clone, Copy)]
pub(crate) struct Item {
    pub(crate) item: SetItem,
    pub(crate) length: usize,
    pub(crate) next: Before,
}

impl Before {
    /// Whether the byte closes the set.
    pub(crate) fn closes(self, byte: u8) -> bool
        ensures { result ≡ closes self byte }
    {
        match self {
            Before::Start => false,
            Before::After(_) | Before::Apart => byte == b']',
        }
    }
}

/// The byte at the head of a text, and how many bytes it takes.
pub(crate) fn byte_at(text: &[u8]) -> Option<(u8, usize)>
    ensures byte { result ≡ byte_at text.now }
    ensures some { IfSome result (λ found. 0 < found.1) }
    ensures within { IfSome result (λ found. found.1 ≤ length text.now) }
{
    match text {
        [] | [b'\\'] => None,
        [b'\\', byte, ..] => Some((*byte, 2)),
        [byte, ..] => Some((*byte, 1)),
    }
}

fn byte_item(text: &[u8]) -> Option<Item>
    ensures item { result ≡ byte_item text.now }
    ensures some { IfSome result (λ found. 0 < found.length) }
    ensures within { IfSome result (λ found. found.length ≤ length text.now) }
{
    let (byte, length) = byte_at(text)?;
    Some(Item {
        item: SetItem::Range(byte, byte),
        length,
        next: Before::After(byte),
    })
}

/// Whether a `-` at the head of a text leads on from a byte before it.
fn goes_on(text: &[u8]) -> bool
    ensures { result ≡ goes_on text.now }
{
    matches!(text, [b'-', next, ..] if *next != b']')
}

/// The bytes from the first to the one behind the `-` at the head of the text.
fn range_item(first: u8, text: &[u8]) -> Option<Item>
    requires { IsTrue (goes_on text.now) }
    ensures item { result ≡ range_item first (drop 1 text.now) }
    ensures some { IfSome result (λ found. 0 < found.length) }
    ensures within { IfSome result (λ found. found.length ≤ length text.now) }
{
    let (last, length) = byte_at(&text[1..])?;
    Some(Item {
        item: SetItem::Range(first, last),
        length: length + 1,
        next: Before::Apart,
    })
}

/// Where the first `]` stands.
fn end_at(text: &[u8]) -> Option<usize>
    ensures end { result ≡ position (λ d. d == 93) text.now }
    ensures within { IfSome result (λ end. end < length text.now) }
{
    text.iter().position(|byte| *byte == b']')
}

/// The class whose name stands in the text behind `[:`, with `]` at the end, or else the `[`.
fn class_item(text: &[u8], end: usize) -> Option<Item>
    requires { end + 2 < length text.now }
    ensures item { result ≡ class_item text.now (drop 2 text.now) end }
    ensures some { IfSome result (λ found. 0 < found.length) }
    ensures within { IfSome result (λ found. found.length ≤ length text.now) }
{
    let behind = &text[2..];
    if end == 0 || behind[end - 1] != b':' {
        return byte_item(text);
    }
    let class = ByteClass::named(&behind[..end - 1])?;
    Some(Item {
        item: SetItem::Class(class),
        length: end + 3,
        next: Before::Apart,
    })
}

/// The item at the head of a text, where no range goes on.
fn plain_item(text: &[u8]) -> Option<Item>
    ensures item { result ≡ plain_item text.now }
    ensures some { IfSome result (λ found. 0 < found.length) }
    ensures within { IfSome result (λ found. found.length ≤ length text.now) }
{
    match text {
        [b'[', b':', behind @ ..] => class_item(text, end_at(behind)?),
        _ => byte_item(text),
    }
}

/// The item at the head of a text, by what stands before it. `None` where the text ends too early, or names a class that
/// there isn't.
pub(crate) fn item_at(before: Before, text: &[u8]) -> Option<Item>
    ensures item { result ≡ item_at before text.now }
    ensures some { IfSome result (λ found. 0 < found.length) }
    ensures within { IfSome result (λ found. found.length ≤ length text.now) }
{
    match before {
        Before::After(first) if goes_on(text) => range_item(first, text),
        _ => plain_item(text),
    }
}
