//! A text as lines.
ghost use Rattle.std.specs.Prelude.{◌≡◌, ◌<◌, ◌==◌, [], ◌∷◌, length, map, position, None, IfOk, IfSome};
ghost use Rattle.pana_wire.specs.Lines.{lines_of};

use memchr::memchr;
use std::alloc::{AllocError, Global};

/// Where the first newline stands.
pub(crate) fn end_of_line(text: &[u8]) -> Option<usize>
    ensures { result ≡ position (λ byte. byte == 10) text.now }
{
    memchr(b'\n', text)
}

/// The first line of a text, and what comes behind it; none where the text is empty.
fn next_line(text: &[u8]) -> Option<(&[u8], &[u8])>
    ensures line { IfSome result (λ cut. lines_of text.now ≡ cut.0.now ∷ lines_of cut.1.now) }
    ensures shorter { IfSome result (λ cut. length cut.1.now < length text.now) }
    ensures empty { result ≡ None → text.now ≡ [] }
{
    match end_of_line(text) {
        Some(end) => Some((&text[..end], &text[end + 1..])),
        None if text.is_empty() => None,
        None => Some((text, &[])),
    }
}

/// The lines of a text in order, without their newlines. What comes after the last newline is a line where there is a
/// byte. O(n) in the bytes of the text. Fails only where memory runs out for the list.
pub fn split_lines(alloc: Global, text: &[u8]) -> Result<Vec<&[u8]>, AllocError>
    ensures { IfOk result (λ lines. map (λ line. line.now) lines.items ≡ lines_of text.now) }
{
    let mut lines = Vec::new(alloc);
    let mut rest = text;
    while let Some((line, later)) = next_line(rest) {
        lines.push(line)?;
        rest = later;
    }
    Ok(lines)
}
