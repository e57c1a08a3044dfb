//! The lines of a text of patterns.
ghost use Rattle.std.specs.Prelude.{◌≡◌, ◌==◌, ◌+◌, ◌<◌, ◌≤◌, ◌^◌, false, true, count_by, option_map, option_copied, length, take};
ghost use Rattle.pana_ignore.specs.Reading.{are_spaces, trimmed, without_mark, lines_of, long_line, fault_of};
ghost use Rattle.pana_ignore.specs.inner.Kept.{is_kept, quotes};
ghost use Rattle.pana_ignore.specs.inner.Splits.{splits};

use crate::patterns_fault::PatternsFault;
use crate::split::split_first;

/// The most newlines of a text.
const MOST_NEWLINES: usize = 10_000;

/// The longest line, in bytes.
const LONGEST_LINE: usize = 4096;

/// Whether a byte is kept, whatever stands behind it.
fn is_kept(is_quoted: bool, byte: u8) -> bool
    ensures { result ≡ is_kept is_quoted byte }
{
    is_quoted || byte != b' '
}

/// Whether a byte quotes the next.
fn quotes(is_quoted: bool, byte: u8) -> bool
    ensures { result ≡ quotes is_quoted byte }
{
    !is_quoted && byte == b'\\'
}

/// The text without the spaces at its end that no backslash quotes.
pub(crate) fn trimmed(text: &[u8]) -> &[u8]
    ensures { result.now ≡ trimmed false text.now }
{
    let mut end = 0;
    let mut is_quoted = false;
    for (i, byte) in text.iter().enumerate() {
        if is_kept(is_quoted, *byte) {
            end = i + 1;
        }
        is_quoted = quotes(is_quoted, *byte);
    }
    text.split_at(end).0
}

/// The text without the byte order mark of UTF-8 at its head.
pub(crate) fn without_mark(text: &[u8]) -> &[u8]
    ensures { result.now ≡ without_mark text.now }
{
    match text {
        [0xEF, 0xBB, 0xBF, rest @ ..] => rest,
        _ => text,
    }
}

fn newlines(text: &[u8]) -> usize
    ensures { result ≡ count_by (λ b. b == 10) text.now }
{
    text.iter().filter(|byte| **byte == b'\n').count()
}

/// The number of the first line that is too long, from 1.
fn long_line(text: &[u8]) -> Option<u64>
    ensures { result ≡ long_line 1 (splits 10 (Some text.now)) }
{
    let mut rest = Some(text);
    let mut number = 1;
    while let Some(lines) = rest {
        let (line, behind) = split_first(lines, b'\n');
        if line.len() > LONGEST_LINE {
            return Some(number);
        }
        number += 1;
        rest = behind;
    }
    None
}

/// What is wrong with a text, if something is. Takes no memory.
pub(crate) fn fault_of(text: &[u8]) -> Option<PatternsFault>
    ensures { result ≡ fault_of text.now }
{
    if newlines(text) > MOST_NEWLINES {
        return Some(PatternsFault::TooManyLines);
    }
    long_line(without_mark(text)).map(PatternsFault::LongLine)
}
