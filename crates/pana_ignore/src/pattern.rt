ghost use Rattle.std.specs.Prelude.{◌≡◌, ◌<◌, IfOk};
ghost use Rattle.pana_ignore.specs.Pattern.{applies};
ghost use Rattle.pana_ignore.specs.Reading.{begins, without_first, ends, without_last, pattern_with, pattern_of};

use crate::part::Part;
use crate::path::is_path_match;
use crate::reading::read_parts;
use pana_list::PlainList;
use std::alloc::{AllocError, Global};

/// A pattern of paths.
#[derive(Drop)]
pub struct Pattern {
    /// Whether paths that match are included again.
    pub includes: bool,
    /// Whether only folders match.
    pub folders_only: bool,
    pub parts: PlainList<Part>,
}

/// Whether the byte is the first of a text.
pub(crate) fn begins(byte: u8, text: &[u8]) -> bool
    ensures { result ≡ begins byte text.now }
{
    matches!(text, [first, ..] if *first == byte)
}

/// The text without its first byte, where that is this one.
fn without_first(byte: u8, text: &[u8]) -> &[u8]
    ensures { result.now ≡ without_first byte text.now }
{
    if begins(byte, text) {
        text.split_at(1).1
    } else {
        text
    }
}

/// Whether the byte is the last of a text.
fn ends(byte: u8, text: &[u8]) -> bool
    requires { 0 < byte }
    ensures { result ≡ ends byte text.now }
{
    !text.is_empty() && text[text.len() - 1] == byte
}

/// The text without its last byte, where that is this one.
pub(crate) fn without_last(byte: u8, text: &[u8]) -> &[u8]
    requires { 0 < byte }
    ensures { result.now ≡ without_last byte text.now }
{
    if ends(byte, text) {
        text.split_at(text.len() - 1).0
    } else {
        text
    }
}

impl Pattern {
    /// The pattern of a body, if it spells one.
    fn with(
        alloc: Global,
        includes: bool,
        folders_only: bool,
        body: &[u8],
    ) -> Result<Option<Pattern>, AllocError>
        ensures { IfOk result (λ found. found ≡ pattern_with includes folders_only body.now) }
    {
        if body.is_empty() {
            return Ok(None);
        }
        let is_anchored = body.contains(&b'/');
        let Some(parts) = read_parts(alloc, without_first(b'/', body), is_anchored)? else {
            return Ok(None);
        };
        Ok(Some(Pattern {
            includes,
            folders_only,
            parts,
        }))
    }

    /// The pattern that a text spells, if it does.
    pub(crate) fn read(alloc: Global, text: &[u8]) -> Result<Option<Pattern>, AllocError>
        ensures { IfOk result (λ found. found ≡ pattern_of text.now) }
    {
        let rest = without_first(b'!', text);
        let body = without_last(b'/', rest);
        Pattern::with(alloc, begins(b'!', text), ends(b'/', rest), body)
    }

    /// Whether the pattern says something of a path.
    pub(crate) fn applies(&self, path: &[u8], is_folder: bool) -> bool
        ensures { result ≡ applies path.now is_folder self.now }
    {
        (is_folder || !self.folders_only) && is_path_match(self.parts.as_slice(), path)
    }
}
