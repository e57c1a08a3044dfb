//! Whether a name matches pieces.
ghost use Rattle.std.specs.Prelude.{◌≡◌, ◌<◌, suc, length};
ghost use Rattle.pana_ignore.specs.Match.{some_rest};
ghost use Rattle.pana_ignore.specs.Pattern.{is_name_match};
ghost use Rattle.pana_ignore.specs.inner.Runs.{outcome, left, has_failed, IsAsGood};

use crate::piece::Piece;

/// How matching went up to the first star.
#[derive(Clone, Copy)]
enum NameRun<'a> {
    Failed,
    /// Neither pieces nor bytes are left.
    Matched,
    /// The pieces behind the star, and the bytes from it on.
    AtStar(&'a [Piece], &'a [u8]),
}

impl NameRun<'_> {
    fn has_failed(&self) -> bool
        ensures { result ≡ has_failed self.now }
    {
        matches!(self, NameRun::Failed)
    }
}

/// Matches piece by piece, up to the first star.
fn run<'a>(pieces: &'a [Piece], name: &'a [u8]) -> NameRun<'a>
    ensures outcome { outcome result ≡ is_name_match pieces.now name.now }
    ensures later { IsAsGood (some_rest (is_name_match pieces.now) name.now) result }
    ensures left { left result < suc (length pieces.now) }
{
    let mut ahead = pieces;
    let mut rest = name;
    while let Some((piece, others)) = ahead.split_first() {
        if piece.is_star() {
            return NameRun::AtStar(others, rest);
        }
        let Some((byte, behind)) = rest.split_first() else {
            return NameRun::Failed;
        };
        if !piece.fits(*byte) {
            return NameRun::Failed;
        }
        ahead = others;
        rest = behind;
    }
    if rest.is_empty() {
        NameRun::Matched
    } else {
        NameRun::Failed
    }
}

/// The first run that doesn't fail, over the name and what is left of it behind its first bytes.
fn find<'a>(pieces: &'a [Piece], name: &'a [u8]) -> NameRun<'a>
    ensures outcome { outcome result ≡ some_rest (is_name_match pieces.now) name.now }
    ensures left { left result < suc (length pieces.now) }
{
    let mut rest = name;
    loop {
        let met = run(pieces, rest);
        if !met.has_failed() {
            return met;
        }
        match rest.split_first() {
            Some((_, behind)) => rest = behind,
            None => return NameRun::Failed,
        }
    }
}

/// Whether a name matches pieces, from its first byte on.
fn matches_forward(pieces: &[Piece], name: &[u8]) -> bool
    ensures { result ≡ is_name_match pieces.now name.now }
{
    let mut met = run(pieces, name);
    while let NameRun::AtStar(pieces, name) = met {
        met = find(pieces, name);
    }
    !met.has_failed()
}

/// Whether a name matches pieces: those behind the last star first, from the end. Takes no memory; O(n m) in their lengths.
pub(crate) fn is_name_match(pieces: &[Piece], name: &[u8]) -> bool
    ensures { result ≡ is_name_match pieces.now name.now }
{
    let mut before = pieces;
    let mut rest = name;
    while let Some((piece, others)) = before.split_last() {
        if piece.is_star() {
            return matches_forward(before, rest);
        }
        let Some((byte, left)) = rest.split_last() else {
            return false;
        };
        if !piece.fits(*byte) {
            return false;
        }
        before = others;
        rest = left;
    }
    rest.is_empty()
}
