//! Whether the names of a path match parts.
ghost use Rattle.std.specs.Prelude.{◌≡◌, ◌<◌, suc, length, option_copied};
ghost use Rattle.pana_ignore.specs.Match.{some_rest};
ghost use Rattle.pana_ignore.specs.Pattern.{is_path_match, names_of};
ghost use Rattle.pana_ignore.specs.inner.Runs.{path_outcome, parts_left, has_no_path, names_left, IsAsGoodPath};

use crate::part::Part;
use crate::split::{split_first, split_last};

/// How matching went up to the first `**`.
#[derive(Clone, Copy)]
enum PathRun<'a> {
    NoPath,
    /// Neither parts nor names are left.
    WholePath,
    /// The parts behind the `**`, and the path from it on, if names are left.
    AtFolders(&'a [Part], Option<&'a [u8]>),
}

impl PathRun<'_> {
    fn has_failed(&self) -> bool
        ensures { result ≡ has_no_path self.now }
    {
        matches!(self, PathRun::NoPath)
    }
}

/// Matches part by part, up to the first `**`.
fn run<'a>(parts: &'a [Part], path: Option<&'a [u8]>) -> PathRun<'a>
    ensures outcome { path_outcome result ≡ is_path_match parts.now (names_left (option_copied path.entry)) }
    ensures later { IsAsGoodPath (some_rest (is_path_match parts.now) (names_left (option_copied path.entry))) result }
    ensures left { parts_left result < suc (length parts.now) }
{
    let mut ahead = parts;
    let mut rest = path;
    while let Some((part, others)) = ahead.split_first() {
        if part.is_folders() {
            return PathRun::AtFolders(others, rest);
        }
        let Some(text) = rest else {
            return PathRun::NoPath;
        };
        let (name, behind) = split_first(text, b'/');
        if !part.fits(name) {
            return PathRun::NoPath;
        }
        ahead = others;
        rest = behind;
    }
    match rest {
        None => PathRun::WholePath,
        Some(_) => PathRun::NoPath,
    }
}

/// The first run that doesn't fail, over the path and what is left of it behind its first names.
fn find<'a>(parts: &'a [Part], path: Option<&'a [u8]>) -> PathRun<'a>
    ensures outcome { path_outcome result ≡ some_rest (is_path_match parts.now) (names_left (option_copied path.entry)) }
    ensures left { parts_left result < suc (length parts.now) }
{
    let mut rest = path;
    loop {
        let met = run(parts, rest);
        if !met.has_failed() {
            return met;
        }
        match rest {
            Some(text) => rest = split_first(text, b'/').1,
            None => return PathRun::NoPath,
        }
    }
}

/// Whether what is left of a path matches parts.
fn matches_left(parts: &[Part], path: Option<&[u8]>) -> bool
    ensures { result ≡ is_path_match parts.now (names_left (option_copied path.entry)) }
{
    let mut met = run(parts, path);
    while let PathRun::AtFolders(parts, rest) = met {
        met = find(parts, rest);
    }
    !met.has_failed()
}

/// Whether a path matches parts. Takes no memory; O(n m) in the lengths of both.
pub(crate) fn is_path_match(parts: &[Part], path: &[u8]) -> bool
    ensures { result ≡ is_path_match parts.now (names_of path.now) }
{
    // The last name comes first, since by it most paths differ.
    match parts.split_last() {
        Some((part, others)) if !part.is_folders() => {
            let (above, name) = split_last(path, b'/');
            part.fits(name) && matches_left(others, above)
        }
        _ => matches_left(parts, Some(path)),
    }
}
