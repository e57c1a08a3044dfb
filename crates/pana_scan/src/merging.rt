//! A listing, a baseline and the holdings of a device, gone through once, path by path.
ghost use Rattle.std.specs.Prelude.{◌≡◌, ◌∷◌, [], ℕ, List, option_copied, option_map, IfSome, IfNone};
ghost use Rattle.pana_scan.specs.inner.Heads.{first_path, head_at, lesser, rest_at};
ghost use Rattle.pana_scan.specs.inner.Left.{AllRise, at_spot, left, living_left};

use crate::baseline::{BaselineRow, Mark};
use crate::listing::{Found, FoundRow};
use pana_calls::Holding;
use pana_copies::CopyPath;

/// What has a path.
pub(crate) trait HasPath {
    ghost path: { Self → List ℕ };

    fn path(&self) -> &CopyPath
        ensures { result.now ≡ path self.now };
}

impl HasPath for FoundRow {
    ghost path = { λ row. row.path };

    fn path(&self) -> &CopyPath {
        &self.path
    }
}

impl HasPath for BaselineRow {
    ghost path = { λ row. row.path };

    fn path(&self) -> &CopyPath {
        &self.path
    }
}

impl HasPath for &Holding {
    ghost path = { λ holding. holding.now.path };

    fn path(&self) -> &CopyPath {
        &self.path
    }
}

/// What is known of a path: what the scan found, what the baseline has, and the living copy there.
#[derive(Clone, Copy)]
pub(crate) struct Spot<'a> {
    pub(crate) path: &'a CopyPath,
    pub(crate) found: Option<Found>,
    pub(crate) mark: Option<Mark>,
    pub(crate) living: Option<&'a Holding>,
}

/// What is left of the three lists, each in byte order of its paths.
#[derive(Clone, Copy)]
pub(crate) struct Sources<'a> {
    pub(crate) found: &'a [FoundRow],
    pub(crate) kept: &'a [BaselineRow],
    pub(crate) living: &'a [&'a Holding],
}

impl<'a> Sources<'a> {
    /// The least path that is left, with what is known of it.
    pub(crate) fn next(&mut self) -> Option<Spot<'a>>
        requires { AllRise self.old }
        ensures rise { AllRise self.new }
        ensures some { IfSome result (λ spot. left self.old ≡ at_spot spot ∷ left self.new) }
        ensures none { IfNone result (left self.old ≡ []) }
    {
        let path = self.least()?;
        let found = take(&mut self.found, path);
        let kept = take(&mut self.kept, path);
        let living = take(&mut self.living, path);
        Some(Spot {
            path,
            found: found.map(|row| row.found),
            mark: kept.map(|row| row.mark),
            living: living.copied(),
        })
    }

    fn least(&self) -> Option<&'a CopyPath>
        ensures { option_copied result ≡ lesser (first_path (λ row. row.path) self.now.found.now)
            (lesser (first_path (λ row. row.path) self.now.kept.now) (first_path (λ holding. holding.now.path) self.now.living.now)) }
    {
        lesser(
            first(self.found),
            lesser(first(self.kept), first(self.living)),
        )
    }
}

/// The path of the first row, if there is one.
fn first<T: HasPath>(rows: &[T]) -> Option<&CopyPath>
    ensures { option_copied result ≡ first_path T.path rows.now }
{
    Some(rows.first()?.path())
}

/// The lesser of two paths, where both are there.
fn lesser<'a>(one: Option<&'a CopyPath>, other: Option<&'a CopyPath>) -> Option<&'a CopyPath>
    ensures { option_copied result ≡ lesser (option_copied one.entry) (option_copied other.entry) }
{
    match (one, other) {
        (Some(a), Some(b)) => Some(if b.as_str() < a.as_str() { b } else { a }),
        (Some(a), None) => Some(a),
        (None, b) => b,
    }
}

/// The first row, taken off where it has this path.
fn take<'a, T: HasPath>(rows: &mut &'a [T], path: &CopyPath) -> Option<&'a T>
    ensures row { option_copied result ≡ head_at T.path path.now rows.old.now }
    ensures rest { rows.new.now ≡ rest_at T.path path.now rows.old.now }
{
    let (row, rest) = rows.split_first()?;
    if row.path() != path {
        return None;
    }
    *rows = rest;
    Some(row)
}
