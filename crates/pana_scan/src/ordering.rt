//! The byte order of paths.
ghost use Rattle.std.specs.Prelude.{◌≡◌};
ghost use Rattle.pana_scan.specs.Order.{path_cmp};

use pana_copies::CopyPath;
use std::cmp::Ordering;

/// How two paths compare, byte by byte.
pub(crate) fn path_order(one: &CopyPath, other: &CopyPath) -> Ordering
    ensures { result ≡ path_cmp one.now other.now }
{
    one.as_str().cmp(other.as_str())
}
